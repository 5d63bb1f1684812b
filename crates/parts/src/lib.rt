// The interfaces of broadcast and consensus: what each call answers and makes, and what is certain of it.
#![tactic(auto)]

pub mod broadcast;
pub mod consensus;
pub mod refusal;
pub mod uniform;
pub mod wires;
