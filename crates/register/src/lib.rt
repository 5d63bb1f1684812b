// The register: a proposal is an item to the carrier, which keeps the first that it carries, and each running proposer decides what is kept.
#![tactic(auto)]

pub mod held;
pub mod state;
