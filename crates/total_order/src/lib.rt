// The carrier of mirrored memory cards: it logs notes in one order on every card, over any broadcast and any consensus.
#![tactic(auto)]

pub mod call;
pub mod carrier;
