// Logs: what a card keeps of the notes, in batches that are each in ranking order.
#![tactic(auto)]

pub mod log;
pub mod ranking;
