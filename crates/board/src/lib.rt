// The board: a post puts an item for every running card on the wire, and carrying it hands the note over.
#![tactic(auto)]

pub mod state;
