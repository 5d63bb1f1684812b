// FIFO order over any broadcast: a card's posts count as handed only in the order in which it made them.
#![tactic(auto)]

pub mod layer;
pub mod post;
mod table;
