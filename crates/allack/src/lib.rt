// All-ack, a uniform reliable broadcast: a card is handed a note once every card that it does not suspect has relayed it.
#![tactic(auto)]

pub mod counts;
pub mod state;
