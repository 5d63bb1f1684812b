// What relay and all-ack share: a card that meets a note for the first time relays it, that is, sends it to every other card.
#![tactic(auto)]

pub mod state;
