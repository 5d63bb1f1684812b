// Relay, an eager reliable broadcast: a card is handed a note when it meets it first, and then relays it to every other card.
#![tactic(auto)]

pub mod state;
