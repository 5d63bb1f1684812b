// Flooding: in as many rounds as there are cards, every card tells every other which proposals it knows, and then decides the lowest card's.
#![tactic(auto)]

mod mail;
mod seats;
pub mod state;
