use spread::state::Spread;
use std::marker::Model;

pub mod broadcast;
pub mod uniformity;

// The notes handed to a card are those that it has relayed.
#[derive(Drop)]
pub struct Relay {
    spread: Spread,
}

impl Model for Relay {
    ghost use Rattle.spread.specs.Spread.{SpreadState};

    ghost Value = { SpreadState };

    ghost view = { λ r. r.spread };
}
