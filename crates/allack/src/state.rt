use crate::counts::Counts;
use spread::state::Spread;
use std::marker::Model;
use tables::card_sets::CardSets;

pub mod broadcast;
pub mod steps;

// The relays, whom each card has counted, and the notes handed to each card.
#[derive(Drop)]
pub struct AllAck {
    spread: Spread,
    counted: Counts,
    handed: CardSets,
}

impl Model for AllAck {
    ghost use Rattle.allack.specs.AllAck.{AllAckState};

    ghost Value = { AllAckState };

    ghost view = { λ a. record { spread = a.spread; counted = a.counted; handed = a.handed } };
}
