use cards::Cards;
use std::marker::Model;
use tables::card_sets::CardSets;
use tables::posters::Posters;

pub mod broadcast;

// There is no wire: a note is handed over as it is posted.
#[derive(Drop)]
pub struct AtOnce {
    cards: Cards,
    posters: Posters,
    handed: CardSets,
}

impl Model for AtOnce {
    ghost use Rattle.at_once.specs.AtOnce.{AtOnceState};

    ghost Value = { AtOnceState };

    ghost view = { λ b. record { cards = b.cards; posters = b.posters; handed = b.handed } };
}
