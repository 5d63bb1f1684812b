use cards::Cards;
use std::marker::Model;
use tables::card_sets::CardSets;
use tables::posters::Posters;
use wire::Wire;

pub mod methods;

// The cards, the posters, the notes that each card has relayed, and the wire, whose load is the note.
#[derive(Drop)]
pub struct Spread {
    cards: Cards,
    posters: Posters,
    relayed: CardSets,
    wire: Wire<usize>,
}

impl Model for Spread {
    ghost use Rattle.spread.specs.Spread.{SpreadState, Roomy};

    ghost Value = { SpreadState };

    ghost view = { λ s. record { cards = s.cards; posters = s.posters; relayed = s.relayed; wire = s.wire.items } };

    ghost invariant = { λ s. Roomy s.cards s.relayed s.wire };
}
