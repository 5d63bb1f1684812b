#![tactic(auto)]

use std::marker::Model;

pub mod methods;

// What is known of one card: whether it has crashed, and whom it suspects.
#[derive(Clone, Copy)]
struct Card {
    crashed: bool,
    suspects: [bool; 6],
}

// The cards of a part, of which the first `size` are there. The definitions read six cards, however many there are, so it is no vector of `size`.
#[derive(Drop)]
pub struct Cards {
    size: usize,
    cards: [Card; 6],
}

impl Model for Cards {
    ghost use Rattle.cards.specs.Cards.{CardState, SixCards, known_of};

    ghost Value = { CardState };

    ghost view = { λ c. known_of c.size c.cards };

    ghost invariant = { λ c. SixCards (known_of c.size c.cards) };
}
