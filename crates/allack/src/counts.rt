use std::marker::Model;
use tables::card_sets::CardSets;

pub mod methods;

// For each card and each relayer: the notes of which the card has counted that relayer.
#[derive(Drop)]
pub struct Counts {
    rows: [CardSets; 6],
}

impl Model for Counts {
    ghost use Rattle.std.specs.Prelude.{◌≡◌, ℕ, List, length};

    ghost Value = { List (List ℕ) };

    ghost view = { λ t. t.rows };

    ghost invariant = { λ t. length t.rows ≡ 6 };
}
