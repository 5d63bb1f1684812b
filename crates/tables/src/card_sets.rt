use notes::set::NoteSet;
use std::marker::Model;

pub mod methods;

// A set of notes for each card.
#[derive(Drop)]
pub struct CardSets {
    sets: [NoteSet; 6],
}

impl Model for CardSets {
    ghost use Rattle.std.specs.Prelude.{◌≡◌, ℕ, List, length};

    ghost Value = { List ℕ };

    ghost view = { λ t. t.sets };

    ghost invariant = { λ t. length t.sets ≡ 6 };
}
