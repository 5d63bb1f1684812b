use notes::set::NoteSet;
use std::marker::Model;

pub mod methods;

// The register of each instance: it holds the first set that fills it, and no other after that.
#[derive(Drop)]
pub struct Held {
    sets: [Option<NoteSet>; 32],
}

impl Model for Held {
    ghost use Rattle.std.specs.Prelude.{◌≡◌, ℕ, List, Option, length};

    ghost Value = { List (Option ℕ) };

    ghost view = { λ t. t.sets };

    ghost invariant = { λ t. length t.sets ≡ 32 };
}
