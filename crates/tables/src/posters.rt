use std::marker::Model;

pub mod methods;

// Who has posted each note, if anyone.
#[derive(Drop)]
pub struct Posters {
    by: [Option<usize>; 32],
}

impl Model for Posters {
    ghost use Rattle.std.specs.Prelude.{◌≡◌, ℕ, List, Option, length};

    ghost Value = { List (Option ℕ) };

    ghost view = { λ t. t.by };

    ghost invariant = { λ t. length t.by ≡ 32 };
}
