use crate::grid::Grid;
use notes::set::NoteSet;
use std::marker::Model;

pub mod methods;

// What each card has proposed, or decided, in each instance: a set of notes, or nothing yet.
#[derive(Drop)]
pub struct Ballots {
    rows: Grid<Option<NoteSet>>,
}

impl Model for Ballots {
    ghost use Rattle.std.specs.Prelude.{ℕ, List, Option};
    ghost use Rattle.tables.specs.Tables.{Shaped};

    ghost Value = { List (List (Option ℕ)) };

    ghost view = { λ t. t.rows };

    ghost invariant = { λ t. Shaped t.rows };
}
