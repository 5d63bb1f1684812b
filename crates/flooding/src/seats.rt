use notes::set::NoteSet;
use std::marker::Model;
use tables::grid::Grid;

pub mod methods;

// A card in an instance.
#[derive(Clone, Copy, Drop)]
pub struct Place {
    pub instance: usize,
    pub card: usize,
}

// Where a card stands in an instance: its round, 0 before it proposes; whom it has counted in that round; and whose proposals it knows.
// A set of cards is held like a set of notes. The round is no Option: an item that comes early is told by comparing rounds, proposed or not.
#[derive(Clone, Copy, Drop)]
pub struct Seat {
    pub round: usize,
    pub counted: NoteSet,
    pub known: NoteSet,
}

// The seat of each card in each instance.
#[derive(Drop)]
pub struct Seats {
    rows: Grid<Seat>,
}

impl Model for Seats {
    ghost use Rattle.std.specs.Prelude.{List};
    ghost use Rattle.flooding.specs.declared.seats.Seat.{Seat};

    ghost Value = { List (List Seat) };

    ghost view = { λ t. t.rows };
}
