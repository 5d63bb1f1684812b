use cards::Cards;
use std::marker::Model;
use tables::card_sets::CardSets;
use tables::posters::Posters;
use wire::Wire;

pub mod broadcast;

// A wire's load is the note.
#[derive(Drop)]
pub struct Board {
    cards: Cards,
    posters: Posters,
    handed: CardSets,
    wire: Wire<usize>,
}

impl Model for Board {
    ghost use Rattle.std.specs.Prelude.{◌+◌, ◌*◌, ◌≤◌, length};
    ghost use Rattle.tables.specs.Tables.{free_notes};
    ghost use Rattle.board.specs.Board.{BoardState};

    ghost Value = { BoardState };

    ghost view = { λ b. record { cards = b.cards; posters = b.posters; handed = b.handed; wire = b.wire.items } };

    // There is room for the items of every post to come, each for at most six cards.
    ghost invariant = { λ b. (b.cards.count ≤ 6) × (length b.wire.items + 6 * free_notes b.posters ≤ b.wire.room) };
}
