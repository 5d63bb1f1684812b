use crate::held::Held;
use cards::Cards;
use std::marker::Model;
use tables::ballots::Ballots;
use wire::Wire;

pub mod consensus;

// A wire's load is the instance.
#[derive(Drop)]
pub struct Register {
    cards: Cards,
    // Two tables, not one of pairs: `Ballots` writes a proposal and a decision each by itself, here and in flooding.
    proposals: Ballots,
    decisions: Ballots,
    held: Held,
    wire: Wire<usize>,
}

impl Model for Register {
    ghost use Rattle.std.specs.Prelude.{◌+◌, ◌≤◌, length};
    ghost use Rattle.tables.specs.Tables.{free_ballots};
    ghost use Rattle.register.specs.Register.{RegisterState};

    ghost Value = { RegisterState };

    ghost view = { λ r. record { cards = r.cards; proposals = r.proposals; decisions = r.decisions; held = r.held; wire = r.wire.items } };

    // There is room for the item of every proposal to come.
    ghost invariant = { λ r. length r.wire.items + free_ballots r.proposals ≤ r.wire.room };
}
