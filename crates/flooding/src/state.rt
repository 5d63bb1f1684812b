use crate::mail::Load;
use crate::seats::Seats;
use cards::Cards;
use std::marker::Model;
use tables::ballots::Ballots;
use wire::{Item, Wire};

pub mod consensus;
mod moves;

// The items under way, and those that came before their round and are kept for it: each list has room for all that can be sent. What is kept is
// no wire, since nothing is sent or lost there.
// Three tables by instance and card, and not one of structs: proposals and decisions are tables that the register has too, with their laws.
#[derive(Drop)]
pub struct Flooding {
    cards: Cards,
    proposals: Ballots,
    decisions: Ballots,
    seats: Seats,
    wire: Wire<Load>,
    kept: Vec<Item<Load>>,
}

impl Model for Flooding {
    ghost use Rattle.std.specs.Prelude.{vec_capacity};
    ghost use Rattle.flooding.specs.Enough.{HasRoom};
    ghost use Rattle.flooding.specs.Flooding.{FloodingState};

    ghost Value = { FloodingState };

    ghost view = { λ f. record { cards = f.cards; proposals = f.proposals; decisions = f.decisions; seats = f.seats; wire = f.wire.items; kept = f.kept.items } };

    // There is room for every item that is still to be sent, and for keeping it.
    ghost invariant = { λ f. HasRoom f.cards f.wire (vec_capacity f.kept) f.kept.items f.proposals f.seats };
}
