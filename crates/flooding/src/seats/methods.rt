ghost use Rattle.std.specs.Prelude.{◌≡◌};
ghost use Rattle.flooding.specs.Mail.{telling};
ghost use Rattle.flooding.specs.Seats.{no_seat, new_seats, seat_in, with_seat, entering, hearing, accounted_for, all_counted, ready};

use super::{Place, Seat, Seats};
use crate::mail::Load;
use cards::Cards;
use notes::set::NoteSet;
use tables::grid::Grid;
use wire::Item;

// The methods are told the cards, and which of them sits here: a seat lies in its table and knows neither.
impl Seat {
    // A card enters a round: it has counted only itself.
    pub(crate) fn enter(card: usize, round: usize, known: NoteSet) -> Seat
        ensures { result ≡ entering card round known }
    {
        Seat {
            round,
            counted: NoteSet::empty().with(card),
            known,
        }
    }

    // The seat of a card that has not proposed.
    fn vacant() -> Seat
        ensures { result ≡ no_seat }
    {
        Seat {
            round: 0,
            counted: NoteSet::empty(),
            known: NoteSet::empty(),
        }
    }

    // The card that an item is for counts its sender and takes over what that one knows, unless it suspects it.
    pub(crate) fn hear(self, cards: &Cards, item: Item<Load>) -> Seat
        ensures { result ≡ hearing cards.now item.to item.from item.load.known self }
    {
        if cards.suspects(item.to, item.from) {
            return self;
        }
        Seat {
            counted: self.counted.with(item.from),
            known: self.known.union(item.load.known),
            ..self
        }
    }

    // It can move on that has proposed and has counted every card that it does not suspect.
    pub(crate) fn is_ready(self, cards: &Cards, card: usize) -> bool
        ensures { result ≡ ready cards.now card self }
    {
        self.round > 0 && self.is_complete(cards, card)
    }

    fn is_complete(self, cards: &Cards, card: usize) -> bool
        ensures { result ≡ all_counted cards.now card self cards.now.count }
    {
        (0..cards.count()).all(|other| self.accounts_for(cards, card, other))
    }

    fn accounts_for(self, cards: &Cards, card: usize, other: usize) -> bool
        ensures { result ≡ accounted_for cards.now card self other }
    {
        cards.suspects(card, other) || self.counted.contains(other)
    }
}

impl Seats {
    pub(crate) fn new() -> Seats
        ensures { result ≡ new_seats }
    {
        Seats {
            rows: Grid::filled(Seat::vacant()),
        }
    }

    pub(crate) fn of(&self, place: Place) -> Seat
        ensures { result ≡ seat_in self.now place.instance place.card }
    {
        self.rows.of(place.instance, place.card, Seat::vacant())
    }

    // What a card tells the others: its round, and what it knows.
    pub(crate) fn load(&self, place: Place) -> Load
        ensures { result ≡ telling self.now place.instance place.card }
    {
        let seat = self.of(place);
        Load {
            instance: place.instance,
            round: seat.round,
            known: seat.known,
        }
    }

    pub(crate) fn put(&mut self, place: Place, seat: Seat)
        ensures { self.new ≡ with_seat self.old place.instance place.card seat }
    {
        self.rows.put(place.instance, place.card, seat);
    }
}
