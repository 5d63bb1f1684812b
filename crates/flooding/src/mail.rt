ghost use Rattle.std.specs.Prelude.{◌≡◌, ◌≤◌, length, vec_capacity};
ghost use Rattle.flooding.specs.Mail.{is_for, taking_one, taking_in, still_kept};

use crate::seats::{Place, Seat};
use cards::Cards;
use notes::set::NoteSet;
use wire::Item;

// What an item brings: in this instance, on entering this round, its sender knew the proposals of these cards.
#[derive(Clone, Copy, Drop)]
pub struct Load {
    pub instance: usize,
    pub round: usize,
    pub known: NoteSet,
}

// The card takes in what is kept for its round.
// A place goes beside its seat here and in `Seats`: a table finds the seat by the place, so a struct of both would be taken apart in every call.
pub(crate) fn take_in(kept: &[Item<Load>], cards: &Cards, place: Place, seat: Seat) -> Seat
    ensures { result ≡ taking_in cards.now place.instance place.card seat kept.now }
{
    kept.iter().fold(seat, |taken, item| take_in_one(cards, place, taken, *item))
}

// Whether the card suspects the sender is judged now.
fn take_in_one(cards: &Cards, place: Place, seat: Seat, item: Item<Load>) -> Seat
    ensures { result ≡ taking_one cards.now place.instance place.card seat item }
{
    if is_for(place, seat.round, &item) {
        seat.hear(cards, item)
    } else {
        seat
    }
}

// Lets go what is kept for a round of the card; the rest keeps its order.
pub(crate) fn let_go(kept: &mut Vec<Item<Load>>, place: Place, round: usize)
    ensures after { kept.new.items ≡ still_kept place.instance round place.card kept.old.items }
    ensures fewer { length kept.new.items ≤ length kept.old.items }
    ensures room { vec_capacity kept.new ≡ vec_capacity kept.old }
{
    kept.retain(|item| !is_for(place, round, item));
}

fn is_for(place: Place, round: usize, item: &Item<Load>) -> bool
    ensures { result ≡ is_for place.instance round place.card item.now }
{
    item.load.instance == place.instance && item.load.round == round && item.to == place.card
}
