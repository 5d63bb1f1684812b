ghost use Rattle.std.specs.Prelude.{◌≡◌, ◌<◌, [], length, slice_index_or};
ghost use Rattle.allack.specs.Counts.{new_counts, counted_in, with_count};

use super::Counts;
use notes::set::NoteSet;
use std::array;
use tables::card_sets::CardSets;

impl Counts {
    pub fn new() -> Counts
        ensures { result ≡ new_counts }
    {
        Counts {
            rows: array::from_fn(|_card| CardSets::new()),
        }
    }

    // The notes of which the card has counted the relayer.
    pub fn of(&self, card: usize, relayer: usize) -> NoteSet
        ensures value { result ≡ counted_in self.now card relayer }
        ensures places { length self.now ≡ 6 }
        ensures row { card < 6 → length (slice_index_or self.now card []) ≡ 6 }
    {
        self.rows
            .get(card)
            .map_or(NoteSet::empty(), |row| row.of(relayer))
    }

    // The card counts the relayer of the note.
    pub fn count(&mut self, card: usize, relayer: usize, note: usize)
        ensures after { self.new ≡ with_count self.old card relayer note }
        ensures places { length self.old ≡ 6 }
        ensures row { card < 6 → length (slice_index_or self.old card []) ≡ 6 }
    {
        // By index: what an array's `get_mut` writes, a proof does not know.
        if card < 6 {
            self.rows[card].add(relayer, note);
        }
    }
}
