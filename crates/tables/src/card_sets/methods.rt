ghost use Rattle.std.specs.Prelude.{◌≡◌, ◌<◌, length, set, replicate, slice_set};
ghost use Rattle.tables.specs.Tables.{set_in, with_note, with_notes};

use super::CardSets;
use notes::set::NoteSet;

impl CardSets {
    pub fn new() -> CardSets
        ensures { result ≡ replicate 6 0 }
    {
        CardSets {
            sets: [NoteSet::empty(); 6],
        }
    }

    // The set of a card; a number above 5 has none.
    pub fn of(&self, card: usize) -> NoteSet
        ensures value { result ≡ set_in self.now card }
        ensures places { length self.now ≡ 6 }
    {
        self.sets.get(card).copied().unwrap_or(NoteSet::empty())
    }

    // Puts the note into the card's set.
    pub fn add(&mut self, card: usize, note: usize)
        ensures after { self.new ≡ with_note self.old card note }
        ensures places { length self.old ≡ 6 }
    {
        let held = self.of(card);
        self.put(card, held.with(note));
    }

    // Puts all the notes into the card's set.
    pub fn add_all(&mut self, card: usize, notes: NoteSet)
        ensures after { self.new ≡ with_notes self.old card notes }
        ensures places { length self.old ≡ 6 }
    {
        let held = self.of(card);
        self.put(card, held.union(notes));
    }

    fn put(&mut self, card: usize, notes: NoteSet)
        ensures { self.new ≡ slice_set self.old card notes }
    {
        // By index: what an array's `get_mut` writes, a proof does not know.
        if card < 6 {
            self.sets[card] = notes;
        }
    }
}
