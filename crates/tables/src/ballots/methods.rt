ghost use Rattle.std.specs.Prelude.{◌≡◌, ◌+◌, is_ok, if◌then◌else◌, Some};
ghost use Rattle.parts.specs.Refusals.{propose_answer};
ghost use Rattle.parts.specs.Cases.{case_of, turned_down_by, propose_reasons};
ghost use Rattle.tables.specs.Tables.{Shaped, new_ballots, ballot_in, with_ballot, proposals_view, free_ballots};

use super::Ballots;
use crate::grid::Grid;
use cards::Cards;
use notes::set::NoteSet;
use parts::refusal::Refusal;

impl Ballots {
    pub fn new() -> Ballots
        ensures { result ≡ new_ballots }
    {
        Ballots {
            rows: Grid::filled(None),
        }
    }

    pub fn of(&self, instance: usize, card: usize) -> Option<NoteSet>
        ensures value { result ≡ ballot_in self.now instance card }
        ensures shape { Shaped self.now }
    {
        self.rows.of(instance, card, None)
    }

    // Writes down what the card has decided, or proposed.
    pub fn put(&mut self, instance: usize, card: usize, notes: Option<NoteSet>)
        ensures after { self.new ≡ with_ballot self.old instance card notes }
        ensures shape { Shaped self.old }
    {
        self.rows.put(instance, card, notes);
    }

    // Writes down that the card proposes the notes in the instance, unless the proposal is refused.
    pub fn propose(
        &mut self,
        cards: &Cards,
        instance: usize,
        card: usize,
        notes: NoteSet,
    ) -> Result<(), Refusal>
        ensures answer { result ≡ propose_answer (proposals_view cards.now self.old) instance card notes }
        ensures case { let v = proposals_view cards.now self.old in
            case_of result ≡ turned_down_by (propose_reasons v instance card notes) }
        ensures after { self.new ≡ (if is_ok result then with_ballot self.old instance card (Some notes) else self.old) }
        ensures free { free_ballots self.new + (if is_ok result then 1 else 0) ≡ free_ballots self.old }
        ensures shape { Shaped self.old }
    {
        // Looked at first, so that the proof of a refusal knows the table's shape too.
        let _ = &self.rows;
        cards.acting(card)?;
        if self.of(instance, card).is_some() {
            return Err(Refusal::AlreadyProposed);
        }
        // A set with no lowest note holds none.
        if instance >= 32 || notes.lowest().is_none() {
            return Err(Refusal::NothingToPropose);
        }
        self.rows.put(instance, card, Some(notes));
        Ok(())
    }
}
