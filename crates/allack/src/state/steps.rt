ghost use Rattle.std.specs.Prelude.{◌≡◌};
ghost use Rattle.allack.specs.AllAck.{complete, hand_on};

use super::AllAck;
use notes::set::NoteSet;

impl AllAck {
    // Hands a card the notes that are complete for it.
    pub(super) fn hand_over(&mut self, card: usize)
        ensures { self.new ≡ hand_on self.old card }
    {
        let notes = self.complete(card);
        self.handed.add_all(card, notes);
    }

    // The notes of which the card has counted every card that it does not suspect. A `for`, whose invariant is a line; a fold takes an induction.
    #[tactic(auto, using(crate::specs::Completes::complete_next))]
    fn complete(&self, card: usize) -> NoteSet
        ensures { result ≡ complete self.now card self.now.spread.cards.count }
    {
        let mut notes = self.spread.relayed_by(card);
        for other in 0..self.spread.card_count() {
            if !self.spread.suspects(card, other) {
                notes = notes.without(notes.without(self.counted.of(card, other)));
            }
        }
        notes
    }
}
