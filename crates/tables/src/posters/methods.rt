ghost use Rattle.std.specs.Prelude.{◌≡◌, ◌+◌, length, replicate, is_ok, if◌then◌else◌, Some, None, slice_set};
ghost use Rattle.parts.specs.Refusals.{post_answer};
ghost use Rattle.parts.specs.Cases.{case_of, turned_down_by, post_reasons};
ghost use Rattle.tables.specs.Tables.{poster_in, posts_view, free_notes};

use super::Posters;
use cards::Cards;
use parts::refusal::Refusal;

impl Posters {
    pub fn new() -> Posters
        ensures { result ≡ replicate 32 None }
    {
        Posters { by: [None; 32] }
    }

    // Who has posted note m; a number above 31 is no note.
    pub fn of(&self, m: usize) -> Option<usize>
        ensures poster { result ≡ poster_in self.now m }
        ensures places { length self.now ≡ 32 }
    {
        self.by.get(m).copied().flatten()
    }

    // Writes down that the card has posted the note, unless the post is refused.
    #[tactic(auto, using(crate::proofs::Free::one_less_free))]
    pub fn post(&mut self, cards: &Cards, card: usize, note: usize) -> Result<(), Refusal>
        ensures answer { result ≡ post_answer (posts_view cards.now self.old) card note }
        ensures case { let v = posts_view cards.now self.old in
            case_of result ≡ turned_down_by (post_reasons v card note) }
        ensures after { self.new ≡ (if is_ok result then slice_set self.old note (Some card) else self.old) }
        ensures free { free_notes self.new + (if is_ok result then 1 else 0) ≡ free_notes self.old }
        ensures places { length self.old ≡ 32 }
    {
        // Looked at first, so that the proof of a refusal knows the table's length too.
        let _ = &self.by;
        cards.acting(card)?;
        let poster = self.by.get(note).ok_or(Refusal::NoSuchNote)?;
        if poster.is_some() {
            return Err(Refusal::AlreadyPosted);
        }
        self.by[note] = Some(card);
        Ok(())
    }
}
