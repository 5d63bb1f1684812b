ghost use Rattle.allack.specs.AllAck.{AllAckState, ack_cards, ack_crashed, ack_suspects, ack_wire, ack_work, ack_poster, ack_handed, new_all_ack, post_on, carry_on, lose_on, crash_on, suspect_on};
ghost use Rattle.allack.specs.Made.{MadeAllAck};
ghost use Rattle.std.proofs.Common.{arith};
ghost use Rattle.allack.specs.Keeps.{new_made};
ghost use Rattle.allack.specs.Means.{new_means, post_made, post_means, carry_made, carry_means, lose_made, lose_means, crash_made, crash_means, suspect_made, suspect_means, lawful};

use super::AllAck;
use crate::counts::Counts;
use notes::set::NoteSet;
use parts::broadcast::Broadcast;
use parts::refusal::Refusal;
use parts::uniform::Uniform;
use spread::state::Spread;
use std::alloc::{AllocError, Global};
use tables::card_sets::CardSets;

impl Broadcast for AllAck {
    ghost State = { AllAckState };

    ghost state = { λ a. a };

    ghost cards = { ack_cards };

    ghost crashed = { ack_crashed };

    ghost suspects = { ack_suspects };

    ghost wire = { ack_wire };

    ghost work = { ack_work };

    ghost poster = { ack_poster };

    ghost handed = { ack_handed };

    ghost made = { MadeAllAck };

    ghost bound = { 30 };

    ghost start = { new_all_ack };

    ghost posting = { post_on };

    ghost carrying = { carry_on };

    ghost losing = { lose_on };

    ghost crashing = { crash_on };

    ghost suspecting = { suspect_on };

    ghost meaning = { record {
      bound_fits_32_bits = omega arith;
      new_made = new_made;
      new_means = new_means;
      post_made = post_made;
      post_means = post_means;
      carry_made = carry_made;
      carry_means = carry_means;
      lose_made = lose_made;
      lose_means = lose_means;
      crash_made = crash_made;
      crash_means = crash_means;
      suspect_made = suspect_made;
      suspect_means = suspect_means;
      lawful = lawful;
    } };

    fn new(heap: Global, count: usize) -> Result<AllAck, AllocError> {
        let spread = Spread::new(heap, count)?;
        Ok(AllAck {
            spread,
            counted: Counts::new(),
            handed: CardSets::new(),
        })
    }

    fn post(&mut self, card: usize, note: usize) -> Result<(), Refusal> {
        self.spread.post(card, note)?;
        self.counted.count(card, card, note);
        self.hand_over(card);
        Ok(())
    }

    fn carry(&mut self, item: usize) -> Result<(), Refusal> {
        let taken = self.spread.carry(item).ok_or(Refusal::NoSuchItem)?;
        self.counted.count(taken.to, taken.to, taken.load);
        self.counted.count(taken.to, taken.from, taken.load);
        self.hand_over(taken.to);
        Ok(())
    }

    fn lose(&mut self, item: usize) -> Result<(), Refusal> {
        self.spread.lose(item)
    }

    fn crash(&mut self, card: usize) -> Result<(), Refusal> {
        self.spread.crash(card)
    }

    fn suspect(&mut self, by: usize, card: usize) -> Result<(), Refusal> {
        self.spread.suspect(by, card)?;
        self.hand_over(by);
        Ok(())
    }

    fn bound() -> u32 {
        30
    }

    fn card_count(&self) -> usize {
        self.spread.card_count()
    }

    fn has_crashed(&self, card: usize) -> bool {
        self.spread.has_crashed(card)
    }

    fn suspects(&self, by: usize, card: usize) -> bool {
        self.spread.suspects(by, card)
    }

    fn wire_len(&self) -> usize {
        self.spread.wire_len()
    }

    fn sender_of(&self, item: usize) -> Option<usize> {
        self.spread.sender_of(item)
    }

    fn poster_of(&self, note: usize) -> Option<usize> {
        self.spread.poster_of(note)
    }

    fn handed_to(&self, card: usize) -> NoteSet {
        self.handed.of(card)
    }
}

impl Uniform for AllAck {
    #[tactic(auto, using(crate::specs::Means::quiet_agrees))]
    fn is_quiet(&self) -> bool {
        self.spread.is_quiet()
    }
}
