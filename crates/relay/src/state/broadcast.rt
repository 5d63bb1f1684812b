ghost use Rattle.spread.specs.Spread.{SpreadState, spread_work, new_spread, post_on, carry_on, without_item, crash_on, suspect_on};
ghost use Rattle.spread.specs.Made.{MadeSpread};
ghost use Rattle.spread.specs.Seen.{spread_cards, spread_crashed, spread_suspects, spread_wire, spread_poster};
ghost use Rattle.relay.specs.Relay.{relay_handed};
ghost use Rattle.std.proofs.Common.{arith};
ghost use Rattle.spread.proofs.Keeps.{new_made};
ghost use Rattle.relay.specs.Means.{new_means, post_made, post_means, carry_made, carry_means, lose_made, lose_means, crash_made, crash_means, suspect_made, suspect_means, lawful};

use super::Relay;
use notes::set::NoteSet;
use parts::broadcast::Broadcast;
use parts::refusal::Refusal;
use spread::state::Spread;
use std::alloc::{AllocError, Global};

impl Broadcast for Relay {
    ghost State = { SpreadState };

    ghost state = { λ r. r };

    ghost cards = { spread_cards };

    ghost crashed = { spread_crashed };

    ghost suspects = { spread_suspects };

    ghost wire = { spread_wire };

    ghost work = { spread_work };

    ghost poster = { spread_poster };

    ghost handed = { relay_handed };

    ghost made = { MadeSpread };

    ghost bound = { 30 };

    ghost start = { new_spread };

    ghost posting = { post_on };

    ghost carrying = { carry_on };

    ghost losing = { without_item };

    ghost crashing = { crash_on };

    ghost suspecting = { suspect_on };

    ghost meaning = { record {
      bound_fits_32_bits = omega arith;
      new_made = new_made;
      new_means = new_means;
      post_made = post_made;
      post_means = post_means;
      carry_made = carry_made;
      carry_means = carry_means;
      lose_made = lose_made;
      lose_means = lose_means;
      crash_made = crash_made;
      crash_means = crash_means;
      suspect_made = suspect_made;
      suspect_means = suspect_means;
      lawful = lawful;
    } };

    fn new(heap: Global, count: usize) -> Result<Relay, AllocError> {
        let spread = Spread::new(heap, count)?;
        Ok(Relay { spread })
    }

    fn post(&mut self, card: usize, note: usize) -> Result<(), Refusal> {
        self.spread.post(card, note)
    }

    fn carry(&mut self, item: usize) -> Result<(), Refusal> {
        self.spread.carry(item).ok_or(Refusal::NoSuchItem)?;
        Ok(())
    }

    fn lose(&mut self, item: usize) -> Result<(), Refusal> {
        self.spread.lose(item)
    }

    fn crash(&mut self, card: usize) -> Result<(), Refusal> {
        self.spread.crash(card)
    }

    fn suspect(&mut self, by: usize, card: usize) -> Result<(), Refusal> {
        self.spread.suspect(by, card)
    }

    fn bound() -> u32 {
        30
    }

    fn card_count(&self) -> usize {
        self.spread.card_count()
    }

    fn has_crashed(&self, card: usize) -> bool {
        self.spread.has_crashed(card)
    }

    fn suspects(&self, by: usize, card: usize) -> bool {
        self.spread.suspects(by, card)
    }

    fn wire_len(&self) -> usize {
        self.spread.wire_len()
    }

    fn sender_of(&self, item: usize) -> Option<usize> {
        self.spread.sender_of(item)
    }

    fn poster_of(&self, note: usize) -> Option<usize> {
        self.spread.poster_of(note)
    }

    fn handed_to(&self, card: usize) -> NoteSet {
        self.spread.relayed_by(card)
    }
}
