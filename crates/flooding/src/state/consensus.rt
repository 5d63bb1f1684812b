ghost use Rattle.flooding.specs.Flooding.{FloodingState, flooding_cards, flooding_crashed, flooding_suspects, flooding_wire, flooding_work, flooding_proposal, flooding_decision, new_flooding, propose_on, carry_on, lose_on, crash_on, suspect_on};
ghost use Rattle.flooding.specs.Made.{MadeFlooding};
ghost use Rattle.std.proofs.Common.{arith};
ghost use Rattle.flooding.specs.Keeps.{new_made, propose_made, carry_made, lose_made, crash_made, suspect_made};
ghost use Rattle.flooding.specs.Means.{new_means, propose_means, carry_means, lose_means, crash_means, suspect_means};
ghost use Rattle.flooding.specs.Lawful.{lawful};

use super::Flooding;
use crate::seats::{Place, Seats};
use cards::Cards;
use notes::set::NoteSet;
use parts::consensus::Consensus;
use parts::refusal::Refusal;
use std::alloc::{AllocError, Global};
use tables::ballots::Ballots;
use wire::Wire;

// A proposer sends in at most 6 rounds, to at most 5 others in each.
const ITEMS_OF_A_PROPOSAL: u32 = 30;

// In each of 32 instances, from each of 6 cards, the items of a proposal.
const ROOM: usize = 5760;

impl Consensus for Flooding {
    ghost State = { FloodingState };

    ghost state = { λ f. f };

    ghost cards = { flooding_cards };

    ghost crashed = { flooding_crashed };

    ghost suspects = { flooding_suspects };

    ghost wire = { flooding_wire };

    ghost work = { flooding_work };

    ghost proposal = { flooding_proposal };

    ghost decision = { flooding_decision };

    ghost made = { MadeFlooding };

    ghost bound = { 30 };

    ghost start = { new_flooding };

    ghost proposing = { propose_on };

    ghost carrying = { carry_on };

    ghost losing = { lose_on };

    ghost crashing = { crash_on };

    ghost suspecting = { suspect_on };

    ghost meaning = { record {
      bound_fits_32_bits = omega arith;
      new_made = new_made;
      new_means = new_means;
      propose_made = propose_made;
      propose_means = propose_means;
      carry_made = carry_made;
      carry_means = carry_means;
      lose_made = lose_made;
      lose_means = lose_means;
      crash_made = crash_made;
      crash_means = crash_means;
      suspect_made = suspect_made;
      suspect_means = suspect_means;
      lawful = lawful;
    } };

    #[tactic(auto, using(crate::proofs::Rooms::new_rounds))]
    fn new(heap: Global, count: usize) -> Result<Flooding, AllocError> {
        let wire = Wire::new(heap, ROOM)?;
        let kept = Vec::with_capacity(heap, ROOM)?;
        Ok(Flooding {
            cards: Cards::new(count),
            proposals: Ballots::new(),
            decisions: Ballots::new(),
            seats: Seats::new(),
            wire,
            kept,
        })
    }

    // Instance, card and notes come one by one, as the interface and the table of proposals say them; from here on the first two are a place.
    // A proposer knows itself and enters round 1.
    #[tactic(auto, using(crate::proofs::Rooms::rounds_first))]
    fn propose(&mut self, instance: usize, card: usize, notes: NoteSet) -> Result<(), Refusal> {
        self.proposals.propose(&self.cards, instance, card, notes)?;
        let place = Place { instance, card };
        self.enter(place, 1, NoteSet::empty().with(card));
        self.settle(place);
        Ok(())
    }

    fn carry(&mut self, item: usize) -> Result<(), Refusal> {
        let taken = self.wire.take(item).ok_or(Refusal::NoSuchItem)?;
        self.arrive(taken);
        Ok(())
    }

    fn lose(&mut self, item: usize) -> Result<(), Refusal> {
        self.wire.lose(&self.cards, item)
    }

    fn crash(&mut self, card: usize) -> Result<(), Refusal> {
        self.wire.crash(&mut self.cards, card)
    }

    // The suspicion is worked through by ascending instance.
    fn suspect(&mut self, by: usize, card: usize) -> Result<(), Refusal> {
        self.cards.suspect(by, card)?;
        self.settle_all(by);
        Ok(())
    }

    fn bound() -> u32 {
        ITEMS_OF_A_PROPOSAL
    }

    fn card_count(&self) -> usize {
        self.cards.count()
    }

    fn has_crashed(&self, card: usize) -> bool {
        self.cards.has_crashed(card)
    }

    fn suspects(&self, by: usize, card: usize) -> bool {
        self.cards.suspects(by, card)
    }

    fn wire_len(&self) -> usize {
        self.wire.len()
    }

    fn sender_of(&self, item: usize) -> Option<usize> {
        self.wire.sender_of(item)
    }

    fn proposal_of(&self, instance: usize, card: usize) -> Option<NoteSet> {
        self.proposals.of(instance, card)
    }

    fn decision_of(&self, instance: usize, card: usize) -> Option<NoteSet> {
        self.decisions.of(instance, card)
    }
}
