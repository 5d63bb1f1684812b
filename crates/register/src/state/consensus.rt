ghost use Rattle.register.specs.Register.{RegisterState, register_cards, register_crashed, register_suspects, register_wire, register_work, register_proposal, register_decision, new_register, propose_on, carry_on, lose_on, crash_on, suspect_on};
ghost use Rattle.register.specs.Made.{MadeRegister};
ghost use Rattle.std.proofs.Common.{arith};
ghost use Rattle.register.specs.Keeps.{new_made, propose_made, carry_made, lose_made, crash_made, suspect_made};
ghost use Rattle.register.specs.Means.{new_means, propose_means, carry_means, lose_means, crash_means, suspect_means, lawful};

use super::Register;
use crate::held::Held;
use cards::Cards;
use notes::set::NoteSet;
use parts::consensus::Consensus;
use parts::refusal::Refusal;
use std::alloc::{AllocError, Global};
use tables::ballots::Ballots;
use wire::{Item, Wire};

// A proposal puts one item on the wire.
const ITEMS_OF_A_PROPOSAL: u32 = 1;

impl Consensus for Register {
    ghost State = { RegisterState };

    ghost state = { λ r. r };

    ghost cards = { register_cards };

    ghost crashed = { register_crashed };

    ghost suspects = { register_suspects };

    ghost wire = { register_wire };

    ghost work = { register_work };

    ghost proposal = { register_proposal };

    ghost decision = { register_decision };

    ghost made = { MadeRegister };

    ghost bound = { 1 };

    ghost start = { new_register };

    ghost proposing = { propose_on };

    ghost carrying = { carry_on };

    ghost losing = { lose_on };

    ghost crashing = { crash_on };

    ghost suspecting = { suspect_on };

    ghost meaning = { record {
      bound_fits_32_bits = omega arith;
      new_made = new_made;
      new_means = new_means;
      propose_made = propose_made;
      propose_means = propose_means;
      carry_made = carry_made;
      carry_means = carry_means;
      lose_made = lose_made;
      lose_means = lose_means;
      crash_made = crash_made;
      crash_means = crash_means;
      suspect_made = suspect_made;
      suspect_means = suspect_means;
      lawful = lawful;
    } };

    // 32 instances, each with an item of at most 6 cards.
    fn new(heap: Global, count: usize) -> Result<Register, AllocError> {
        let wire = Wire::new(heap, 192)?;
        Ok(Register {
            cards: Cards::new(count),
            proposals: Ballots::new(),
            decisions: Ballots::new(),
            held: Held::new(),
            wire,
        })
    }

    fn propose(&mut self, instance: usize, card: usize, notes: NoteSet) -> Result<(), Refusal> {
        self.proposals.propose(&self.cards, instance, card, notes)?;
        self.wire.join(Item {
            from: card,
            to: 7,
            load: instance,
        });
        Ok(())
    }

    fn carry(&mut self, item: usize) -> Result<(), Refusal> {
        let taken = self.wire.take(item).ok_or(Refusal::NoSuchItem)?;
        let proposal = self.proposals.of(taken.load, taken.from);
        self.held.fill(taken.load, proposal);
        let held = self.held.of(taken.load);
        if !self.cards.has_crashed(taken.from) {
            self.decisions.put(taken.load, taken.from, held);
        }
        Ok(())
    }

    fn lose(&mut self, item: usize) -> Result<(), Refusal> {
        self.wire.lose(&self.cards, item)
    }

    // Every item is addressed to the carrier, so none leaves.
    fn crash(&mut self, card: usize) -> Result<(), Refusal> {
        self.cards.crash(card)
    }

    fn suspect(&mut self, by: usize, card: usize) -> Result<(), Refusal> {
        self.cards.suspect(by, card)
    }

    fn bound() -> u32 {
        ITEMS_OF_A_PROPOSAL
    }

    fn card_count(&self) -> usize {
        self.cards.count()
    }

    fn has_crashed(&self, card: usize) -> bool {
        self.cards.has_crashed(card)
    }

    fn suspects(&self, by: usize, card: usize) -> bool {
        self.cards.suspects(by, card)
    }

    fn wire_len(&self) -> usize {
        self.wire.len()
    }

    fn sender_of(&self, item: usize) -> Option<usize> {
        self.wire.sender_of(item)
    }

    fn proposal_of(&self, instance: usize, card: usize) -> Option<NoteSet> {
        self.proposals.of(instance, card)
    }

    fn decision_of(&self, instance: usize, card: usize) -> Option<NoteSet> {
        self.decisions.of(instance, card)
    }
}
