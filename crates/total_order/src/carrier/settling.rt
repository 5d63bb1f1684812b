// Rest, and settle, which goes towards it.
ghost use Rattle.std.specs.Prelude.{◌≡◌, ℕ, ◌+◌, ◌^◌, ◌<◌, ◌≤◌, true, false, not, ◌⊎◌, IfSome};
ghost use Rattle.total_order.specs.Carrying.{one_more, can_take, can_propose, taker, proposer, at_rest, advanced, after_steps, settled, settle_steps};
ghost use Rattle.total_order.specs.Cases.{settling_case, settle_case};
ghost use Rattle.total_order.specs.Models.{model};

use super::Carrier;
use crate::call::{Settling, Wire};
use parts::broadcast::Broadcast;
use parts::consensus::Consensus;

impl<B: Broadcast, C: Consensus> Carrier<B, C> {
    // Repeats the first possible of: carry item 0 of the broadcast, carry item 0 of the consensus, take at the lowest card that can, propose at
    // the lowest card that can. It stops when at rest, or when it has made as many steps as the limit says.
    #[tactic(auto, using(crate::proofs::Settles::settled_further, crate::proofs::Settles::steps_further, crate::proofs::Settles::settled_at_rest, crate::proofs::Settles::steps_at_rest, crate::proofs::Settles::settled_in_full, crate::proofs::Settles::steps_in_full), unfolding(crate::specs::Carrying::settled))]
    pub fn settle(&mut self, limit: usize) -> Settling
        ensures steps { result.steps ≡ settle_steps B.Broadcast C.Consensus limit (model B.Broadcast C.Consensus self.old) }
        ensures rest { result.at_rest ≡ at_rest B.Broadcast C.Consensus (settled B.Broadcast C.Consensus limit (model B.Broadcast C.Consensus self.old)) }
        ensures case { settling_case result
            ≡ settle_case B.Broadcast C.Consensus (model B.Broadcast C.Consensus self.old) limit }
        ensures after { model B.Broadcast C.Consensus self.new ≡ settled B.Broadcast C.Consensus limit (model B.Broadcast C.Consensus self.old) }

        // So many steps are made, each from a carrier not at rest; and counted, where the count does not come to its end.
        ensures within { result.steps ≤ limit }
        ensures made { model B.Broadcast C.Consensus self.new ≡ after_steps B.Broadcast C.Consensus
            result.steps (model B.Broadcast C.Consensus self.old) }
        ensures counted { (model B.Broadcast C.Consensus self.old).steps + result.steps < 2 ^ 64
            → (model B.Broadcast C.Consensus self.new).steps
            ≡ (model B.Broadcast C.Consensus self.old).steps + result.steps }
        ensures rest_or_limit { (result.at_rest ≡ true) ⊎ (result.steps ≡ limit) }
        ensures never_before { (k : ℕ) → k < result.steps → at_rest B.Broadcast C.Consensus
            (after_steps B.Broadcast C.Consensus k (model B.Broadcast C.Consensus self.old)) ≡ false }
        ensures rest_left { result.at_rest
            ≡ at_rest B.Broadcast C.Consensus (model B.Broadcast C.Consensus self.new) }
    {
        // No `find`: each turn that is not the last changes the carrier.
        for steps in 0..limit {
            if !self.advance() {
                return Settling {
                    steps,
                    at_rest: true,
                };
            }
        }
        Settling {
            steps: limit,
            at_rest: self.is_at_rest(),
        }
    }

    // Whether both wires are empty, and at no card take or propose would be accepted.
    #[tactic(auto, unfolding(crate::specs::Carrying::at_rest))]
    pub fn is_at_rest(&self) -> bool
        ensures { result ≡ at_rest B.Broadcast C.Consensus (model B.Broadcast C.Consensus self.now) }
    {
        self.wire_len(Wire::Broadcast) == 0
            && self.wire_len(Wire::Consensus) == 0
            && self.taker().is_none()
            && self.proposer().is_none()
    }

    // The first possible step; false where none is. An `if` for each: they are calls of four kinds, and two need a card that is found first.
    #[tactic(auto, unfolding(crate::specs::Carrying::advanced, crate::specs::Carrying::at_rest))]
    fn advance(&mut self) -> bool
        ensures moved { result ≡ not (at_rest B.Broadcast C.Consensus (model B.Broadcast C.Consensus self.old)) }
        ensures after { model B.Broadcast C.Consensus self.new ≡ advanced B.Broadcast C.Consensus (model B.Broadcast C.Consensus self.old) }
        ensures counted { result ≡ true → (model B.Broadcast C.Consensus self.new).steps
            ≡ one_more (model B.Broadcast C.Consensus self.old).steps }
        ensures untouched { result ≡ false → self.new ≡ self.old }
    {
        if self.wire_len(Wire::Broadcast) > 0 {
            let _ = self.carry(Wire::Broadcast, 0);
        } else if self.wire_len(Wire::Consensus) > 0 {
            let _ = self.carry(Wire::Consensus, 0);
        } else if let Some(card) = self.taker() {
            let _ = self.take(card);
        } else if let Some(card) = self.proposer() {
            let _ = self.propose(card);
        } else {
            return false;
        }
        true
    }

    // The lowest card that can take.
    #[tactic(auto, unfolding(crate::specs::Carrying::taker))]
    fn taker(&self) -> Option<usize>
        ensures first { result ≡ taker B.Broadcast C.Consensus (model B.Broadcast C.Consensus self.now) }
        ensures can { IfSome result
            (λ p. can_take B.Broadcast C.Consensus (model B.Broadcast C.Consensus self.now) p ≡ true) }
    {
        (0..self.card_count()).find(|card| self.can_take(*card))
    }

    // The lowest card that can propose.
    #[tactic(auto, unfolding(crate::specs::Carrying::proposer))]
    fn proposer(&self) -> Option<usize>
        ensures first { result ≡ proposer B.Broadcast C.Consensus (model B.Broadcast C.Consensus self.now) }
        ensures can { IfSome result
            (λ p. can_propose B.Broadcast C.Consensus (model B.Broadcast C.Consensus self.now) p ≡ true) }
    {
        (0..self.card_count()).find(|card| self.can_propose(*card))
    }
}
