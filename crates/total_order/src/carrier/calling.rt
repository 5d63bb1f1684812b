// A call as a value, made on a carrier.
ghost use Rattle.std.specs.Prelude.{◌≡◌, OnErr};
ghost use Rattle.total_order.specs.Calls.{calling};
ghost use Rattle.total_order.specs.Cases.{answer_case, call_case};
ghost use Rattle.total_order.specs.Models.{model};

use super::Carrier;
use crate::call::{Answer, Call};
use parts::broadcast::Broadcast;
use parts::consensus::Consensus;

impl<B: Broadcast, C: Consensus> Carrier<B, C> {
    #[tactic(auto, unfolding(crate::specs::Calls::calling))]
    pub fn call(&mut self, call: Call) -> Answer
        ensures answer { result ≡ (calling B.Broadcast C.Consensus (model B.Broadcast C.Consensus self.old) call).tells }
        ensures case { answer_case result
            ≡ call_case B.Broadcast C.Consensus (model B.Broadcast C.Consensus self.old) call }
        ensures after { model B.Broadcast C.Consensus self.new ≡ (calling B.Broadcast C.Consensus (model B.Broadcast C.Consensus self.old) call).leaves }
        ensures refused { OnErr result
            (model B.Broadcast C.Consensus self.new ≡ model B.Broadcast C.Consensus self.old) }
    {
        // The kinds differ in their arguments, so each has its own call.
        match call {
            Call::Post(card, note) => self.post(card, note)?,
            Call::Carry(wire, item) => self.carry(wire, item)?,
            Call::Lose(wire, item) => self.lose(wire, item)?,
            Call::Crash(card) => self.crash(card)?,
            Call::Suspect(by, card) => self.suspect(by, card)?,
            Call::Propose(card) => self.propose(card)?,
            Call::Take(card) => self.take(card)?,
            Call::Settle(limit) => return Ok(Some(self.settle(limit))),
        }
        Ok(None)
    }
}
