// What the carrier shows of its cards, and which of them can propose or take.
ghost use Rattle.std.specs.Prelude.{◌≡◌, ◌<◌, ◌≤◌, true, length, Ok, Err, IfOk, if◌then◌else◌, Decides};
ghost use Rattle.std.specs.Result.{result_and};
ghost use Rattle.parts.specs.declared.refusal.Refusal.TheVariants.{NoSuchCard, CardCrashed};
ghost use Rattle.parts.specs.Views.{Quiet};
ghost use Rattle.parts.specs.Shown.{shown};
ghost use Rattle.parts.specs.Broadcasting.{UniformAgreement};
ghost use Rattle.logs.specs.Orders.{number_in, with_all};
ghost use Rattle.total_order.specs.Carrying.{card_count, wire_on, log_at, instance_at, decision_at, waiting, propose_reply, take_reply, can_take, can_propose};
ghost use Rattle.total_order.specs.Models.{model};

use super::Carrier;
use crate::call::Wire;
use notes::set::NoteSet;
use parts::broadcast::Broadcast;
use parts::consensus::Consensus;
use parts::refusal::Refusal;
use parts::uniform::Uniform;

impl<B: Broadcast, C: Consensus> Carrier<B, C> {
    // How many cards there are.
    pub fn card_count(&self) -> usize
        ensures count { result ≡ card_count B.Broadcast C.Consensus (model B.Broadcast C.Consensus self.now) }
        ensures few { result ≤ 6 }
    {
        self.broadcast.card_count().min(6)
    }

    // Whether a card has crashed.
    pub fn has_crashed(&self, card: usize) -> bool
        ensures { result ≡ B.Broadcast.crashed (model B.Broadcast C.Consensus self.now).broadcast card }
    {
        self.broadcast.has_crashed(card)
    }

    // The log of a card; there is none where there is no such card.
    pub fn log(&self, card: usize) -> &[usize]
        ensures log { result.now ≡ log_at B.Broadcast C.Consensus (model B.Broadcast C.Consensus self.now) card }
        ensures places { length (model B.Broadcast C.Consensus self.now).logs ≡ 6 }
    {
        self.cards
            .get(card)
            .map_or(&[], |progress| progress.log.as_slice())
    }

    // The instance that a card has come to.
    pub fn instance(&self, card: usize) -> usize
        ensures instance { result ≡ instance_at B.Broadcast C.Consensus (model B.Broadcast C.Consensus self.now) card }
        ensures places { length (model B.Broadcast C.Consensus self.now).instances ≡ 6 }
    {
        self.cards.get(card).map_or(0, |progress| progress.instance)
    }

    // The steps since it was new.
    pub fn steps(&self) -> usize
        ensures { result ≡ (model B.Broadcast C.Consensus self.now).steps }
    {
        self.steps
    }

    // How many items are on a wire. The two parts are of two types, so each wire has its own call, here and in `carry` and `lose`.
    pub fn wire_len(&self, wire: Wire) -> usize
        ensures { result ≡ length (wire_on B.Broadcast C.Consensus (model B.Broadcast C.Consensus self.now) wire) }
    {
        match wire {
            Wire::Broadcast => self.broadcast.wire_len(),
            Wire::Consensus => self.consensus.wire_len(),
        }
    }

    // Whether take would be accepted.
    pub fn can_take(&self, card: usize) -> bool
        ensures { result ≡ can_take B.Broadcast C.Consensus (model B.Broadcast C.Consensus self.now) card }
    {
        self.decision(card).is_ok()
    }

    // Whether propose would be accepted.
    pub fn can_propose(&self, card: usize) -> bool
        ensures { result ≡ can_propose B.Broadcast C.Consensus (model B.Broadcast C.Consensus self.now) card }
    {
        self.may_propose(card).is_ok()
    }

    // The notes handed to a card that are not in its log.
    #[tactic(auto, unfolding(crate::specs::Carrying::waiting))]
    pub(crate) fn waiting(&self, card: usize) -> NoteSet
        ensures { result ≡ waiting B.Broadcast C.Consensus (model B.Broadcast C.Consensus self.now) card }
    {
        self.broadcast.handed_to(card).without(self.notes_of(card))
    }

    // The notes of a card's log.
    fn notes_of(&self, card: usize) -> NoteSet
        ensures { result ≡ with_all 0 (log_at B.Broadcast C.Consensus (model B.Broadcast C.Consensus self.now) card) }
    {
        self.cards
            .get(card)
            .map_or(NoteSet::empty(), |progress| progress.log.notes())
    }

    // Why propose would be refused, if it would.
    pub(crate) fn may_propose(&self, card: usize) -> Result<(), Refusal>
        ensures { result ≡ propose_reply B.Broadcast C.Consensus (model B.Broadcast C.Consensus self.now) card }
    {
        acting(
            card < self.card_count() && card < self.consensus.card_count(),
            self.consensus.has_crashed(card),
        )?;
        let instance = self.instance(card);
        if self.consensus.proposal_of(instance, card).is_some() {
            return Err(Refusal::AlreadyProposed);
        }
        if instance >= 32 || self.waiting(card).lowest().is_none() {
            return Err(Refusal::NothingToPropose);
        }
        Ok(())
    }

    // The decision that take would take.
    pub(crate) fn decision(&self, card: usize) -> Result<NoteSet, Refusal>
        ensures answer { result_and result (Ok tt) ≡ take_reply B.Broadcast C.Consensus (model B.Broadcast C.Consensus self.now) card }
        ensures decided { IfOk result (λ s. (card < 6) × (s ≡ number_in (decision_at B.Broadcast C.Consensus (model B.Broadcast C.Consensus self.now) card))) }
    {
        acting(card < self.card_count(), self.broadcast.has_crashed(card))?;
        self.consensus
            .decision_of(self.instance(card), card)
            .ok_or(Refusal::NothingDecided)
    }
}

// A card acts only if it is there and runs.
pub(super) fn acting(there: bool, crashed: bool) -> Result<(), Refusal>
    ensures { result ≡ (if there then if crashed then Err CardCrashed else Ok tt else Err NoSuchCard) }
{
    match (there, crashed) {
        (false, _) => Err(Refusal::NoSuchCard),
        (true, true) => Err(Refusal::CardCrashed),
        (true, false) => Ok(()),
    }
}

impl<B: Uniform, C: Consensus> Carrier<B, C> {
    // Whether the broadcast is quiet: nothing is under way in it, and every running card suspects every crashed one.
    pub fn is_quiet(&self) -> bool
        ensures answer { Decides result (Quiet (shown B.Broadcast (model B.Broadcast C.Consensus self.now).broadcast).net) }
        ensures agreed { result ≡ true → B.Broadcast.made (model B.Broadcast C.Consensus self.now).broadcast → UniformAgreement (shown B.Broadcast (model B.Broadcast C.Consensus self.now).broadcast) }
    {
        self.broadcast.is_quiet()
    }
}
