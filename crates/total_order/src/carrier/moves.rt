// The calls on a carrier other than settle. A refused call changes nothing.
ghost use Rattle.std.specs.Prelude.{◌≡◌, ◌<◌, length, nat_lt, OnOk, OnErr, slice_set};
ghost use Rattle.parts.specs.Cases.{case_of, turned_down_by};
ghost use Rattle.logs.specs.Orders.{appended};
ghost use Rattle.total_order.specs.Carrying.{one_more, if_accepted, moved, log_at, instance_at, waiting, propose_reply, posting, carrying, losing, crashing, suspecting, proposing, taking};
ghost use Rattle.total_order.specs.Cases.{posting_reasons, carrying_reasons, losing_reasons, crashing_reasons, suspecting_reasons, proposing_reasons, taking_reasons};
ghost use Rattle.total_order.specs.Models.{model};

use super::cards::acting;
use super::{Carrier, Progress};
use crate::call::Wire;
use logs::ranking::Ranking;
use notes::set::NoteSet;
use parts::broadcast::Broadcast;
use parts::consensus::Consensus;
use parts::refusal::Refusal;

impl<B: Broadcast, C: Consensus> Carrier<B, C> {
    // A card posts a note of the book.
    pub fn post(&mut self, card: usize, note: usize) -> Result<(), Refusal>
        ensures answer { result ≡ (posting B.Broadcast C.Consensus (model B.Broadcast C.Consensus self.old) card note).answer }
        ensures case { case_of result ≡ turned_down_by (posting_reasons B.Broadcast C.Consensus
            (model B.Broadcast C.Consensus self.old) card note) }
        ensures after { model B.Broadcast C.Consensus self.new ≡ (posting B.Broadcast C.Consensus (model B.Broadcast C.Consensus self.old) card note).next }
        ensures refused { OnErr result
            (model B.Broadcast C.Consensus self.new ≡ model B.Broadcast C.Consensus self.old) }
    {
        if self.has_note(note) {
            return self.broadcast.post(card, note);
        }
        acting(
            card < self.broadcast.card_count(),
            self.broadcast.has_crashed(card),
        )?;
        Err(Refusal::NoSuchNote)
    }

    // An item of a wire arrives.
    pub fn carry(&mut self, wire: Wire, item: usize) -> Result<(), Refusal>
        ensures answer { result ≡ (carrying B.Broadcast C.Consensus (model B.Broadcast C.Consensus self.old) wire item).answer }
        ensures case { case_of result ≡ turned_down_by (carrying_reasons B.Broadcast C.Consensus
            (model B.Broadcast C.Consensus self.old) wire item) }
        ensures after { model B.Broadcast C.Consensus self.new ≡ (carrying B.Broadcast C.Consensus (model B.Broadcast C.Consensus self.old) wire item).next }
        ensures refused { OnErr result
            (model B.Broadcast C.Consensus self.new ≡ model B.Broadcast C.Consensus self.old) }
        ensures counted { OnOk result ((model B.Broadcast C.Consensus self.new).steps
            ≡ one_more (model B.Broadcast C.Consensus self.old).steps) }
    {
        match wire {
            Wire::Broadcast => self.broadcast.carry(item)?,
            Wire::Consensus => self.consensus.carry(item)?,
        }
        self.count_step();
        Ok(())
    }

    // An item of a wire, from a crashed sender, is lost. Written out beside `carry`: to share it, both calls of both parts would go in as closures.
    pub fn lose(&mut self, wire: Wire, item: usize) -> Result<(), Refusal>
        ensures answer { result ≡ (losing B.Broadcast C.Consensus (model B.Broadcast C.Consensus self.old) wire item).answer }
        ensures case { case_of result ≡ turned_down_by (losing_reasons B.Broadcast C.Consensus
            (model B.Broadcast C.Consensus self.old) wire item) }
        ensures after { model B.Broadcast C.Consensus self.new ≡ (losing B.Broadcast C.Consensus (model B.Broadcast C.Consensus self.old) wire item).next }
        ensures refused { OnErr result
            (model B.Broadcast C.Consensus self.new ≡ model B.Broadcast C.Consensus self.old) }
        ensures counted { OnOk result ((model B.Broadcast C.Consensus self.new).steps
            ≡ one_more (model B.Broadcast C.Consensus self.old).steps) }
    {
        match wire {
            Wire::Broadcast => self.broadcast.lose(item)?,
            Wire::Consensus => self.consensus.lose(item)?,
        }
        self.count_step();
        Ok(())
    }

    // A card crashes; the broadcast and the consensus are told.
    pub fn crash(&mut self, card: usize) -> Result<(), Refusal>
        ensures answer { result ≡ (crashing B.Broadcast C.Consensus (model B.Broadcast C.Consensus self.old) card).answer }
        ensures case { case_of result ≡ turned_down_by (crashing_reasons B.Broadcast C.Consensus
            (model B.Broadcast C.Consensus self.old) card) }
        ensures after { model B.Broadcast C.Consensus self.new ≡ (crashing B.Broadcast C.Consensus (model B.Broadcast C.Consensus self.old) card).next }
        ensures refused { OnErr result
            (model B.Broadcast C.Consensus self.new ≡ model B.Broadcast C.Consensus self.old) }
    {
        self.broadcast.crash(card)?;
        let _ = self.consensus.crash(card);
        Ok(())
    }

    // A card comes to suspect another; the broadcast and the consensus are told.
    pub fn suspect(&mut self, by: usize, card: usize) -> Result<(), Refusal>
        ensures answer { result ≡ (suspecting B.Broadcast C.Consensus (model B.Broadcast C.Consensus self.old) by card).answer }
        ensures case { case_of result ≡ turned_down_by (suspecting_reasons B.Broadcast C.Consensus
            (model B.Broadcast C.Consensus self.old) by card) }
        ensures after { model B.Broadcast C.Consensus self.new ≡ (suspecting B.Broadcast C.Consensus (model B.Broadcast C.Consensus self.old) by card).next }
        ensures refused { OnErr result
            (model B.Broadcast C.Consensus self.new ≡ model B.Broadcast C.Consensus self.old) }
    {
        self.broadcast.suspect(by, card)?;
        let _ = self.consensus.suspect(by, card);
        Ok(())
    }

    // A card puts its waiting notes forward.
    pub fn propose(&mut self, card: usize) -> Result<(), Refusal>
        ensures answer { result ≡ (proposing B.Broadcast C.Consensus (model B.Broadcast C.Consensus self.old) card).answer }
        ensures case { case_of result ≡ turned_down_by (proposing_reasons B.Broadcast C.Consensus
            (model B.Broadcast C.Consensus self.old) card) }
        ensures after { model B.Broadcast C.Consensus self.new ≡ (proposing B.Broadcast C.Consensus (model B.Broadcast C.Consensus self.old) card).next }
        ensures refused { OnErr result
            (model B.Broadcast C.Consensus self.new ≡ model B.Broadcast C.Consensus self.old) }
        ensures counted { OnOk result ((model B.Broadcast C.Consensus self.new).steps
            ≡ one_more (model B.Broadcast C.Consensus self.old).steps) }
    {
        self.propose_waiting(card)?;
        self.count_step();
        Ok(())
    }

    // A card appends what is decided in its instance to its log, and moves to the next instance.
    pub fn take(&mut self, card: usize) -> Result<(), Refusal>
        ensures answer { result ≡ (taking B.Broadcast C.Consensus (model B.Broadcast C.Consensus self.old) card).answer }
        ensures case { case_of result ≡ turned_down_by (taking_reasons B.Broadcast C.Consensus
            (model B.Broadcast C.Consensus self.old) card) }
        ensures after { model B.Broadcast C.Consensus self.new ≡ (taking B.Broadcast C.Consensus (model B.Broadcast C.Consensus self.old) card).next }
        ensures refused { OnErr result
            (model B.Broadcast C.Consensus self.new ≡ model B.Broadcast C.Consensus self.old) }
        ensures counted { OnOk result ((model B.Broadcast C.Consensus self.new).steps
            ≡ one_more (model B.Broadcast C.Consensus self.old).steps) }
    {
        let decided = self.decision(card)?;
        self.go_on(card, decided);
        self.count_step();
        Ok(())
    }

    fn count_step(&mut self)
        ensures { model B.Broadcast C.Consensus self.new ≡ moved B.Broadcast C.Consensus (model B.Broadcast C.Consensus self.old) (model B.Broadcast C.Consensus self.old).broadcast (model B.Broadcast C.Consensus self.old).consensus (one_more (model B.Broadcast C.Consensus self.old).steps) }
    {
        self.steps = one_more(self.steps);
    }

    // Whether a note is in the book.
    fn has_note(&self, note: usize) -> bool
        ensures { result ≡ nat_lt note (length (model B.Broadcast C.Consensus self.now).order) }
    {
        note < self.ranking.len()
    }

    // Proposes for a card, without counting a step.
    fn propose_waiting(&mut self, card: usize) -> Result<(), Refusal>
        ensures answer { result ≡ propose_reply B.Broadcast C.Consensus (model B.Broadcast C.Consensus self.old) card }
        ensures after { model B.Broadcast C.Consensus self.new ≡ moved B.Broadcast C.Consensus (model B.Broadcast C.Consensus self.old) (model B.Broadcast C.Consensus self.old).broadcast
            (if_accepted B.Broadcast C.Consensus result (C.Consensus.proposing (model B.Broadcast C.Consensus self.old).consensus (instance_at B.Broadcast C.Consensus (model B.Broadcast C.Consensus self.old) card) card (waiting B.Broadcast C.Consensus (model B.Broadcast C.Consensus self.old) card)) (model B.Broadcast C.Consensus self.old).consensus)
            (model B.Broadcast C.Consensus self.old).steps }
    {
        if card >= self.card_count() {
            return Err(Refusal::NoSuchCard);
        }
        let instance = self.instance(card);
        let waiting = self.waiting(card);
        self.consensus.propose(instance, card, waiting)
    }

    // Puts a batch behind the log of a card, which comes to its next instance.
    fn go_on(&mut self, card: usize, decided: NoteSet)
        requires { card < 6 }
        ensures broadcast { (model B.Broadcast C.Consensus self.new).broadcast ≡ (model B.Broadcast C.Consensus self.old).broadcast }
        ensures consensus { (model B.Broadcast C.Consensus self.new).consensus ≡ (model B.Broadcast C.Consensus self.old).consensus }
        ensures order { (model B.Broadcast C.Consensus self.new).order ≡ (model B.Broadcast C.Consensus self.old).order }
        ensures log { (model B.Broadcast C.Consensus self.new).logs ≡ slice_set (model B.Broadcast C.Consensus self.old).logs card (appended (model B.Broadcast C.Consensus self.old).order (log_at B.Broadcast C.Consensus (model B.Broadcast C.Consensus self.old) card) decided) }
        ensures instances { (model B.Broadcast C.Consensus self.new).instances ≡ slice_set (model B.Broadcast C.Consensus self.old).instances card (one_more (instance_at B.Broadcast C.Consensus (model B.Broadcast C.Consensus self.old) card)) }
        ensures steps { (model B.Broadcast C.Consensus self.new).steps ≡ (model B.Broadcast C.Consensus self.old).steps }
    {
        self.cards[card].go_on(&self.ranking, decided);
    }
}

impl Progress {
    fn go_on(&mut self, ranking: &Ranking, decided: NoteSet)
        ensures log { self.new.log ≡ appended ranking.now self.old.log decided }
        ensures instance { self.new.instance ≡ one_more self.old.instance }
    {
        self.log.append(ranking, decided);
        self.instance = one_more(self.instance);
    }
}

fn one_more(n: usize) -> usize
    ensures { result ≡ one_more n }
{
    n.saturating_add(1)
}
