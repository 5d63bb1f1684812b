ghost use Rattle.std.specs.Prelude.{◌≡◌, ◌≤◌, true, false, [], length, is_ok, is_some, IfOk, if◌then◌else◌, Decides, nat_lt};
ghost use Rattle.std.specs.List.{slice_get};
ghost use Rattle.parts.specs.Refusals.{post_answer, lose_answer, crash_answer, suspect_answer};
ghost use Rattle.parts.specs.Cases.{case_of, turned_down_by, post_reasons, lose_reasons, crash_reasons, suspect_reasons};
ghost use Rattle.parts.specs.Views.{Quiet};
ghost use Rattle.cards.specs.Cards.{crashed_in, suspects_in, net_of};
ghost use Rattle.tables.specs.Tables.{poster_in, set_in, posts_view};
ghost use Rattle.wire.specs.Wires.{senders};
ghost use Rattle.spread.specs.Spread.{lacks, spread_work, new_spread, relay_on, meet_on, post_on, without_item, carry_on, crash_on, suspect_on};

use super::Spread;
use cards::Cards;
use notes::set::NoteSet;
use parts::refusal::Refusal;
use std::alloc::{AllocError, Global};
use tables::card_sets::CardSets;
use tables::posters::Posters;
use wire::{Item, Wire};

impl Spread {
    #[tactic(auto, using(crate::proofs::Pairs::unrelayed_new))]
    pub fn new(heap: Global, count: usize) -> Result<Spread, AllocError>
        ensures { IfOk result (λ x. x ≡ new_spread count) }
    {
        // Each of 32 notes is relayed by at most 6 cards, each time to at most 5 others.
        let wire = Wire::new(heap, 960)?;
        Ok(Spread {
            cards: Cards::new(count),
            posters: Posters::new(),
            relayed: CardSets::new(),
            wire,
        })
    }

    pub fn post(&mut self, card: usize, note: usize) -> Result<(), Refusal>
        ensures answer { result ≡ post_answer (posts_view self.old.cards self.old.posters) card note }
        ensures case { let v = posts_view self.old.cards self.old.posters in
            case_of result ≡ turned_down_by (post_reasons v card note) }
        ensures after { self.new ≡ (if is_ok result then post_on self.old card note else self.old) }
    {
        self.posters.post(&self.cards, card, note)?;
        self.meet(card, note);
        Ok(())
    }

    // Takes an item off, if there is such an item, and answers it: its card meets its note.
    pub fn carry(&mut self, item: usize) -> Option<Item<usize>>
        ensures value { result ≡ slice_get self.old.wire item }
        ensures there { is_some result ≡ nat_lt item (length (senders self.old.wire)) }
        ensures after { self.new ≡ carry_on self.old item }
        ensures untouched { is_some result ≡ false → self.new ≡ self.old }
    {
        let taken = self.wire.take(item)?;
        self.meet(taken.to, taken.load);
        Some(taken)
    }

    pub fn lose(&mut self, item: usize) -> Result<(), Refusal>
        ensures answer { result ≡ lose_answer (net_of self.old.cards (senders self.old.wire) 0) item }
        ensures case { let v = net_of self.old.cards (senders self.old.wire) 0 in
            case_of result ≡ turned_down_by (lose_reasons v item) }
        ensures after { self.new ≡ (if is_ok result then without_item self.old item else self.old) }
    {
        self.wire.lose(&self.cards, item)
    }

    pub fn crash(&mut self, card: usize) -> Result<(), Refusal>
        ensures answer { result ≡ crash_answer (net_of self.old.cards (senders self.old.wire) 0) card }
        ensures case { let v = net_of self.old.cards (senders self.old.wire) 0 in
            case_of result ≡ turned_down_by (crash_reasons v card) }
        ensures after { self.new ≡ (if is_ok result then crash_on self.old card else self.old) }
    {
        self.wire.crash(&mut self.cards, card)
    }

    pub fn suspect(&mut self, by: usize, card: usize) -> Result<(), Refusal>
        ensures answer { result ≡ suspect_answer (net_of self.old.cards (senders self.old.wire) 0) by card }
        ensures case { let v = net_of self.old.cards (senders self.old.wire) 0 in
            case_of result ≡ turned_down_by (suspect_reasons v by card) }
        ensures after { self.new ≡ (if is_ok result then suspect_on self.old by card else self.old) }
    {
        self.cards.suspect(by, card)
    }

    // Whether nothing is under way and every running card suspects every crashed one.
    pub fn is_quiet(&self) -> bool
        ensures { Decides result (Quiet (net_of self.now.cards (senders self.now.wire) (spread_work self.now))) }
    {
        self.wire_len() == 0 && self.cards.all_suspected()
    }

    pub fn card_count(&self) -> usize
        ensures { result ≡ self.now.cards.count }
    {
        self.cards.count()
    }

    pub fn has_crashed(&self, card: usize) -> bool
        ensures { result ≡ crashed_in self.now.cards card }
    {
        self.cards.has_crashed(card)
    }

    pub fn suspects(&self, by: usize, card: usize) -> bool
        ensures { result ≡ suspects_in self.now.cards by card }
    {
        self.cards.suspects(by, card)
    }

    pub fn wire_len(&self) -> usize
        ensures { result ≡ length (senders self.now.wire) }
    {
        self.wire.len()
    }

    pub fn sender_of(&self, item: usize) -> Option<usize>
        ensures { result ≡ slice_get (senders self.now.wire) item }
    {
        self.wire.sender_of(item)
    }

    pub fn poster_of(&self, note: usize) -> Option<usize>
        ensures { result ≡ poster_in self.now.posters note }
    {
        self.posters.of(note)
    }

    // The notes that a card has relayed.
    pub fn relayed_by(&self, card: usize) -> NoteSet
        ensures { result ≡ set_in self.now.relayed card }
    {
        self.relayed.of(card)
    }

    // A card that has not relayed the note relays it.
    fn meet(&mut self, card: usize, note: usize)
        ensures { self.new ≡ meet_on self.old card note }
    {
        if self.lacks(card, note) {
            self.relay(card, note);
        }
    }

    fn lacks(&self, card: usize, note: usize) -> bool
        ensures { result ≡ lacks self.now card note }
    {
        card < self.cards.count() && note < 32 && !self.relayed.of(card).contains(note)
    }

    #[tactic(auto, using(crate::proofs::Rooms::relay_room))]
    fn relay(&mut self, card: usize, note: usize)
        requires { lacks self.old card note ≡ true }
        ensures { self.new ≡ relay_on self.old card note }
    {
        self.relayed.add(card, note);
        self.wire.send(&self.cards, card, note);
    }
}
