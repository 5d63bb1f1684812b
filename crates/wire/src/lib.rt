#![tactic(auto)]

ghost use Rattle.std.specs.Prelude.{◌≡◌, ◌+◌, ◌≤◌, false, [], ◌++◌, length, is_ok, is_some, IfOk, if◌then◌else◌, nat_lt, slice_index_or};
ghost use Rattle.std.specs.List.{slice_get, remove};
ghost use Rattle.std.specs.Option.{unwrap_or};
ghost use Rattle.parts.specs.Refusals.{lose_answer, crash_answer};
ghost use Rattle.parts.specs.Cases.{case_of, turned_down_by, lose_reasons, crash_reasons};
ghost use Rattle.cards.specs.Cards.{net_of, with_crash};
ghost use Rattle.wire.specs.Wires.{holding, senders, joined, sending, sent, without_to};

use cards::Cards;
use parts::refusal::Refusal;
use std::alloc::{AllocError, Global};
use std::collections::VecDeque;
use std::marker::Model;

// An item under way: its sender, a card or 7 for the carrier; its destination, likewise; and what it brings. The interfaces say 7, so this does.
#[derive(Clone, Copy, Drop)]
pub struct Item<P> {
    pub from: usize,
    pub to: usize,
    pub load: P,
}

// The items under way. New ones join the end; when one leaves, later ones move down.
#[derive(Drop)]
pub struct Wire<P> {
    items: VecDeque<Item<P>>,
}

impl<P> Model for Wire<P> {
    ghost use Rattle.std.specs.VecDeque.{deque_items, deque_capacity};
    ghost use Rattle.wire.specs.Wires.{WireState};

    ghost Value = { WireState P };

    ghost view = { λ w. record { items = deque_items w.items; room = deque_capacity w.items } };
}

impl<P: Copy> Wire<P> {
    // Room for so many items is reserved here, so that no later call asks for memory.
    pub fn new(heap: Global, room: usize) -> Result<Wire<P>, AllocError>
        ensures { IfOk result (λ w. (w.items ≡ []) × (room ≤ w.room)) }
    {
        let items = VecDeque::with_capacity(heap, room)?;
        Ok(Wire { items })
    }

    #[tactic(auto, using(crate::proofs::Wires::length_senders))]
    pub fn len(&self) -> usize
        ensures items { result ≡ length self.now.items }
        ensures senders { result ≡ length (senders self.now.items) }
    {
        self.items.len()
    }

    // The sender of an item, if there is such an item.
    pub fn sender_of(&self, item: usize) -> Option<usize>
        ensures value { result ≡ slice_get (senders self.now.items) item }
        ensures there { is_some result ≡ nat_lt item (length (senders self.now.items)) }
        ensures sender { unwrap_or result 7 ≡ slice_index_or (senders self.now.items) item 7 }
    {
        self.items.get(item).map(|found| found.from)
    }

    // An item that finds no room does not join.
    pub fn join(&mut self, item: Item<P>)
        ensures { self.new ≡ holding self.old (joined self.old.room self.old.items item) }
    {
        if self.items.len() < self.items.capacity() {
            self.items.push_back_reserved(item);
        }
    }

    // Sends to every running card but the sender, destinations ascending.
    #[tactic(auto, using(crate::proofs::Wires::all_sent, crate::proofs::Wires::length_sent, crate::proofs::Wires::length_sending))]
    pub fn send(&mut self, cards: &Cards, from: usize, load: P)
        ensures after { self.new ≡ holding self.old (sending self.old.room cards.now from load cards.now.count self.old.items) }
        ensures tight { length self.old.items + length (sent cards.now from load cards.now.count) ≤ self.old.room → self.new ≡ holding self.old (self.old.items ++ sent cards.now from load cards.now.count) }
        ensures fits { length self.old.items + cards.now.count ≤ self.old.room → self.new ≡ holding self.old (self.old.items ++ sent cards.now from load cards.now.count) }
        ensures most { length self.new.items ≤ length self.old.items + cards.now.count }
    {
        for to in 0..cards.count() {
            if !cards.has_crashed(to) && to != from {
                self.join(Item { from, to, load });
            }
        }
    }

    // Takes an item off, if there is such an item. Item 0 is what a carrier that settles asks for: it leaves without moving any other.
    #[tactic(auto, using(crate::proofs::Wires::removed_shorter))]
    pub fn take(&mut self, item: usize) -> Option<Item<P>>
        ensures value { result ≡ slice_get self.old.items item }
        ensures there { is_some result ≡ nat_lt item (length (senders self.old.items)) }
        ensures after { self.new ≡ holding self.old (remove self.old.items item) }
        ensures untouched { is_some result ≡ false → self.new ≡ self.old }
        ensures fewer { length self.new.items ≤ length self.old.items }
    {
        if item == 0 {
            self.items.pop_front()
        } else {
            self.items.remove(item)
        }
    }

    // Takes off an item whose sender has crashed; any other is refused.
    #[tactic(auto, using(crate::proofs::Wires::removed_shorter))]
    pub fn lose(&mut self, cards: &Cards, item: usize) -> Result<(), Refusal>
        ensures answer { result ≡ lose_answer (net_of cards.now (senders self.old.items) 0) item }
        ensures case { let v = net_of cards.now (senders self.old.items) 0 in
            case_of result ≡ turned_down_by (lose_reasons v item) }
        ensures after { self.new ≡ (if is_ok result then holding self.old (remove self.old.items item) else self.old) }
        ensures fewer { length self.new.items ≤ length self.old.items }
    {
        let sender = self.sender_of(item).ok_or(Refusal::NoSuchItem)?;
        if !cards.has_crashed(sender) {
            return Err(Refusal::SenderNotCrashed);
        }
        let _ = self.take(item);
        Ok(())
    }

    // A card crashes: what is addressed to it leaves, and the rest keeps its order.
    pub fn crash(&mut self, cards: &mut Cards, card: usize) -> Result<(), Refusal>
        ensures answer { result ≡ crash_answer (net_of cards.old [] 0) card }
        ensures case { case_of result ≡ turned_down_by (crash_reasons (net_of cards.old [] 0) card) }
        ensures cards { cards.new ≡ (if is_ok result then with_crash cards.old card else cards.old) }
        ensures after { self.new ≡ (if is_ok result then holding self.old (without_to card self.old.items) else self.old) }
        ensures fewer { length self.new.items ≤ length self.old.items }
    {
        cards.crash(card)?;
        self.let_go(card);
        Ok(())
    }

    // Lets go what is addressed to a card; the rest keeps its order.
    pub fn let_go(&mut self, card: usize)
        ensures after { self.new ≡ holding self.old (without_to card self.old.items) }
        ensures fewer { length self.new.items ≤ length self.old.items }
    {
        self.items.retain(|item| item.to != card);
    }
}
