ghost use Rattle.std.specs.Prelude.{◌≡◌, ℕ, Bool, List, length, is_ok, IfOk, if◌then◌else◌, Option};
ghost use Rattle.std.specs.Option.{option_map};
ghost use Rattle.std.specs.List.{slice_get};
ghost use Rattle.parts.specs.Refusals.{propose_answer, carry_answer, lose_answer, crash_answer, suspect_answer};
ghost use Rattle.parts.specs.Cases.{case_of, turned_down_by, propose_reasons, carry_reasons, lose_reasons, crash_reasons, suspect_reasons};
ghost use Rattle.parts.specs.Deciding.{consensus_view, Meaning};

use crate::refusal::Refusal;
use notes::set::NoteSet;
use std::alloc::{AllocError, Global};

// In each instance cards propose sets of notes, and decide one of them.
// What it shares with a broadcast, cards and wire, is no trait of its own: each definition over any consensus would take two records of ghost members.
pub trait Consensus: Sized {
    // What a value stands for; `state` is what it stands for now. All else is told of that.
    ghost State: { Type 0 };

    ghost state: { Self → State };

    // How many cards there are, which have crashed, and who suspects whom (the suspecting card first).
    ghost cards: { State → ℕ };

    ghost crashed: { State → ℕ → Bool };

    ghost suspects: { State → ℕ → ℕ → Bool };

    // The senders of the items under way: each a card, or 7 for the carrier.
    ghost wire: { State → List ℕ };

    // No call answers it: it bounds the carries and losses that are still to come.
    ghost work: { State → ℕ };

    // What each card has proposed and decided, by instance and card.
    ghost proposal: { State → ℕ → ℕ → Option ℕ };

    ghost decision: { State → ℕ → ℕ → Option ℕ };

    // Made by `new` and these calls.
    ghost made: { State → Type 0 };

    // By how much a proposal may raise the work.
    ghost bound: { ℕ };

    // What `new` and each accepted call make.
    ghost start: { ℕ → State };

    ghost proposing: { State → ℕ → ℕ → ℕ → State };

    ghost carrying: { State → ℕ → State };

    ghost losing: { State → ℕ → State };

    ghost crashing: { State → ℕ → State };

    ghost suspecting: { State → ℕ → ℕ → State };

    // A call takes the numbers that the rules name: a struct of them would be made for the one call.
    fn new(heap: Global, count: usize) -> Result<Self, AllocError>
        ensures { IfOk result (λ x. state x ≡ start count) };

    fn propose(&mut self, instance: usize, card: usize, notes: NoteSet) -> Result<(), Refusal>
        ensures answer { result ≡ propose_answer (consensus_view cards crashed suspects wire work proposal decision (state self.old)) instance card notes }
        ensures case { let v = consensus_view cards crashed suspects wire work proposal decision (state self.old) in
            case_of result ≡ turned_down_by (propose_reasons v instance card notes) }
        ensures after { state self.new ≡ (if is_ok result then proposing (state self.old) instance card notes else state self.old) };

    fn carry(&mut self, item: usize) -> Result<(), Refusal>
        ensures answer { result ≡ carry_answer (consensus_view cards crashed suspects wire work proposal decision (state self.old)).net item }
        ensures case { let v = consensus_view cards crashed suspects wire work proposal decision (state self.old) in
            case_of result ≡ turned_down_by (carry_reasons v.net item) }
        ensures after { state self.new ≡ (if is_ok result then carrying (state self.old) item else state self.old) };

    fn lose(&mut self, item: usize) -> Result<(), Refusal>
        ensures answer { result ≡ lose_answer (consensus_view cards crashed suspects wire work proposal decision (state self.old)).net item }
        ensures case { let v = consensus_view cards crashed suspects wire work proposal decision (state self.old) in
            case_of result ≡ turned_down_by (lose_reasons v.net item) }
        ensures after { state self.new ≡ (if is_ok result then losing (state self.old) item else state self.old) };

    fn crash(&mut self, card: usize) -> Result<(), Refusal>
        ensures answer { result ≡ crash_answer (consensus_view cards crashed suspects wire work proposal decision (state self.old)).net card }
        ensures case { let v = consensus_view cards crashed suspects wire work proposal decision (state self.old) in
            case_of result ≡ turned_down_by (crash_reasons v.net card) }
        ensures after { state self.new ≡ (if is_ok result then crashing (state self.old) card else state self.old) };

    fn suspect(&mut self, by: usize, card: usize) -> Result<(), Refusal>
        ensures answer { result ≡ suspect_answer (consensus_view cards crashed suspects wire work proposal decision (state self.old)).net by card }
        ensures case { let v = consensus_view cards crashed suspects wire work proposal decision (state self.old) in
            case_of result ≡ turned_down_by (suspect_reasons v.net by card) }
        ensures after { state self.new ≡ (if is_ok result then suspecting (state self.old) by card else state self.old) };

    fn bound() -> u32
        ensures { result ≡ bound };

    // The readers have no default bodies: a part of any make keeps its cards and its wire in its own way.
    fn card_count(&self) -> usize
        ensures { result ≡ cards (state self.now) };

    fn has_crashed(&self, card: usize) -> bool
        ensures { result ≡ crashed (state self.now) card };

    fn suspects(&self, by: usize, card: usize) -> bool
        ensures { result ≡ suspects (state self.now) by card };

    fn wire_len(&self) -> usize
        ensures { result ≡ length (wire (state self.now)) };

    fn sender_of(&self, item: usize) -> Option<usize>
        ensures { result ≡ slice_get (wire (state self.now)) item };

    fn proposal_of(&self, instance: usize, card: usize) -> Option<NoteSet>
        ensures { result ≡ proposal (state self.now) instance card };

    fn decision_of(&self, instance: usize, card: usize) -> Option<NoteSet>
        ensures { result ≡ decision (state self.now) instance card };

    ghost meaning: { Meaning (consensus_view cards crashed suspects wire work proposal decision) made bound start proposing carrying losing crashing suspecting };
}
