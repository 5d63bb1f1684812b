// Runs: a list of calls on a new carrier. Whatever the broadcast, the consensus and the calls, the cards log the notes in one order.
#![tactic(auto)]

ghost use Rattle.std.specs.Prelude.{◌≡◌, ◌+◌, ◌<◌, ◌≤◌, [], ◌∷◌, ◌++◌, length, IfOk, vec_len, vec_capacity, Decides};
ghost use Rattle.parts.specs.Views.{Quiet};
ghost use Rattle.parts.specs.Shown.{shown};
ghost use Rattle.total_order.specs.Models.{model};
ghost use Rattle.runs.specs.Scripts.{cards_in, begun};
ghost use Rattle.runs.specs.Runs.{left_by, answers_to};
ghost use Rattle.runs.specs.Tally.{tally};
ghost use Rattle.runs.specs.Law.{OneOrder, CrashedLogsBeginRunningOnes, PartsMade, NewStaysInOrder, OneOrderOfEveryRun, CrashedLogsOfEveryRun};

use notes::kind::Kind;
use parts::broadcast::Broadcast;
use parts::consensus::Consensus;
use parts::uniform::Uniform;
use std::alloc::{AllocError, Global};
use total_order::call::{Answer, Call};
use total_order::carrier::Carrier;

// What to run: how many cards the carrier has, its book of notes, and the calls on it.
#[derive(Drop)]
pub struct Script<'a, K> {
    pub cards: usize,
    pub book: &'a [K],
    pub calls: &'a [Call],
}

// The carrier that the calls leave, and what each of them answered.
#[derive(Drop)]
pub struct RunEnd<B, C> {
    pub carrier: Carrier<B, C>,
    pub answers: Vec<Answer>,
}

// Makes the calls, one after the other, on a new carrier. That every run stays in order is said of the definitions, so it holds whatever the
// memory; what is answered here is such a run.
pub fn run<K: Kind, B: Broadcast + Drop, C: Consensus + Drop>(
    heap: Global,
    script: &Script<'_, K>,
) -> Result<RunEnd<B, C>, AllocError>
    ensures every_run { OneOrderOfEveryRun B.Broadcast C.Consensus K.Kind.precedes }
    ensures carrier { IfOk result (λ k. model B.Broadcast C.Consensus k.carrier
        ≡ left_by B.Broadcast C.Consensus (begun B.Broadcast C.Consensus K.Kind.precedes script.now) script.now.calls.now) }
    ensures answers { IfOk result (λ k. k.answers.items
        ≡ answers_to B.Broadcast C.Consensus (begun B.Broadcast C.Consensus K.Kind.precedes script.now) script.now.calls.now) }
    ensures made { IfOk result (λ k. PartsMade B.Broadcast C.Consensus (model B.Broadcast C.Consensus k.carrier)) }
    ensures order { IfOk result (λ k. OneOrder B.Broadcast C.Consensus (cards_in script.now)
        (tally script.now.calls.now k.answers.items) (model B.Broadcast C.Consensus k.carrier)) }
{
    every_run_stays_in_order::<K, B, C>();
    make_run::<K, B, C>(heap, script)
}

// A run over a uniform broadcast, and whether that is quiet in the end.
#[derive(Drop)]
pub struct UniformEnd<B, C> {
    pub run: RunEnd<B, C>,
    pub quiet: bool,
}

// Over a uniform broadcast the logs of crashed cards, too, begin those of running ones, when the carrier is at rest and every running card
// suspects every crashed one.
#[tactic(auto, using(crate::proofs::Law::crashed_logs))]
pub fn run_uniform<K: Kind, B: Uniform + Drop, C: Consensus + Drop>(
    heap: Global,
    script: &Script<'_, K>,
) -> Result<UniformEnd<B, C>, AllocError>
    ensures every_run { OneOrderOfEveryRun B.Broadcast C.Consensus K.Kind.precedes }
    ensures every_uniform_run { CrashedLogsOfEveryRun B.Broadcast C.Consensus K.Kind.precedes }
    ensures carrier { IfOk result (λ k. model B.Broadcast C.Consensus k.run.carrier
        ≡ left_by B.Broadcast C.Consensus (begun B.Broadcast C.Consensus K.Kind.precedes script.now) script.now.calls.now) }
    ensures answers { IfOk result (λ k. k.run.answers.items
        ≡ answers_to B.Broadcast C.Consensus (begun B.Broadcast C.Consensus K.Kind.precedes script.now) script.now.calls.now) }
    ensures made { IfOk result (λ k. PartsMade B.Broadcast C.Consensus (model B.Broadcast C.Consensus k.run.carrier)) }
    ensures order { IfOk result (λ k. OneOrder B.Broadcast C.Consensus (cards_in script.now)
        (tally script.now.calls.now k.run.answers.items) (model B.Broadcast C.Consensus k.run.carrier)) }
    ensures quiet { IfOk result (λ k. Decides k.quiet
        (Quiet (shown B.Broadcast (model B.Broadcast C.Consensus k.run.carrier).broadcast).net)) }
    ensures crashed_logs_begin_running_ones { IfOk result (λ k. CrashedLogsBeginRunningOnes B.Broadcast C.Consensus (cards_in script.now)
        (tally script.now.calls.now k.run.answers.items) (model B.Broadcast C.Consensus k.run.carrier)) }
{
    let run = run::<K, B, C>(heap, script)?;
    let quiet = run.carrier.is_quiet();
    Ok(UniformEnd { run, quiet })
}

// Facts, and nothing to do.
#[tactic(auto, using(crate::proofs::Law::few_cards))]
fn every_run_stays_in_order<K: Kind, B: Broadcast, C: Consensus>()
    ensures { OneOrderOfEveryRun B.Broadcast C.Consensus K.Kind.precedes }
{
    new_carriers_stay_in_order::<K, B, C>();
}

fn new_carriers_stay_in_order<K: Kind, B: Broadcast, C: Consensus>()
    ensures { NewStaysInOrder B.Broadcast C.Consensus K.Kind.precedes }
{}

fn make_run<K: Kind, B: Broadcast + Drop, C: Consensus + Drop>(
    heap: Global,
    script: &Script<'_, K>,
) -> Result<RunEnd<B, C>, AllocError>
    ensures carrier { IfOk result (λ k. model B.Broadcast C.Consensus k.carrier
        ≡ left_by B.Broadcast C.Consensus (begun B.Broadcast C.Consensus K.Kind.precedes script.now) script.now.calls.now) }
    ensures answers { IfOk result (λ k. k.answers.items
        ≡ answers_to B.Broadcast C.Consensus (begun B.Broadcast C.Consensus K.Kind.precedes script.now) script.now.calls.now) }
    ensures made { IfOk result (λ k. PartsMade B.Broadcast C.Consensus (model B.Broadcast C.Consensus k.carrier)) }
    ensures order { IfOk result (λ k. OneOrder B.Broadcast C.Consensus (cards_in script.now)
        (tally script.now.calls.now k.answers.items) (model B.Broadcast C.Consensus k.carrier)) }
{
    every_run_stays_in_order::<K, B, C>();
    let mut answers = Vec::with_capacity(heap, script.calls.len())?;
    let mut carrier = Carrier::new(heap, script.cards, script.book)?;
    make_calls(&mut carrier, script.calls, &mut answers);
    Ok(RunEnd { carrier, answers })
}

// Makes the calls, one after the other, and keeps what each answered. A `for`, since a proof does not know what `collect` leaves of the carrier that its closure would borrow.
fn make_calls<B: Broadcast, C: Consensus>(
    carrier: &mut Carrier<B, C>,
    calls: &[Call],
    answers: &mut Vec<Answer>,
)
    requires none { answers.old.items ≡ [] }
    requires empty { vec_len answers.old ≡ 0 }
    requires room { length calls.now ≤ vec_capacity answers.old }
    ensures carrier { model B.Broadcast C.Consensus carrier.new ≡ left_by B.Broadcast C.Consensus (model B.Broadcast C.Consensus carrier.old) calls.now }
    ensures answers { answers.new.items ≡ answers_to B.Broadcast C.Consensus (model B.Broadcast C.Consensus carrier.old) calls.now }
{
    for call in calls {
        make_call(carrier, *call, answers);
    }
}

#[tactic(auto, unfolding(crate::specs::Runs::left_by, crate::specs::Runs::answers_to))]
fn make_call<B: Broadcast, C: Consensus>(
    carrier: &mut Carrier<B, C>,
    call: Call,
    answers: &mut Vec<Answer>,
)
    requires { vec_len answers.old < vec_capacity answers.old }
    ensures carrier { model B.Broadcast C.Consensus carrier.new ≡ left_by B.Broadcast C.Consensus (model B.Broadcast C.Consensus carrier.old) (call ∷ []) }
    ensures answers { answers.new.items ≡ answers.old.items ++ answers_to B.Broadcast C.Consensus (model B.Broadcast C.Consensus carrier.old) (call ∷ []) }
    ensures len { vec_len answers.new ≡ vec_len answers.old + 1 }
    ensures capacity { vec_capacity answers.new ≡ vec_capacity answers.old }
{
    answers.push_reserved(carrier.call(call));
}
