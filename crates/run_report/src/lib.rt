// The report of a run over any broadcast and any consensus: what was refused, the log of each card, and the steps.
#![tactic(auto)]

ghost use Rattle.std.specs.Prelude.{◌≡◌, IfOk, string_bytes};
ghost use Rattle.total_order.specs.Models.{model};
ghost use Rattle.runs.specs.Scripts.{cards_in, order_in};
ghost use Rattle.run_report.specs.Reports.{end_text, report_over};

use crate::end::write_end;
use notes::kind::Kind;
use parts::broadcast::Broadcast;
use parts::consensus::Consensus;
use parts::uniform::Uniform;
use runs::{RunEnd, Script, UniformEnd, run, run_uniform};
use std::alloc::{AllocError, Global};
use total_order::call::Answer;
use total_order::carrier::Carrier;

mod end;
mod lines;

// The report of a script. The allocator stands beside it, as in the calls of the library: it is no part of what to run.
pub fn report_over<K: Kind, B: Broadcast + Drop, C: Consensus + Drop>(
    heap: Global,
    script: &Script<'_, K>,
) -> Result<String, AllocError>
    ensures { IfOk result (λ out. string_bytes out ≡ report_over B.Broadcast C.Consensus (cards_in script.now) (order_in K.Kind.precedes script.now) script.now.calls.now) }
{
    let end: RunEnd<B, C> = run::<K, B, C>(heap, script)?;
    report_of(heap, &end.carrier, end.answers.as_slice())
}

// The same over a uniform broadcast, by the run whose contract has the law of crashed logs too: that law stands on a call that the program makes.
pub fn report_over_uniform<K: Kind, B: Uniform + Drop, C: Consensus + Drop>(
    heap: Global,
    script: &Script<'_, K>,
) -> Result<String, AllocError>
    ensures { IfOk result (λ out. string_bytes out ≡ report_over B.Broadcast C.Consensus (cards_in script.now) (order_in K.Kind.precedes script.now) script.now.calls.now) }
{
    let end: UniformEnd<B, C> = run_uniform::<K, B, C>(heap, script)?;
    report_of(heap, &end.run.carrier, end.run.answers.as_slice())
}

// The report of a carrier whose calls were answered so.
fn report_of<B: Broadcast, C: Consensus>(
    heap: Global,
    carrier: &Carrier<B, C>,
    answers: &[Answer],
) -> Result<String, AllocError>
    ensures { IfOk result (λ out. string_bytes out ≡ end_text B.Broadcast C.Consensus answers.now (model B.Broadcast C.Consensus carrier.now)) }
{
    let mut out = String::new(heap);
    write_end(&mut out, carrier, answers)?;
    Ok(out)
}
