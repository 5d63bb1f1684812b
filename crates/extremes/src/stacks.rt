// Runs over every stack.
use crate::size::Size;
use allack::state::AllAck;
use anyhow::ensure;
use at_once::state::AtOnce;
use board::state::Board;
use event_calls::calls_of;
use flooding::state::Flooding;
use inturn::layer::InTurn;
use notes::wear::Wear;
use parts::broadcast::Broadcast;
use parts::consensus::Consensus;
use parts::uniform::Uniform;
use register::state::Register;
use relay::state::Relay;
use runs::{RunEnd, Script, UniformEnd, run, run_uniform};
use std::alloc::Global;

type Book<'a> = Script<'a, Wear>;

// A call has an answer, and the carrier as many cards as were asked for.
fn try_run<B: Broadcast + Drop, C: Consensus + Drop>(
    heap: Global,
    script: &Book<'_>,
) -> anyhow::Result<()> {
    let end: RunEnd<B, C> = run::<Wear, B, C>(heap, script)?;
    ensure!(
        end.answers.len() == script.calls.len() && end.carrier.card_count() == script.cards,
        "a run of another size"
    );
    Ok(())
}

fn try_run_uniform<B: Uniform + Drop, C: Consensus + Drop>(
    heap: Global,
    script: &Book<'_>,
) -> anyhow::Result<()> {
    let end: UniformEnd<B, C> = run_uniform::<Wear, B, C>(heap, script)?;
    ensure!(
        end.run.answers.len() == script.calls.len() && end.run.carrier.card_count() == script.cards,
        "a run of another size"
    );
    Ok(())
}

// Every broadcast with this consensus. How many runs that is.
fn try_over<C: Consensus + Drop>(heap: Global, script: &Book<'_>) -> anyhow::Result<usize> {
    try_run::<Relay, C>(heap, script)?;
    try_run::<InTurn<Relay>, C>(heap, script)?;
    try_run_uniform::<AllAck, C>(heap, script)?;
    try_run_uniform::<InTurn<AllAck>, C>(heap, script)?;
    try_run_uniform::<Board, C>(heap, script)?;
    try_run_uniform::<InTurn<Board>, C>(heap, script)?;
    try_run_uniform::<AtOnce, C>(heap, script)?;
    Ok(7)
}

pub(crate) fn try_runs(heap: Global, size: Size) -> anyhow::Result<usize> {
    let book = size.book(heap)?;
    let events = size.events(heap)?;
    let calls = calls_of(heap, &events)?;
    let script = Script {
        cards: size.cards as usize,
        book: book.as_slice(),
        calls: calls.as_slice(),
    };
    let over_register = try_over::<Register>(heap, &script)?;
    let over_flooding = try_over::<Flooding>(heap, &script)?;
    Ok(over_register.saturating_add(over_flooding))
}
