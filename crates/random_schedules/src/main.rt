// Random schedules over every pile, as files: the order law is checked on the report of each, so that what no proof looks at is tried too,
// which is how the program is compiled.
#![tactic(auto)]

ghost use Rattle.std.specs.Prelude.{◌≡◌, ◌<◌, ◌↔◌, IsOk, IfOk};
ghost use Rattle.random_schedules.specs.Lawful.{AllLawful};

mod draw;
mod happened;
mod outcome;
mod pile;
mod random;
#[cfg(test)]
mod tests;
mod trial;

use anyhow::bail;
use draw::{Drawn, draw};
use pile::{KnownPile, piles};
use random::Random;
use trial::Trial;
use verdicts::count::{Amiss, Case, Tally, judge};

// How many schedules are drawn for each pile.
const ROUNDS: u32 = 250;

fn run_drawn(rt: &HostRuntime, drawn: &Drawn, pile: KnownPile) -> anyhow::Result<Trial> {
    let trial = Trial::of(rt.alloc(), drawn, pile)?;
    if !trial.passes() {
        let file = &drawn.file;
        println!(rt; "the law does not hold of the report of this schedule:")?;
        print!(rt; "{file}")?;
    }
    Ok(trial)
}

// Draws and runs the schedules of one pile. A `for`, as each turn may fail.
fn run_pile(rt: &HostRuntime, random: &mut Random, pile: KnownPile) -> anyhow::Result<Vec<Trial>> {
    let mut trials = Vec::new(rt.alloc());
    for _ in 0..ROUNDS {
        let drawn = draw(rt.alloc(), random, pile)?;
        trials.push(run_drawn(rt, &drawn, pile)?)?;
    }
    Ok(trials)
}

fn print_tally(rt: &HostRuntime, pile: KnownPile, trials: &[Trial]) -> anyhow::Result<()> {
    let Tally { cases, failures } = judge(trials);
    let settled = trials.iter().filter(|trial| trial.is_settled()).count();
    let words = pile.words;
    println!(rt; "{words}: {settled} of {cases} at rest under full suspicion, {failures} amiss")?;
    Ok(())
}

// An error, unless something was drawn and the law holds of all of it.
fn end(tally: &Tally) -> anyhow::Result<()>
    ensures { IsOk result ↔ ((0 < tally.now.cases) × (tally.now.failures ≡ 0)) }
{
    match tally.verdict() {
        Ok(()) => Ok(()),
        Err(Amiss::NoCase) => bail!("no schedule was drawn"),
        Err(Amiss::Failures) => bail!("the law does not hold of every report"),
    }
}

// All that was run, where the law holds of each report.
fn run(rt: &HostRuntime) -> anyhow::Result<Vec<Trial>>
    ensures { IfOk result (λ all. AllLawful all.items) }
{
    let mut random = Random::new(1);
    let mut all: Vec<Trial> = Vec::new(rt.alloc());
    for pile in piles().iter() {
        let trials = run_pile(rt, &mut random, *pile)?;
        print_tally(rt, *pile, &trials)?;
        all.extend(trials)?;
    }
    end(&judge(&all))?;
    Ok(all)
}

fn main(rt: HostRuntime) -> anyhow::Result<()> {
    run(&rt)?;
    Ok(())
}
