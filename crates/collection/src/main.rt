// Runs every schedule of the collection, and compares what it comes to with the report that stands beside it, byte for byte.
// The collection is the folder that the program is run in: a shelf is a folder below it, with files NAME.schedule and NAME.report.
#![tactic(auto)]

ghost use Rattle.std.specs.Prelude.{◌≡◌, ◌<◌, ◌↔◌, IsOk, IfOk};
ghost use Rattle.collection.specs.Told.{AllTold};

mod shelf;
mod trial;

use anyhow::bail;
use shelf::{names_in, run_shelf};
use trial::Trial;
use verdicts::count::{Amiss, Tally, judge};

// An error, unless there was a schedule and each came to its report.
fn end(tally: &Tally) -> anyhow::Result<()>
    ensures { IsOk result ↔ ((0 < tally.now.cases) × (tally.now.failures ≡ 0)) }
{
    match tally.verdict() {
        Ok(()) => Ok(()),
        Err(Amiss::NoCase) => bail!("there is no schedule"),
        Err(Amiss::Failures) => {
            bail!("not every report is the one that stands in the collection")
        }
    }
}

fn print_tally(rt: &HostRuntime, name: &str, tally: &Tally) -> anyhow::Result<()> {
    let Tally { cases, failures } = tally;
    println!(rt; "{name}: {cases} schedules, {failures} differ")?;
    Ok(())
}

// The schedules that were run, where each of them came to its report.
fn run(rt: &HostRuntime) -> anyhow::Result<Vec<Trial>>
    ensures { IfOk result (λ all. AllTold all.items) }
{
    let mut all: Vec<Trial> = Vec::new(rt.alloc());
    let shelves = names_in(rt, ".")?;
    for shelf in &shelves {
        let name = shelf.as_str();
        let trials = run_shelf(rt, name)?;
        print_tally(rt, name, &judge(&trials))?;
        all.extend(trials)?;
    }
    let tally = judge(&all);
    print_tally(rt, "in all", &tally)?;
    end(&tally)?;
    Ok(all)
}

fn main(rt: HostRuntime) -> anyhow::Result<()> {
    run(&rt)?;
    Ok(())
}
