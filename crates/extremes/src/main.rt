// Makes parts, runs, readings, listings and reports, of the sizes that standard input says. Each can answer that memory is wanting, and the program ends
// in an error where one does: with memory none may, and where an allocation fails, the call that asked for it has to.
#![tactic(auto)]

mod files;
mod fresh;
mod size;
mod stacks;

use files::try_files;
use fresh::try_parts;
use size::Size;
use stacks::try_runs;

// One line of standard input: so many cards, notes and events. A file has one card at least.
fn try_line(rt: &HostRuntime, line: &str) -> anyhow::Result<()> {
    let size = Size::of(line)?;
    let heap = rt.alloc();
    try_parts(heap, size)?;
    let runs = try_runs(heap, size)?;
    println!(rt; "{line}: {runs} runs")?;
    if size.cards > 0 {
        let told = try_files(heap, size)?;
        println!(rt; "{line}: {told}")?;
    }
    Ok(())
}

fn run(rt: &HostRuntime) -> anyhow::Result<()> {
    for line in rt.lines(rt.alloc()) {
        let line = line?;
        try_line(rt, line.as_str())?;
    }
    Ok(())
}

fn main(rt: HostRuntime) -> anyhow::Result<()> {
    run(&rt)
}
