// Runs a schedule file: the file on standard input, the report on standard output.
#![tactic(auto)]

use report::program::Report;
use streams::program::answer_input;

fn main(rt: HostRuntime) -> anyhow::Result<()> {
    answer_input::<Report, _, _>(rt.alloc(), &mut rt.stdin(), &mut rt.stdout())?;
    Ok(())
}
