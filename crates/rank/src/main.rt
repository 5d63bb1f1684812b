// Ranks the notes of a schedule file: the file on standard input, the notes in ranking order on standard output.
#![tactic(auto)]

use listing::program::Listing;
use streams::program::answer_input;

fn main(rt: HostRuntime) -> anyhow::Result<()> {
    answer_input::<Listing, _, _>(rt.alloc(), &mut rt.stdin(), &mut rt.stdout())?;
    Ok(())
}
