// Worked examples: whole runs, and files with their reports, computed from the definitions that the contracts of the code cite.
#![tactic(auto)]

#[cfg(test)]
mod tests;

ghost use Rattle.std.specs.Prelude.{◌≡◌, IfOk, codes};
ghost use Rattle.worked.specs.Examples.{late_note_calls, one_batch_calls, LateNote, OneBatch, StepsWithinTheBound};
ghost use Rattle.worked.specs.Files.{WorkedFiles};
ghost use Rattle.worked.specs.Shelves.{OneOfEachShelf};
ghost use Rattle.worked.specs.Worked.{WorkedExamples};

use report::report;
use std::alloc::{AllocError, Global};

// The report of the first of the files, as the code makes it.
pub fn late_note(heap: Global) -> Result<Vec<u8>, AllocError>
    ensures { IfOk result (λ out. out.items ≡ codes "no 4 9\nlog 0 up 0 1\nlog 1 up 0 1\nsteps 16 rest\n") }
{
    files_come_out();
    report(
        heap,
        b"kind wear\ncards 2\npile board register\nnotes 2\nevents 6\n7 120\n3 55\nb 0 0\nb 1 1\nc b 0\np 0\np 1\nr 100\n",
    )
}

// How many steps a run makes, and how many the bound allows it.
#[derive(Drop)]
pub struct Steps {
    pub made: u64,
    pub allowed: u64,
}

// The steps of the first two examples. How they and all others come out is a fact of the definitions.
pub fn worked_examples() -> (Steps, Steps)
    ensures all { WorkedExamples }
    ensures late_note { StepsWithinTheBound late_note_calls result.0.made result.0.allowed }
    ensures one_batch { StepsWithinTheBound one_batch_calls result.1.made result.1.allowed }
{
    examples_come_out();
    files_come_out();
    shelves_come_out();
    let allowed = 24;
    (Steps { made: 16, allowed }, Steps { made: 10, allowed })
}

// Facts, and nothing to do.
fn examples_come_out()
    ensures late_note { LateNote }
    ensures late_note_steps { StepsWithinTheBound late_note_calls 16 24 }
    ensures one_batch { OneBatch }
    ensures one_batch_steps { StepsWithinTheBound one_batch_calls 10 24 }
{}

fn files_come_out()
    ensures { WorkedFiles }
{}

fn shelves_come_out()
    ensures { OneOfEachShelf }
{}
