// Checking a file without any memory of its own.
ghost use Rattle.std.specs.Prelude.{◌≡◌};
ghost use Rattle.text.specs.Parts.{part_of};
ghost use Rattle.entries.specs.Lines.{seen_line, same_value};
ghost use Rattle.reader.specs.Files.{opening_of, ended, schedule_of, contents_in};
ghost use Rattle.reader.specs.Says.{CheckSays, CheckCase};

use crate::section::{check_events, check_notes};
use faults::{BodyFault, FileFault, LONGEST};
use schedule::contents::Contents;
use text::part::Part;

// The contents of a file that is not too long, and what follows them.
pub(crate) fn opening<'a>(file: &'a [u8]) -> Result<(Contents, Part<'a>), FileFault>
    ensures { seen_line same_value result ≡ opening_of file.now }
{
    if file.len() > LONGEST {
        return Err(FileFault::Long);
    }
    Contents::read(Part::whole(file)).map_err(FileFault::Contents)
}

// Nothing may follow the last event.
pub(crate) fn ended(rest: Part) -> Result<(), FileFault>
    ensures { result ≡ ended tt (part_of rest.entry) }
{
    if rest.is_empty() {
        Ok(())
    } else {
        Err(FileFault::Surplus {
            place: rest.place(),
        })
    }
}

// The contents of a file in which nothing is wrong, or its first fault.
#[tactic(auto, using(crate::proofs::FileTexts::check_says, crate::proofs::Cases::check_case))]
pub fn check(file: &[u8]) -> Result<Contents, FileFault>
    ensures value { result ≡ contents_in (schedule_of file.now) }
    ensures says { CheckSays file.now result }
    ensures case { CheckCase file.now result }
{
    let (contents, rest) = opening(file)?;
    let rest = check_notes(contents.kind, rest, contents.notes).map_err(BodyFault::Notes)?;
    let rest = check_events(rest, contents.events).map_err(BodyFault::Events)?;
    ended(rest)?;
    Ok(contents)
}
