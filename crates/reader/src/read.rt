// Reading a file into memory.
ghost use Rattle.entries.specs.Lines.{lines_of};
ghost use Rattle.entries.specs.Events.{event_of};
ghost use Rattle.text.specs.Parts.{part_of};
ghost use Rattle.reader.specs.Sections.{notes_of};
ghost use Rattle.reader.specs.Files.{schedule_of, Holds, NotesHold, EventsHold, Answers};
ghost use Rattle.reader.specs.Says.{ReadSays, ReadCase};

use crate::check::{check, ended, opening};
use crate::file::{Notes, Schedule, Unread};
use crate::section::read_lines;
use entries::event::Event;
use faults::BodyFault;
use schedule::contents::NoteKind;
use std::alloc::Global;
use text::part::Part;

// Each arm reads lines of another type, and wraps them in another variant.
fn read_notes<'a>(
    heap: Global,
    kind: NoteKind,
    rest: Part<'a>,
    count: u32,
) -> Result<(Notes<'a>, Part<'a>), Unread>
    ensures { NotesHold result (notes_of kind count (part_of rest.entry)) }
{
    match kind {
        NoteKind::Wear => {
            let (wears, after) = read_lines(heap, rest, count)?.map_err(BodyFault::Notes)?;
            Ok((Notes::Wears(wears), after))
        }
        NoteKind::Label => {
            let (labels, after) = read_lines(heap, rest, count)?.map_err(BodyFault::Notes)?;
            Ok((Notes::Labels(labels), after))
        }
    }
}

fn read_events<'a>(
    heap: Global,
    rest: Part<'a>,
    count: u32,
) -> Result<(Vec<Event>, Part<'a>), Unread>
    ensures { EventsHold result (lines_of event_of count (part_of rest.entry)) }
{
    Ok(read_lines(heap, rest, count)?.map_err(BodyFault::Events)?)
}

// The schedule that the file says, the first fault, or want of memory on the way.
fn read_whole<'a>(heap: Global, file: &'a [u8]) -> Result<Schedule<'a>, Unread>
    ensures { Holds result (schedule_of file.now) }
{
    let (contents, rest) = opening(file)?;
    let (notes, rest) = read_notes(heap, contents.kind, rest, contents.notes)?;
    let (events, rest) = read_events(heap, rest, contents.events)?;
    ended(rest)?;
    Ok(Schedule {
        contents,
        notes,
        events,
    })
}

// The schedule that the file says, or its first fault; want of memory hides no fault.
#[tactic(auto, using(crate::proofs::FileLaws::refuses, crate::proofs::FileTexts::read_says, crate::proofs::Cases::read_case))]
pub fn read<'a>(heap: Global, file: &'a [u8]) -> Result<Schedule<'a>, Unread>
    ensures value { Answers result (schedule_of file.now) }
    ensures says { ReadSays file.now result }
    ensures case { ReadCase file.now result }
{
    match read_whole(heap, file) {
        // Without memory the first fault is said all the same, if the file has one.
        Err(Unread::NoMemory) => Err(check(file).err().map_or(Unread::NoMemory, Unread::Fault)),
        answer => answer,
    }
}
