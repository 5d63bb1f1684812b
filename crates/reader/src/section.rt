// Sections: so many lines of one kind.
ghost use Rattle.std.specs.Prelude.{◌≡◌, ◌+◌, ◌≤◌, [], IfOk, IfErr, vec_len, vec_capacity};
ghost use Rattle.text.specs.Faults.{DueIn};
ghost use Rattle.text.specs.Parts.{part_of};
ghost use Rattle.entries.specs.Lines.{lines_of};
ghost use Rattle.entries.specs.Events.{event_of};
ghost use Rattle.entries.specs.Written.{event_text, EventAllowed};
ghost use Rattle.reader.specs.Sections.{end_seen, end_of, items_seen, notes_of};
ghost use Rattle.reader.specs.Written.{note_text, NoteAllowed};
ghost use Rattle.reader.specs.Says.{SectionSays};

use entries::event::Event;
use entries::line::{OneLine, first_line};
use labels::Label;
use notes::wear::Wear;
use schedule::contents::NoteKind;
use std::alloc::{AllocError, Global};
use text::fault::LineFault;
use text::part::Part;

// What follows so many lines, if each says what it should. It keeps nothing of what they say: one function for this and `read_into` would take
// a trait of what keeps a line, with room for more among its laws and an impl that keeps nothing, which is longer than both loops. It is no
// fold either: the check follows no closure that calls a function whose bound names a lifetime, as that of `first_line` does.
// The part and the number of lines stay two arguments, as in all that read lines: the one comes from the line before, the other from the contents.
fn check_lines<'a, T: OneLine<'a> + Drop>(rest: Part<'a>, count: u32) -> Result<Part<'a>, LineFault>
    ensures { end_seen result ≡ end_of (lines_of T.rule count (part_of rest.entry)) }
{
    let mut left = rest;
    for _i in 0..count {
        (_, left) = first_line::<T>(left)?;
    }
    Ok(left)
}

// What so many lines say, put into a list that has room for it, and what follows them.
fn read_into<'a, T: OneLine<'a> + Drop>(
    room: Vec<T>,
    rest: Part<'a>,
    count: u32,
) -> Result<(Vec<T>, Part<'a>), LineFault>
    requires empty { room.items ≡ [] }
    requires fits { vec_len room + count ≤ vec_capacity room }
    ensures { items_seen T.said result ≡ lines_of T.rule count (part_of rest.entry) }
{
    let mut out = room;
    let mut left = rest;
    for _i in 0..count {
        let (value, after) = first_line(left)?;
        out.push_reserved(value);
        left = after;
    }
    Ok((out, left))
}

// What so many lines say, for which memory is reserved first, and what follows them.
pub(crate) fn read_lines<'a, T: OneLine<'a> + Drop>(
    heap: Global,
    rest: Part<'a>,
    count: u32,
) -> Result<Result<(Vec<T>, Part<'a>), LineFault>, AllocError>
    ensures { IfOk result (λ r. items_seen T.said r ≡ lines_of T.rule count (part_of rest.entry)) }
{
    let room = Vec::with_capacity(heap, count as usize)?;
    Ok(read_into(room, rest, count))
}

// What follows so many lines of notes, or the first line that says none. Each arm reads lines of another type.
#[tactic(auto, using(crate::proofs::FileTexts::notes_say, crate::proofs::Cases::wears_due, crate::proofs::Cases::labels_due))]
pub fn check_notes<'a>(kind: NoteKind, rest: Part<'a>, count: u32) -> Result<Part<'a>, LineFault>
    ensures value { end_seen result ≡ end_of (notes_of kind count (part_of rest.entry)) }
    ensures says { SectionSays (note_text kind) (NoteAllowed kind) count (part_of rest.entry) (end_seen result) }
    ensures case { IfErr result (DueIn (part_of rest.entry)) }
{
    match kind {
        NoteKind::Wear => check_lines::<Wear>(rest, count),
        NoteKind::Label => check_lines::<Label<'a>>(rest, count),
    }
}

// What follows so many lines of events, or the first line that says none.
#[tactic(auto, using(crate::proofs::FileTexts::events_say, crate::proofs::Cases::events_due))]
pub fn check_events<'a>(rest: Part<'a>, count: u32) -> Result<Part<'a>, LineFault>
    ensures value { end_seen result ≡ end_of (lines_of event_of count (part_of rest.entry)) }
    ensures says { SectionSays event_text EventAllowed count (part_of rest.entry) (end_seen result) }
    ensures case { IfErr result (DueIn (part_of rest.entry)) }
{
    check_lines::<Event>(rest, count)
}
