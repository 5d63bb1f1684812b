// The report of a schedule file: the file's fault, or what its run comes to over the stack that it names.
#![tactic(auto)]

ghost use Rattle.std.specs.Prelude.{◌≡◌, ℕ, List, map, length, IfOk, string_bytes};
ghost use Rattle.labels.specs.Order.{label_of};
ghost use Rattle.reader.specs.Files.{noted_in, whole_in};
ghost use Rattle.listing.specs.Listing.{ranked_notes};
ghost use Rattle.total_order.specs.Carrying.{cards_of};
ghost use Rattle.report.specs.Stacks.{over_pile};
ghost use Rattle.report.specs.Reports.{how_many_notes, schedule_report, report_of};

use crate::stacks::report_on;
use event_calls::calls_of;
use listing::bad_line;
use reader::file::{Notes, Schedule, Unread};
use reader::read::read;
use runs::Script;
use schedule::contents::Pile;
use std::alloc::{AllocError, Global};
use total_order::call::Call;

pub mod program;
mod stacks;

// The bytes of the whole report of a file, unless memory is wanting.
pub fn report(heap: Global, file: &[u8]) -> Result<Vec<u8>, AllocError>
    ensures { IfOk result (λ out. out.items ≡ report_of file.now) }
{
    let text = report_text(heap, file)?;
    Ok(text.into_bytes())
}

// Here and below the allocator stands beside what it serves, of which it is no part.
fn report_text(heap: Global, file: &[u8]) -> Result<String, AllocError>
    ensures { IfOk result (λ out. string_bytes out ≡ report_of file.now) }
{
    match read(heap, file) {
        Ok(schedule) => report_schedule(heap, schedule),
        Err(Unread::Fault(fault)) => bad_line(heap, fault),
        // What was not read for want of memory holds no error of the heap to hand on.
        Err(Unread::NoMemory) => Err(AllocError),
    }
}

fn report_schedule(heap: Global, schedule: Schedule<'_>) -> Result<String, AllocError>
    ensures { IfOk result (λ out. string_bytes out ≡ schedule_report (whole_in schedule.entry)) }
{
    let Schedule {
        contents,
        notes,
        events,
    } = schedule;
    let calls = calls_of(heap, events.as_slice())?;
    let calls = calls.as_slice();
    let cards = contents.cards as usize;
    report_notes(heap, contents.pile, cards, notes, calls)
}

// The notes rank as their kind has it: labels by their bytes, wherever they stand in the file. Each arm has another type of book.
#[tactic(auto, using(crate::proofs::Labels::as_many_labels, crate::proofs::Labels::labels_rank_by_bytes))]
fn report_notes(
    heap: Global,
    pile: Pile,
    cards: usize,
    notes: Notes<'_>,
    calls: &[Call],
) -> Result<String, AllocError>
    ensures { IfOk result (λ out. string_bytes out ≡ over_pile (cards_of cards (how_many_notes (noted_in notes.entry))) (ranked_notes (noted_in notes.entry)) calls.now pile) }
{
    match notes {
        Notes::Wears(wears) => {
            let book = wears.as_slice();
            report_on(heap, pile, &Script { cards, book, calls })
        }
        Notes::Labels(labels) => {
            let book = labels.as_slice();
            report_on(heap, pile, &Script { cards, book, calls })
        }
    }
}
