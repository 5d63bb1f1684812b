// The notes of a schedule file in ranking order, a line each; or the file's fault.
#![tactic(auto)]

ghost use Rattle.std.specs.Prelude.{◌≡◌, [], ◌∷◌, IfOk, string_bytes};
ghost use Rattle.text.specs.Written.{spaced};
ghost use Rattle.entries.specs.Written.{written_lines};
ghost use Rattle.reader.specs.Files.{noted_in};
ghost use Rattle.listing.specs.Listing.{ranked_notes, note_texts, note_lines, fault_line, listing_of};

use crate::ranked::write_ranked;
use faults::FileFault;
use reader::file::{Notes, Schedule, Unread};
use reader::read::read;
use std::alloc::{AllocError, Global};

pub mod program;
mod ranked;
#[cfg(test)]
mod tests;
mod written;

// The bytes of the whole listing of a file, unless memory is wanting.
pub fn listing(heap: Global, file: &[u8]) -> Result<Vec<u8>, AllocError>
    ensures { IfOk result (λ out. out.items ≡ listing_of file.now) }
{
    let text = listing_text(heap, file)?;
    Ok(text.into_bytes())
}

fn listing_text(heap: Global, file: &[u8]) -> Result<String, AllocError>
    ensures { IfOk result (λ out. string_bytes out ≡ listing_of file.now) }
{
    match read(heap, file) {
        Ok(Schedule { notes, .. }) => list_notes(heap, notes),
        Err(Unread::Fault(fault)) => bad_line(heap, fault),
        Err(Unread::NoMemory) => Err(AllocError),
    }
}

// What is printed of a file that does not read: the cause, the place and the layer of its fault.
#[tactic(auto, using(crate::proofs::Words::fault_words))]
pub fn bad_line(heap: Global, fault: FileFault) -> Result<String, AllocError>
    ensures { IfOk result (λ out. string_bytes out
        ≡ written_lines spaced (fault_line fault ∷ [])) }
{
    format!(in heap; "bad {fault}\n")
}

// Each arm has notes of another type.
#[tactic(auto, using(crate::proofs::Ranks::labels_rank_by_bytes, crate::proofs::Words::label_texts))]
fn list_notes(heap: Global, notes: Notes<'_>) -> Result<String, AllocError>
    ensures { IfOk result (λ out. string_bytes out
        ≡ written_lines spaced (note_lines (note_texts (noted_in notes.entry)) 0
        (ranked_notes (noted_in notes.entry)))) }
{
    let mut out = String::new(heap);
    match notes {
        Notes::Wears(wears) => write_ranked(&mut out, wears.as_slice())?,
        Notes::Labels(labels) => write_ranked(&mut out, labels.as_slice())?,
    }
    Ok(out)
}
