// The lines of notes in ranking order.
ghost use Rattle.std.specs.Prelude.{◌≡◌, ℕ, [], ◌∷◌, ◌++◌, ◌<◌, length, map, slice_index, OnOk, string_bytes};
ghost use Rattle.text.specs.Written.{spaced};
ghost use Rattle.entries.specs.Written.{written_lines};
ghost use Rattle.logs.specs.Orders.{in_ranking_order};
ghost use Rattle.listing.specs.Listing.{note_line, note_lines};

use crate::written::Written;
use logs::log::Log;
use logs::ranking::Ranking;
use notes::kind::Kind;
use notes::set::NoteSet;
use std::alloc::AllocError;

// The numbers of all notes in ranking order: the log of a card that takes them all at once.
#[tactic(auto, using(crate::proofs::Whole::all_taken, crate::proofs::Whole::all_below))]
fn ranked<N: Kind>(notes: &[N]) -> Log
    ensures order { result ≡ in_ranking_order N.Kind.precedes notes.now }
    ensures below { (k : ℕ) → k < length result
        → slice_index result k < length notes.now }
{
    let mut log = Log::new();
    log.append(&Ranking::new(notes), NoteSet::from_bits(u32::MAX));
    log
}

pub(crate) fn write_ranked<N: Written>(out: &mut String, notes: &[N]) -> Result<(), AllocError>
    ensures { OnOk result (string_bytes out.new ≡ string_bytes out.old
        ++ written_lines spaced (note_lines (map N.Written.text notes.now) 0
        (in_ranking_order N.Kind.precedes notes.now))) }
{
    let order = ranked(notes);
    for (place, number) in order.as_slice().iter().enumerate() {
        write_line(out, notes, place, *number)?;
    }
    Ok(())
}

// The place, the number, and the note as it is written.
fn write_line<N: Written>(
    out: &mut String,
    notes: &[N],
    place: usize,
    number: usize,
) -> Result<(), AllocError>
    requires { number < length notes.now }
    ensures { OnOk result (string_bytes out.new ≡ string_bytes out.old
        ++ written_lines spaced (note_line (map N.Written.text notes.now) place number ∷ [])) }
{
    write!(out, "{place} {number} ")?;
    notes[number].write(out)?;
    write!(out, "\n")
}
