// The lines of the cards.
ghost use Rattle.std.specs.Prelude.{◌≡◌, ◌++◌, cond, codes, string_bytes, IfOk, OnOk};
ghost use Rattle.handed_and_decided.specs.Lines.{note_text, notes_text, card_text, handed_line, decided_line, handed_line_of, handed_lines, decided_line_of, decided_lines};

use notes::set::NoteSet;
use parts::broadcast::Broadcast;
use parts::consensus::Consensus;
use std::alloc::{AllocError, Global};

// A line for each card: its number, whether it runs, and the notes handed to it.
pub fn handed<B: Broadcast>(heap: Global, broadcast: &B) -> Result<String, AllocError>
    ensures { IfOk result (λ out. string_bytes out
        ≡ handed_lines B.Broadcast (B.Broadcast.state broadcast.now) (B.Broadcast.cards (B.Broadcast.state broadcast.now))) }
{
    let mut out = String::new(heap);
    for card in 0..broadcast.card_count() {
        write_handed_of(&mut out, broadcast, card)?;
    }
    Ok(out)
}

// A line for each card: its number, whether it runs, and the notes that it has decided in the instance, if any.
pub fn decided<C: Consensus>(
    heap: Global,
    consensus: &C,
    instance: usize,
) -> Result<String, AllocError>
    ensures { IfOk result (λ out. string_bytes out
        ≡ decided_lines C.Consensus (C.Consensus.state consensus.now) instance (C.Consensus.cards (C.Consensus.state consensus.now))) }
{
    let mut out = String::new(heap);
    for card in 0..consensus.card_count() {
        write_decided_of(&mut out, consensus, instance, card)?;
    }
    Ok(out)
}

fn write_handed_of<B: Broadcast>(
    out: &mut String,
    broadcast: &B,
    card: usize,
) -> Result<(), AllocError>
    ensures { OnOk result (string_bytes out.new
        ≡ string_bytes out.old ++ handed_line_of B.Broadcast (B.Broadcast.state broadcast.now) card) }
{
    let crashed = broadcast.has_crashed(card);
    write_handed(out, card, crashed, broadcast.handed_to(card))
}

fn write_decided_of<C: Consensus>(
    out: &mut String,
    consensus: &C,
    instance: usize,
    card: usize,
) -> Result<(), AllocError>
    ensures { OnOk result (string_bytes out.new
        ≡ string_bytes out.old ++ decided_line_of C.Consensus (C.Consensus.state consensus.now) instance card) }
{
    let crashed = consensus.has_crashed(card);
    write_decided(out, card, crashed, consensus.decision_of(instance, card))
}

#[tactic(auto, using(crate::proofs::Texts::in_line))]
pub(crate) fn write_handed(
    out: &mut String,
    card: usize,
    crashed: bool,
    notes: NoteSet,
) -> Result<(), AllocError>
    ensures { OnOk result (string_bytes out.new ≡ string_bytes out.old ++ handed_line card crashed notes) }
{
    write_card(out, card, crashed)?;
    write!(out, " handed")?;
    write_notes(out, notes)?;
    write!(out, "\n")?;
    Ok(())
}

#[tactic(auto, using(crate::proofs::Texts::in_line))]
pub(crate) fn write_decided(
    out: &mut String,
    card: usize,
    crashed: bool,
    decision: Option<NoteSet>,
) -> Result<(), AllocError>
    ensures { OnOk result (string_bytes out.new ≡ string_bytes out.old ++ decided_line card crashed decision) }
{
    write_card(out, card, crashed)?;
    match decision {
        Some(notes) => {
            write!(out, " decided")?;
            write_notes(out, notes)?;
            write!(out, "\n")?;
            Ok(())
        }
        None => {
            write!(out, " undecided\n")?;
            Ok(())
        }
    }
}

fn write_card(out: &mut String, card: usize, crashed: bool) -> Result<(), AllocError>
    ensures { OnOk result (string_bytes out.new ≡ string_bytes out.old ++ card_text card crashed) }
{
    let state = state(crashed);
    write!(out, "card {card} {state}")?;
    Ok(())
}

// A yes or no prints as true or false, so its word is chosen here.
fn state(crashed: bool) -> &'static str
    ensures { result.now ≡ cond crashed (codes "down") (codes "up") }
{
    if crashed { "down" } else { "up" }
}

// The lowest first, each behind a space.
fn write_notes(out: &mut String, notes: NoteSet) -> Result<(), AllocError>
    ensures { OnOk result (string_bytes out.new ≡ string_bytes out.old ++ notes_text notes) }
{
    for note in 0..32 {
        write_note(out, notes, note)?;
    }
    Ok(())
}

fn write_note(out: &mut String, notes: NoteSet, note: usize) -> Result<(), AllocError>
    ensures { OnOk result (string_bytes out.new ≡ string_bytes out.old ++ note_text notes note) }
{
    if notes.contains(note) {
        write!(out, " {note}")?;
    }
    Ok(())
}
