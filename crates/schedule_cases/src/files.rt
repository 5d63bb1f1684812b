// Files that are made, and not written out in the table.
use std::alloc::{AllocError, Global};

pub(crate) const BASE: &[u8] =
    b"kind wear\ncards 2\npile board register\nnotes 2\nevents 6\n7 120\n3 55\nb 0 0\nb 1 1\nc b 0\np 0\np 1\nr 100\n";

// The good file with byte `place` made 255.
pub(crate) fn spoiled(heap: Global, place: usize) -> Result<Vec<u8>, AllocError> {
    let mut out = Vec::from_slice(heap, BASE)?;
    if let Some(byte) = out.get_mut(place) {
        *byte = 255;
    }
    Ok(out)
}

// The longest lines in the greatest number.
pub(crate) fn longest(heap: Global) -> Result<String, AllocError> {
    let notes = "4294967295 4294967295\n".repeat(heap, 32)?;
    let events = "s 65535 65535\n".repeat(heap, 4096)?;
    format!(in heap;
        "kind wear\ncards 6\npile inturn allack register\nnotes 32\nevents 4096\n{notes}{events}"
    )
}

// A file of so many cards, notes and events.
pub(crate) fn extreme(
    heap: Global,
    kind: &str,
    cards: u32,
    note_count: usize,
    event_count: usize,
) -> Result<String, AllocError> {
    let note = if kind == "label" {
        "12345678\n"
    } else {
        "4294967295 4294967295\n"
    };
    let notes = note.repeat(heap, note_count)?;
    let events = "s 65535 65535\n".repeat(heap, event_count)?;
    format!(in heap;
        "kind {kind}\ncards {cards}\npile board register\nnotes {note_count}\nevents {event_count}\n{notes}{events}"
    )
}

// A file with so many bytes 10 after it.
pub(crate) fn padded(heap: Global, file: &[u8], more: usize) -> Result<Vec<u8>, AllocError> {
    let mut out = Vec::from_slice(heap, file)?;
    out.resize(file.len().saturating_add(more), b'\n')?;
    Ok(out)
}
