// Files of every pile and of both kinds, read, listed and reported.
use crate::size::Size;
use anyhow::{bail, ensure};
use listing::listing;
use reader::check::check;
use reader::file::{Schedule, Unread};
use reader::read::read;
use report::report;
use std::alloc::{AllocError, Global};
use std::fmt;

// How many files were reported, and how many bytes all reports have.
#[derive(Clone, Copy, Default, Drop)]
pub(crate) struct Told {
    reports: usize,
    bytes: usize,
}

impl Told {
    fn add(&mut self, report: &[u8]) {
        self.reports = self.reports.saturating_add(1);
        self.bytes = self.bytes.saturating_add(report.len());
    }
}

impl fmt::Display for Told {
    fn fmt<W: fmt::Write>(&self, f: &mut fmt::Formatter<W>) -> fmt::Result {
        let Told { reports, bytes } = self;
        write!(f, "{reports} reports of {bytes} bytes")
    }
}

const KINDS: [&str; 2] = ["wear", "label"];

const PILES: [&str; 12] = [
    "relay register",
    "relay flood",
    "allack register",
    "allack flood",
    "board register",
    "board flood",
    "inturn relay register",
    "inturn relay flood",
    "inturn allack register",
    "inturn allack flood",
    "inturn board register",
    "inturn board flood",
];

// Of either kind, note k says k. A `for`, as each turn asks for memory.
fn push_notes(heap: Global, file: &mut String, kind: &str, notes: u32) -> Result<(), AllocError> {
    let before = if kind == "wear" { "0 " } else { "" };
    for note in 0..notes {
        file.push_str(&format!(in heap; "{before}{note}\n")?)?;
    }
    Ok(())
}

fn file_of(heap: Global, size: Size, kind: &str, pile: &str) -> Result<String, AllocError> {
    let Size {
        cards,
        notes,
        events,
    } = size;
    let mut file = format!(in heap;
        "kind {kind}\ncards {cards}\npile {pile}\nnotes {notes}\nevents {events}\n"
    )?;
    push_notes(heap, &mut file, kind, notes)?;
    for event in &size.events(heap)? {
        file.push_str(&format!(in heap; "{event}\n")?)?;
    }
    Ok(file)
}

// A good file reads, whole.
fn try_read(heap: Global, file: &[u8], size: Size) -> anyhow::Result<()> {
    ensure!(check(file).is_ok(), "a good file has a fault");
    match read(heap, file) {
        Ok(Schedule { events, .. }) => {
            ensure!(events.len() == size.events as usize, "events are missing");
            Ok(())
        }
        Err(Unread::Fault(fault)) => bail!("a good file reads with the fault {fault}"),
        Err(Unread::NoMemory) => bail!("no memory for the schedule"),
    }
}

// Every pile with notes of one kind. A `for`, as each turn may fail.
fn try_kind(heap: Global, size: Size, kind: &str, told: &mut Told) -> anyhow::Result<()> {
    for pile in &PILES {
        let file = file_of(heap, size, kind, pile)?;
        try_read(heap, file.as_bytes(), size)?;
        let listed = listing(heap, file.as_bytes())?;
        ensure!(
            listed.is_empty() == (size.notes == 0),
            "a listing of another size"
        );
        told.add(&report(heap, file.as_bytes())?);
    }
    Ok(())
}

pub(crate) fn try_files(heap: Global, size: Size) -> anyhow::Result<Told> {
    let mut told = Told::default();
    for kind in &KINDS {
        try_kind(heap, size, kind, &mut told)?;
    }
    Ok(told)
}
