// What the reader answers to each file of a table, and to files that are made here.
#![tactic(auto)]

mod files;
mod table;

use faults::{BodyFault, FileFault};
use files::{BASE, extreme, longest, padded, spoiled};
use reader::file::{Notes, Schedule, Unread};
use reader::read::read;
use std::alloc::{AllocError, Global};
use std::{fmt, io};
use table::unescaped;
use text::fault::LineFault;

// Whether a line is wrong or absent.
fn manner(fault: FileFault) -> &'static str {
    match fault {
        FileFault::Contents(LineFault::Absent { .. })
        | FileFault::Body(
            BodyFault::Notes(LineFault::Absent { .. })
            | BodyFault::Events(LineFault::Absent { .. }),
        ) => ", absent",
        _ => "",
    }
}

// Notes or events as a file has them.
fn report_lines<T: fmt::Display>(rt: &HostRuntime, things: &[T]) -> io::Result<()> {
    for thing in things {
        println!(rt; "  | {thing}")?;
    }
    Ok(())
}

// A short schedule is shown whole, and then as it is written.
fn report_schedule(rt: &HostRuntime, name: &str, schedule: Schedule) -> io::Result<()> {
    let Schedule {
        contents,
        notes,
        events,
    } = schedule;
    let count = events.len();
    println!(rt; "{name}: good, {count} events")?;
    if count > 10 {
        return Ok(());
    }
    println!(rt; "  {contents:?}")?;
    // Each arm prints notes of another type.
    match notes {
        Notes::Wears(wears) => {
            println!(rt; "  {wears:?}")?;
            report_lines(rt, &wears)?;
        }
        Notes::Labels(labels) => {
            println!(rt; "  {labels:?}")?;
            report_lines(rt, &labels)?;
        }
    }
    println!(rt; "  {events:?}")?;
    report_lines(rt, &events)
}

fn report(rt: &HostRuntime, name: &str, file: &[u8]) -> io::Result<()> {
    match read(rt.alloc(), file) {
        Ok(schedule) => report_schedule(rt, name, schedule),
        Err(Unread::Fault(fault)) => {
            let manner = manner(fault);
            println!(rt; "{name}: bad {fault}{manner}")
        }
        Err(Unread::NoMemory) => println!(rt; "{name}: no memory"),
    }
}

// The table, on standard input: a name and a file in quotes to a line.
fn report_table(rt: &HostRuntime) -> io::Result<()> {
    for line in rt.lines(rt.alloc()) {
        let line = line?;
        if let Some((name, quoted)) = line.as_str().split_once('"') {
            let file = unescaped(rt.alloc(), quoted.as_bytes())?;
            report(rt, name.trim_end(), &file)?;
        }
    }
    Ok(())
}

// A good file that ends too early, at every byte. A `for`, as each turn may fail.
fn report_cuts(rt: &HostRuntime) -> io::Result<()> {
    for n in 0..BASE.len() {
        let name = format!(in rt.alloc(); "cut at {n}")?;
        report(rt, &name, &BASE[..n])?;
    }
    Ok(())
}

// A good file with one byte made 255, at every place. A `for`, as each turn may fail.
fn report_spoiled(rt: &HostRuntime) -> io::Result<()> {
    for n in 0..BASE.len() {
        let name = format!(in rt.alloc(); "byte {n} spoiled")?;
        let file = spoiled(rt.alloc(), n)?;
        report(rt, &name, &file)?;
    }
    Ok(())
}

fn report_long(rt: &HostRuntime) -> io::Result<()> {
    let longest = longest(rt.alloc())?;
    let file = longest.as_bytes();
    let length = file.len();
    println!(rt; "the longest good file has {length} bytes")?;
    let room = 65536usize.saturating_sub(length);
    let cases = [
        ("longest", file, 0),
        ("longest and one byte", file, 1),
        ("65536 bytes", file, room),
        ("65537 bytes", file, room.saturating_add(1)),
        ("65536 bytes of surplus alone", b"", 65536),
        ("65537 bytes of surplus alone", b"", 65537),
    ];
    for (name, start, more) in cases {
        report(rt, name, &padded(rt.alloc(), start, more)?)?;
    }
    Ok(())
}

// Whether the file reads, with so many notes and events.
fn reads(heap: Global, file: &[u8], note_count: usize, event_count: usize) -> bool {
    let Ok(Schedule { notes, events, .. }) = read(heap, file) else {
        return false;
    };
    let noted = match notes {
        Notes::Wears(wears) => wears.len(),
        Notes::Labels(labels) => labels.len(),
    };
    noted == note_count && events.len() == event_count
}

// With how many numbers of cards, of 1 to 6, a file of these notes and events reads.
fn cards_read(
    heap: Global,
    kind: &str,
    note_count: usize,
    event_count: usize,
) -> Result<u32, AllocError> {
    let mut good = 0u32;
    for cards in 1..=6 {
        let file = extreme(heap, kind, cards, note_count, event_count)?;
        if reads(heap, file.as_bytes(), note_count, event_count) {
            good = good.saturating_add(1);
        }
    }
    Ok(good)
}

// How many files of these notes read, with few and with many events.
fn report_extreme(rt: &HostRuntime, kind: &str, note_count: usize) -> io::Result<()> {
    let mut good = 0u32;
    for event_count in [0, 1, 31, 999, 1000, 1001, 4096] {
        let more = cards_read(rt.alloc(), kind, note_count, event_count)?;
        good = good.saturating_add(more);
    }
    println!(rt; "{note_count} notes of kind {kind}: {good} of 42 files read")
}

// The smallest and the largest books and schedules, and some beside them. A `for`, as each turn may fail.
fn report_extremes(rt: &HostRuntime) -> io::Result<()> {
    for note_count in [0, 1, 31, 32] {
        report_extreme(rt, "wear", note_count)?;
        report_extreme(rt, "label", note_count)?;
    }
    Ok(())
}

fn main(rt: HostRuntime) -> io::Result<()> {
    report_table(&rt)?;
    report_cuts(&rt)?;
    report_spoiled(&rt)?;
    report_long(&rt)?;
    report_extremes(&rt)
}
