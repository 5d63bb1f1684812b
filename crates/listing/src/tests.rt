// Readers and writers that give and take little, and that fail.
use crate::program::Listing;
use std::alloc::Global;
use std::io;
use std::io::{ErrorKind, Read, Write};
use std::test::Fail;
use streams::failure::Failure;
use streams::program::answer_input;

const FILE: &str =
    "kind wear\ncards 2\npile board register\nnotes 4\nevents 1\n7 120\n3 55\n7 9\n3 55\nb 0 0\n";

const LISTED: &str = "0 1 3 55\n1 3 3 55\n2 2 7 9\n3 0 7 120\n";

// Gives so many bytes at each read, and after so many reads an error.
#[derive(Drop)]
struct Pieces<'a> {
    rest: &'a [u8],
    piece: usize,
    reads: usize,
    error: ErrorKind,
}

impl Read for Pieces<'_> {
    fn read(&mut self, buf: &mut [u8]) -> io::Result<usize> {
        if self.reads == 0 {
            self.reads = usize::MAX;
            return Err(io::Error::from(self.error));
        }
        self.reads -= 1;
        let count = self.piece.min(buf.len()).min(self.rest.len());
        let (front, rest) = self.rest.split_at(count);
        buf[..count].copy_from_slice(front);
        self.rest = rest;
        Ok(count)
    }
}

// Never ends, and counts what it gives.
#[derive(Drop)]
struct Endless {
    given: usize,
}

impl Read for Endless {
    fn read(&mut self, buf: &mut [u8]) -> io::Result<usize> {
        self.given = self.given.saturating_add(buf.len());
        Ok(buf.len())
    }
}

// Takes so many bytes at each write, and after so many writes gives an error.
#[derive(Drop)]
struct Narrow {
    taken: Vec<u8>,
    piece: usize,
    writes: usize,
    error: ErrorKind,
}

impl Write for Narrow {
    fn write(&mut self, buf: &[u8]) -> io::Result<usize> {
        if self.writes == 0 {
            self.writes = usize::MAX;
            return Err(io::Error::from(self.error));
        }
        self.writes -= 1;
        let count = self.piece.min(buf.len());
        self.taken.extend_from_slice(&buf[..count])?;
        Ok(count)
    }

    fn flush(&mut self) -> io::Result<()> {
        Ok(())
    }
}

fn in_pieces(piece: usize, reads: usize, error: ErrorKind) -> Pieces<'static> {
    Pieces {
        rest: FILE.as_bytes(),
        piece,
        reads,
        error,
    }
}

fn taking(heap: Global, piece: usize, writes: usize, error: ErrorKind) -> Narrow {
    Narrow {
        taken: Vec::new(heap),
        piece,
        writes,
        error,
    }
}

// Each failure prints. What the system says of its own stands behind it.
#[test]
fn failures_print(rt: HostRuntime) -> Result<(), Fail> {
    for (failure, words) in [
        (
            Failure::Reading(io::Error::from(ErrorKind::TimedOut)),
            "the input cannot be read: ",
        ),
        (Failure::Memory, "no memory for the answer"),
        (
            Failure::Writing(io::Error::from(ErrorKind::WriteZero)),
            "the answer cannot be written: ",
        ),
    ] {
        let text = format!(in rt.alloc(); "{failure}")?;
        assert!(rt; text.as_str().starts_with(words), "{words}");
    }
    Ok(())
}

#[test]
fn pieces_are_put_together(rt: HostRuntime) {
    for piece in [1, 7, 100000] {
        let mut reader = in_pieces(piece, usize::MAX, ErrorKind::Other);
        let mut writer = taking(rt.alloc(), piece, usize::MAX, ErrorKind::Other);
        let result = answer_input::<Listing, _, _>(rt.alloc(), &mut reader, &mut writer);
        assert!(rt; result.is_ok(), "pieces of {piece}");
        assert_eq!(rt;
            writer.taken.as_slice(),
            LISTED.as_bytes(),
            "pieces of {piece}"
        );
    }
}

#[test]
fn a_failed_read_is_an_error_and_writes_nothing(rt: HostRuntime) {
    for reads in [0, 1, 20, 80] {
        let mut reader = in_pieces(1, reads, ErrorKind::Other);
        let mut writer = taking(rt.alloc(), 1, usize::MAX, ErrorKind::Other);
        let result = answer_input::<Listing, _, _>(rt.alloc(), &mut reader, &mut writer);
        assert!(rt;
            matches!(&result, Err(Failure::Reading(_))),
            "after {reads} reads"
        );
        assert!(rt; writer.taken.is_empty(), "after {reads} reads");
    }
}

#[test]
fn a_failed_write_is_an_error_and_leaves_a_beginning(rt: HostRuntime) {
    for writes in [0, 1, 20, 35] {
        let mut reader = in_pieces(1, usize::MAX, ErrorKind::Other);
        let mut writer = taking(rt.alloc(), 1, writes, ErrorKind::Other);
        let result = answer_input::<Listing, _, _>(rt.alloc(), &mut reader, &mut writer);
        assert!(rt;
            matches!(&result, Err(Failure::Writing(_))),
            "after {writes} writes"
        );
        assert_eq!(rt;
            writer.taken.as_slice(),
            &LISTED.as_bytes()[..writes],
            "after {writes} writes"
        );
    }
}

#[test]
fn what_was_interrupted_is_tried_again(rt: HostRuntime) {
    let mut reader = in_pieces(1, 20, ErrorKind::Interrupted);
    let mut writer = taking(rt.alloc(), 1, 20, ErrorKind::Interrupted);
    let result = answer_input::<Listing, _, _>(rt.alloc(), &mut reader, &mut writer);
    assert!(rt; result.is_ok());
    assert_eq!(rt; writer.taken.as_slice(), LISTED.as_bytes());
}

#[test]
fn no_more_is_read_than_shows_that_there_is_more(rt: HostRuntime) {
    let mut reader = Endless { given: 0 };
    let mut writer = taking(rt.alloc(), 100, usize::MAX, ErrorKind::Other);
    let result = answer_input::<Listing, _, _>(rt.alloc(), &mut reader, &mut writer);
    assert!(rt; result.is_ok());
    assert_eq!(rt; reader.given, 65537);
    assert_eq!(rt; writer.taken.as_slice(), "bad 11 65536 file\n".as_bytes());
}
