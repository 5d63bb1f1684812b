// Reading to the end of the input, or as far as is needed.
ghost use Rattle.std.specs.Prelude.{◌≡◌, ◌+◌, ◌≤◌, ◌<◌, length, take, drop, IfOk, IfErr, OnErr};
ghost use Rattle.std.specs.Io.KnownBytes.{Consumes, Keeps, IsAtEnd};
ghost use Rattle.streams.specs.Streams.{Reads, ReadsAtMost, BreaksOffReading};

use crate::failure::Failure;
use std::alloc::Global;
use std::io;
use std::io::{ErrorKind, Read};

// The bytes of the input, up to so many.
pub(crate) fn read_up_to<R: Read>(
    heap: Global,
    reader: &mut R,
    most: usize,
) -> Result<Vec<u8>, Failure>
    ensures read { IfOk result (λ input.
        Reads most (R.remaining reader.old) (R.remaining reader.new) input.items) }
    ensures failed { IfErr result
        (BreaksOffReading most (R.remaining reader.old) (R.remaining reader.new)) }
{
    let mut input = vec![in heap; 0; most]?;
    match fill(reader, input.as_mut_slice()) {
        Ok(count) => {
            input.truncate(count);
            Ok(input)
        }
        Err(error) => Err(Failure::Reading(error)),
    }
}

// Reads until the buffer is full or the input ends, and says how many bytes were read. A read that was interrupted is tried again. The turns
// are counted, so that the loop ends whatever the reader does.
fn fill<R: Read>(reader: &mut R, buffer: &mut [u8]) -> io::Result<usize>
    ensures room { length buffer.new ≡ length buffer.old }
    ensures read { IfOk result (λ n. (n ≤ length buffer.new)
        × Reads (length buffer.new) (R.remaining reader.old) (R.remaining reader.new) (take n buffer.new)) }
    ensures failed { OnErr result
        (ReadsAtMost (length buffer.new) (R.remaining reader.old) (R.remaining reader.new)) }
{
    let mut filled = 0;
    'reads: for _ in 0..u64::MAX {
        if filled >= buffer.len() {
            return Ok(filled);
        }
        match read_behind(reader, buffer, filled) {
            Ok(0) => return Ok(filled),
            Ok(n) => filled += n,
            Err(e) => {
                if e.kind() != ErrorKind::Interrupted {
                    return Err(e);
                }
            }
        }
    }
    Err(io::Error::from(ErrorKind::TimedOut))
}

// One read into the buffer, behind what it has been filled with.
fn read_behind<R: Read>(reader: &mut R, buffer: &mut [u8], filled: usize) -> io::Result<usize>
    requires { filled < length buffer.old }
    ensures room { length buffer.new ≡ length buffer.old }
    ensures front { take filled buffer.new ≡ take filled buffer.old }
    ensures fits { IfOk result (λ n. filled + n ≤ length buffer.new) }
    ensures read { IfOk result (λ n.
        Consumes (R.remaining reader.old) (R.remaining reader.new) (take n (drop filled buffer.new))) }
    ensures end { IfOk result (λ n. n ≡ 0 → IsAtEnd (R.remaining reader.new)) }
    ensures failed { OnErr result (Keeps (R.remaining reader.old) (R.remaining reader.new)) }
{
    reader.read(&mut buffer[filled..])
}
