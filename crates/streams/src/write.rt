// Writing the whole answer.
ghost use Rattle.std.specs.Prelude.{OnOk, OnErr};
ghost use Rattle.std.specs.Io.KnownBytes.{Appends};
ghost use Rattle.streams.specs.Streams.{WritesSome};

use std::io;
use std::io::{ErrorKind, Write};

#[tactic(auto, using(crate::proofs::Pieces::some_of_whole))]
pub(crate) fn write_answer<W: Write>(writer: &mut W, answer: &[u8]) -> io::Result<()>
    ensures whole { OnOk result
        (Appends (W.contents writer.old) (W.contents writer.new) answer.now) }
    ensures some { OnErr result
        (WritesSome (W.contents writer.old) (W.contents writer.new) answer.now) }
{
    send(writer, answer)?;
    writer.flush()
}

// A write that was interrupted is tried again. The turns are counted as in reading.
fn send<W: Write>(writer: &mut W, bytes: &[u8]) -> io::Result<()>
    ensures whole { OnOk result
        (Appends (W.contents writer.old) (W.contents writer.new) bytes.now) }
    ensures some { OnErr result
        (WritesSome (W.contents writer.old) (W.contents writer.new) bytes.now) }
{
    let mut sent = 0;
    'writes: for _ in 0..u64::MAX {
        if sent >= bytes.len() {
            return Ok(());
        }
        match writer.write(&bytes[sent..]) {
            Ok(0) => return Err(io::Error::from(ErrorKind::WriteZero)),
            Ok(n) => sent += n,
            Err(e) => {
                if e.kind() != ErrorKind::Interrupted {
                    return Err(e);
                }
            }
        }
    }
    Err(io::Error::from(ErrorKind::TimedOut))
}
