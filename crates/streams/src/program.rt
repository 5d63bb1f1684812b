// The one call of a program.
ghost use Rattle.std.specs.Prelude.{OnOk, IfSome};
ghost use Rattle.std.specs.Io.KnownBytes.{Appends};
ghost use Rattle.streams.specs.Streams.{Ends};

use crate::answers::Answers;
use crate::failure::Failure;
use crate::read::read_up_to;
use crate::write::write_answer;
use std::alloc::Global;
use std::io::{Read, Write};

// One byte more than the longest input shows that an input is longer.
const MOST: usize = 65537;

// Reads the input, at most 65,537 bytes of it, and writes the answer to it and nothing else. The answer is made whole before any of it is written.
pub fn answer_input<P: Answers, R: Read, W: Write>(
    heap: Global,
    reader: &mut R,
    writer: &mut W,
) -> Result<(), Failure>
    ensures ends { Ends P.Answers.answer_to (R.remaining reader.old) (R.remaining reader.new)
        (W.contents writer.old) (W.contents writer.new) result }
    ensures whole { OnOk result (IfSome (R.remaining reader.old) (λ input.
        Appends (W.contents writer.old) (W.contents writer.new) (P.Answers.answer_to input))) }
{
    let input = read_up_to(heap, reader, MOST)?;
    let answer = P::answer(heap, input.as_slice())?;
    match write_answer(writer, answer.as_slice()) {
        Ok(()) => Ok(()),
        Err(error) => Err(Failure::Writing(error)),
    }
}
