// Parts of a file, and cutting them: at a byte, and into lines.
ghost use Rattle.std.specs.Prelude.{◌≡◌, ◌≤◌, length, position, IfErr, ◌==◌};
ghost use Rattle.std.specs.Option.{option_map};
ghost use Rattle.text.specs.Parts.{part_of, place_of, up_to, whole_of, before, after, both_of, line_of};
ghost use Rattle.text.specs.Faults.{DueIn};

use crate::fault::LineFault;

// Some bytes of a file that stand together. It keeps the place of its end, which a cut from its front leaves as it is.
// No `impl Model`: what is `Copy` and borrows cannot have one yet.
#[derive(Clone, Copy, Debug)]
pub struct Part<'a> {
    bytes: &'a [u8],
    end: usize,
}

impl<'a> Part<'a> {
    pub fn whole(file: &'a [u8]) -> Part<'a>
        ensures { part_of result ≡ whole_of file.now }
    {
        Part {
            bytes: file,
            end: file.len(),
        }
    }

    pub fn bytes(self) -> &'a [u8]
        ensures { result.now ≡ (part_of self.entry).0 }
    {
        let Part { bytes, .. } = self;
        bytes
    }

    // Where its first byte stands in the file.
    pub fn place(self) -> usize
        ensures { result ≡ place_of (part_of self.entry) }
    {
        self.end.saturating_sub(self.bytes.len())
    }

    pub fn is_empty(self) -> bool
        ensures { result ≡ (length (part_of self.entry).0 == 0) }
    {
        self.bytes.is_empty()
    }

    // What stands before the first byte `stop`, and what follows that byte, if it stands here.
    pub fn cut(self, stop: u8) -> (Part<'a>, Option<Part<'a>>)
        ensures front { part_of result.0 ≡ before stop (part_of self.entry) }
        ensures back { option_map part_of result.1 ≡ after stop (part_of self.entry) }
    {
        let (front, back) = self.bytes.split_at(up_to(self.bytes, stop));
        let first = Part {
            bytes: front,
            end: self.end.saturating_sub(back.len()),
        };
        let rest = back.split_first().map(|(_, bytes)| Part { bytes, ..self });
        (first, rest)
    }

    // The first line, without the byte that ends it, and what follows.
    #[tactic(auto, unfolding(crate::specs::Faults::DueIn))]
    pub fn line(self) -> Result<(Part<'a>, Part<'a>), LineFault>
        ensures value { both_of result ≡ line_of (part_of self.entry) }
        ensures case { IfErr result (DueIn (part_of self.entry)) }
    {
        let place = self.place();
        match self.cut(b'\n') {
            (line, Some(rest)) => Ok((line, rest)),
            (_, None) if self.is_empty() => Err(LineFault::Absent { place }),
            (_, None) => Err(LineFault::Wrong { place }),
        }
    }
}

// The place of the first byte `stop`.
fn first(bytes: &[u8], stop: u8) -> Option<usize>
    ensures { result ≡ position (λ b. b == stop) bytes.now }
{
    bytes.iter().position(|byte| *byte == stop)
}

// How many bytes stand before the first byte `stop`, or all of them where it does not stand there.
#[tactic(auto, using(crate::proofs::CutLaws::up_to_le, crate::proofs::CutLaws::up_to_position))]
fn up_to(bytes: &[u8], stop: u8) -> usize
    ensures value { result ≡ up_to stop bytes.now }
    ensures within { result ≤ length bytes.now }
{
    first(bytes, stop).unwrap_or(bytes.len())
}
