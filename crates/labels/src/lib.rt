// Labels: the names that a maker prints on a memory card. A label borrows its bytes from the text that it was read from.
#![tactic(auto)]

ghost use Rattle.std.specs.Prelude.{◌≡◌, true, if◌then◌else◌, Some, None};
ghost use Rattle.std.specs.Option.{option_map};
ghost use Rattle.std.specs.List.{list_all};
ghost use Rattle.labels.specs.Order.{is_label, printable, label_before};
ghost use Rattle.labels.specs.Order.{label_of};

use std::fmt;

// One to eight bytes of 32 to 126, and their place in the caller's text. Only `new` makes one.
// No `impl Model`: what is `Copy` and borrows cannot have one yet.
#[derive(Clone, Copy, Debug)]
pub struct Label<'a> {
    text: &'a [u8],
    at: usize,
}

impl<'a> Label<'a> {
    // The label of these bytes, which stand at `place` in the caller's text; no label where they are not one to eight bytes of 32 to 126.
    #[tactic(auto, using(crate::proofs::Order::each_printable))]
    pub fn new(bytes: &'a [u8], place: usize) -> Option<Label<'a>>
        ensures { option_map label_of result ≡ (if is_label bytes.now then Some (bytes.now, place) else None) }
    {
        let fits = (1..=8).contains(&bytes.len()) && all_printable(bytes);
        fits.then_some(Label {
            text: bytes,
            at: place,
        })
    }

    pub fn bytes(&self) -> &'a [u8]
        ensures { result.now ≡ (label_of self.now).0 }
    {
        self.text
    }

    // Whether it may stand before the other label: byte by byte from the left, a beginning before the longer.
    #[tactic(auto, using(crate::proofs::Order::slice_order))]
    pub fn may_stand_before(&self, other: &Label<'a>) -> bool
        ensures { result ≡ label_before (label_of self.now).0 (label_of other.now).0 }
    {
        self.bytes().cmp(other.bytes()).is_le()
    }

    // Where its first byte stands in the caller's text.
    pub fn place(&self) -> usize
        ensures { result ≡ (label_of self.now).1 }
    {
        self.at
    }
}

fn all_printable(bytes: &[u8]) -> bool
    ensures { result ≡ list_all printable bytes.now }
{
    bytes.iter().all(|byte| (32..=126).contains(byte))
}

// The bytes as text.
impl fmt::Display for Label<'_> {
    ghost output = { λ l. Some (label_of l).0 };

    fn fmt<W: fmt::Write>(&self, f: &mut fmt::Formatter<W>) -> fmt::Result {
        let text = std::str::from_utf8(self.text).map_err(|_| fmt::Error)?;
        f.write_str(text)
    }
}
