// Reading the contents.
ghost use Rattle.std.specs.Prelude.{◌≡◌, IfErr};
ghost use Rattle.std.specs.Range.{range_inclusive_start, range_inclusive_end};
ghost use Rattle.text.specs.Faults.{DueIn};
ghost use Rattle.text.specs.Parts.{part_of};
ghost use Rattle.text.specs.Fields.{field_of};
ghost use Rattle.schedule.specs.declared.contents.NoteKind.{NoteKind as KindType};
ghost use Rattle.schedule.specs.declared.contents.Pile.{Pile as PileType};
ghost use Rattle.entries.specs.Lines.{line_by, seen_line, same_value};
ghost use Rattle.schedule.specs.Says.{ContentsSays};
ghost use Rattle.schedule.specs.Contents.{kind_in, kind_of, broadcast_in, consensus_in, pile_in, pile_of, count_in, count_of, contents_of};

use crate::contents::{BroadcastPart, ConsensusPart, Contents, NoteKind, Pile};
use entries::line::{OneLine, first_line};
use std::ops::RangeInclusive;
use text::fault::LineFault;
use text::field::{Field, Fields};
use text::part::Part;

// The words of the contents. No `TryFrom`: whoever reads a line asks for an Option, and an error would be dropped at once.
#[tactic(auto, using(crate::proofs::WordLaws::five_bytes))]
fn kind(word: Field) -> Option<NoteKind>
    ensures { result ≡ kind_in (field_of word.entry) }
{
    let Field::Word(word) = word else {
        return None;
    };
    match word.bytes() {
        b"wear" => Some(NoteKind::Wear),
        b"label" => Some(NoteKind::Label),
        _ => None,
    }
}

impl<'a> OneLine<'a> for NoteKind {
    ghost Said = { KindType };

    ghost said = { λ k. k };

    ghost rule = { kind_of };

    fn from_line(line: Part<'a>) -> Option<NoteKind> {
        match line.fields() {
            Fields::Two(key, word) if key.is_word(b"kind") => kind(word),
            _ => None,
        }
    }
}

#[tactic(auto, using(crate::proofs::WordLaws::five_bytes, crate::proofs::WordLaws::six_bytes))]
fn broadcast(word: Field) -> Option<BroadcastPart>
    ensures { result ≡ broadcast_in (field_of word.entry) }
{
    let Field::Word(word) = word else {
        return None;
    };
    match word.bytes() {
        b"relay" => Some(BroadcastPart::Relay),
        b"allack" => Some(BroadcastPart::AllAck),
        b"board" => Some(BroadcastPart::Board),
        _ => None,
    }
}

#[tactic(auto, using(crate::proofs::WordLaws::five_bytes, crate::proofs::WordLaws::eight_bytes))]
fn consensus(word: Field) -> Option<ConsensusPart>
    ensures { result ≡ consensus_in (field_of word.entry) }
{
    let Field::Word(word) = word else {
        return None;
    };
    match word.bytes() {
        b"flood" => Some(ConsensusPart::Flood),
        b"register" => Some(ConsensusPart::Register),
        _ => None,
    }
}

// The pile of two parts, with the in-turn layer or without.
fn pile(in_turn: bool, lower: Field, upper: Field) -> Option<Pile>
    ensures { result ≡ pile_in in_turn (field_of lower.entry) (field_of upper.entry) }
{
    Some(Pile {
        in_turn,
        broadcast: broadcast(lower)?,
        consensus: consensus(upper)?,
    })
}

impl<'a> OneLine<'a> for Pile {
    ghost Said = { PileType };

    ghost said = { λ p. p };

    ghost rule = { pile_of };

    fn from_line(line: Part<'a>) -> Option<Pile> {
        match line.fields() {
            Fields::Three(key, lower, upper) if key.is_word(b"pile") => pile(false, lower, upper),
            Fields::Four(key, layer, lower, upper)
                if key.is_word(b"pile") && layer.is_word(b"inturn") => pile(true, lower, upper),
            _ => None,
        }
    }
}

fn number(field: Field, range: RangeInclusive<u32>) -> Option<u32>
    ensures { result ≡ count_in (range_inclusive_start range) (range_inclusive_end range) (field_of field.entry) }
{
    let value = field.number(*range.end())?;
    (*range.start() <= value).then_some(value)
}

// The number after a key word, if it is in its range.
fn count(line: Part, key: &[u8], range: RangeInclusive<u32>) -> Option<u32>
    ensures { result ≡ count_of key.now (range_inclusive_start range) (range_inclusive_end range) (part_of line.entry) }
{
    match line.fields() {
        Fields::Two(word, field) if word.is_word(key) => number(field, range),
        _ => None,
    }
}

// As `first_line`, which takes no rule as a closure, since no public call requires anything; a type for each count would take three impls in place of this.
fn count_line<'a>(
    rest: Part<'a>,
    key: &[u8],
    range: RangeInclusive<u32>,
) -> Result<(u32, Part<'a>), LineFault>
    ensures { seen_line same_value result ≡ line_by (count_of key.now (range_inclusive_start range) (range_inclusive_end range)) (part_of rest.entry) }
{
    let place = rest.place();
    let (line, after) = rest.line()?;
    let value = count(line, key, range).ok_or(LineFault::Wrong { place })?;
    Ok((value, after))
}

impl Contents {
    // The contents that stand first, and what follows them, or the first line that is wrong.
    #[tactic(auto, using(crate::proofs::ContentsWhole::contents_say, crate::proofs::ContentsWhole::contents_due))]
    pub fn read<'a>(file: Part<'a>) -> Result<(Contents, Part<'a>), LineFault>
        ensures value { seen_line same_value result ≡ contents_of (part_of file.entry) }
        ensures says { ContentsSays (part_of file.entry) (seen_line same_value result) }
        ensures case { IfErr result (DueIn (part_of file.entry)) }
    {
        let (kind, rest) = first_line(file)?;
        let (cards, rest) = count_line(rest, b"cards", 1..=6)?;
        let (pile, rest) = first_line(rest)?;
        let (notes, rest) = count_line(rest, b"notes", 0..=32)?;
        let (events, rest) = count_line(rest, b"events", 0..=4096)?;
        let contents = Contents {
            kind,
            cards,
            pile,
            notes,
            events,
        };
        Ok((contents, rest))
    }
}
