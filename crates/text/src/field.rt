// Fields of a line.
ghost use Rattle.std.specs.Prelude.{◌≡◌};
ghost use Rattle.std.specs.Option.{option_map};
ghost use Rattle.labels.specs.Order.{label_of};
ghost use Rattle.text.specs.Parts.{part_of};
ghost use Rattle.text.specs.Fields.{field_of, fields_of, read_field, read_uncut, UncutSays};
ghost use Rattle.text.specs.Fields.{cut_fields, number_in, letter_in, is_word, label_in};

use crate::number::number;
use crate::part::Part;
use labels::Label;

// A word and a label are parts of the file, each with its place.
#[derive(Clone, Copy, Debug)]
pub enum Field<'a> {
    // Decimal digits of a number of up to 32 bits, without leading zeros.
    Number(u32),
    // Anything else between spaces, even nothing.
    Word(Part<'a>),
    // One to eight bytes of 32 to 126, spaces among them: a line that is not cut.
    Label(Label<'a>),
}

// The fields of a line; no line of a schedule has more than four. An enum and no list: a line is told by how many it has.
#[derive(Clone, Copy, Debug)]
pub enum Fields<'a> {
    One(Field<'a>),
    Two(Field<'a>, Field<'a>),
    Three(Field<'a>, Field<'a>, Field<'a>),
    Four(Field<'a>, Field<'a>, Field<'a>, Field<'a>),
    More,
}

impl<'a> Part<'a> {
    // The part as one field: a number, or else a word. The check does not follow `map` here, whose result names a lifetime that a number does not.
    pub fn field(self) -> Field<'a>
        ensures { field_of result ≡ read_field (part_of self.entry) }
    {
        match number(self.bytes()) {
            Some(value) => Field::Number(value),
            None => Field::Word(self),
        }
    }

    // The part as one field to which its spaces belong: a label, or else a word.
    #[tactic(auto, using(crate::proofs::UncutLaws::label_says))]
    pub fn uncut_field(self) -> Field<'a>
        ensures value { field_of result ≡ read_uncut (part_of self.entry) }
        ensures says { UncutSays (part_of self.entry) (field_of result) }
    {
        match Label::new(self.bytes(), self.place()) {
            Some(label) => Field::Label(label),
            None => Field::Word(self),
        }
    }

    // The fields that single spaces part. Each number of them is a variant of its own, so each cut has its own answer.
    pub fn fields(self) -> Fields<'a>
        ensures { fields_of result ≡ cut_fields 4 (part_of self.entry) }
    {
        let (first, rest) = self.cut(b' ');
        let Some(rest) = rest else {
            return Fields::One(first.field());
        };
        let (second, rest) = rest.cut(b' ');
        let Some(rest) = rest else {
            return Fields::Two(first.field(), second.field());
        };
        let (third, rest) = rest.cut(b' ');
        let Some(rest) = rest else {
            return Fields::Three(first.field(), second.field(), third.field());
        };
        let (fourth, rest) = rest.cut(b' ');
        match rest {
            None => Fields::Four(first.field(), second.field(), third.field(), fourth.field()),
            Some(_) => Fields::More,
        }
    }
}

impl<'a> Field<'a> {
    // The number that the field is, if it is not above `most`.
    pub fn number(self, most: u32) -> Option<u32>
        ensures { result ≡ number_in most (field_of self.entry) }
    {
        match self {
            Field::Number(value) if value <= most => Some(value),
            Field::Number(_) | Field::Word(_) | Field::Label(_) => None,
        }
    }

    // The letter that the field is, if it is a word of one byte.
    pub fn letter(self) -> Option<char>
        ensures { result ≡ letter_in (field_of self.entry) }
    {
        match self {
            Field::Word(word) => match word.bytes() {
                [byte] => Some(char::from(*byte)),
                _ => None,
            },
            Field::Number(_) | Field::Label(_) => None,
        }
    }

    // Whether the field is this word.
    pub fn is_word(self, word: &[u8]) -> bool
        ensures { result ≡ is_word word.now (field_of self.entry) }
    {
        matches!(self, Field::Word(part) if part.bytes() == word)
    }
    // The label that the field is.
    pub fn label(self) -> Option<Label<'a>>
        ensures { option_map label_of result ≡ label_in (field_of self.entry) }
    {
        match self {
            Field::Label(label) => Some(label),
            Field::Number(_) | Field::Word(_) => None,
        }
    }
}
