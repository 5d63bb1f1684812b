// Reading a note.
ghost use Rattle.std.specs.Prelude.{ℕ, List};
ghost use Rattle.labels.specs.Order.{label_of};
ghost use Rattle.notes.specs.declared.wear.Wear.{Wear as WearType};
ghost use Rattle.entries.specs.Notes.{wear_of, label_at};

use crate::line::OneLine;
use labels::Label;
use notes::wear::Wear;
use text::field::Fields;
use text::part::Part;

// A block and its erase count.
impl<'a> OneLine<'a> for Wear {
    ghost Said = { WearType };

    ghost said = { λ w. w };

    ghost rule = { wear_of };

    fn from_line(line: Part<'a>) -> Option<Wear> {
        let Fields::Two(block, erases) = line.fields() else {
            return None;
        };
        Some(Wear {
            block: block.number(u32::MAX)?,
            erases: erases.number(u32::MAX)?,
        })
    }
}

// The whole line, with its place.
impl<'a> OneLine<'a> for Label<'a> {
    ghost Said = { List ℕ × ℕ };

    ghost said = { label_of };

    ghost rule = { label_at };

    fn from_line(line: Part<'a>) -> Option<Label<'a>> {
        line.uncut_field().label()
    }
}
