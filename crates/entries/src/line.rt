// What one line of a body says.
ghost use Rattle.std.specs.Prelude.{◌≡◌, Option, IfErr};
ghost use Rattle.std.specs.Option.{option_map};
ghost use Rattle.text.specs.Parts.{Span, part_of};
ghost use Rattle.text.specs.Faults.{DueIn};
ghost use Rattle.entries.specs.Lines.{line_by, seen_line};

use text::fault::LineFault;
use text::part::Part;

// A note or an event, which one line says.
pub trait OneLine<'a>: Sized {
    // What it stands for.
    ghost Said: { Type 0 };

    ghost said: { Self → Said };

    // What a line says, if anything.
    ghost rule: { Span → Option Said };

    fn from_line(line: Part<'a>) -> Option<Self>
        ensures { option_map said result ≡ rule (part_of line.entry) };
}

// What the first line says, and what follows it.
#[tactic(auto, using(crate::proofs::DueLaws::wrong_due))]
pub fn first_line<'a, T: OneLine<'a>>(rest: Part<'a>) -> Result<(T, Part<'a>), LineFault>
    ensures value { seen_line T.said result ≡ line_by T.rule (part_of rest.entry) }
    ensures case { IfErr result (DueIn (part_of rest.entry)) }
{
    let place = rest.place();
    let (line, after) = rest.line()?;
    let value = T::from_line(line).ok_or(LineFault::Wrong { place })?;
    Ok((value, after))
}
