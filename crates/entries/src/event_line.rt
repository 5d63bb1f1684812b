// Reading an event.
ghost use Rattle.std.specs.Prelude.{◌≡◌, [], ◌∷◌};
ghost use Rattle.text.specs.Fields.{field_of, number_in, letter_in};
ghost use Rattle.entries.specs.declared.event.Event.{Event as EventType};
ghost use Rattle.entries.specs.Chains.{bind};
ghost use Rattle.entries.specs.Events.{wire_of, event_by, event_of};

use crate::event::{Event, Wire};
use crate::line::OneLine;
use text::field::{Field, Fields};
use text::part::Part;

// The largest number in an event.
const MOST: u32 = 65535;

fn number(field: Field) -> Option<u32>
    ensures { result ≡ number_in 65535 (field_of field.entry) }
{
    field.number(MOST)
}

// The letter is the file format's and the wire is another crate's, so there can be no `TryFrom` of a letter here.
fn wire(field: Field) -> Option<Wire>
    ensures { result ≡ bind (letter_in (field_of field.entry)) wire_of }
{
    match field.letter()? {
        'b' => Some(Wire::Broadcast),
        'c' => Some(Wire::Consensus),
        _ => None,
    }
}

// The event that a letter and one field say. Each letter makes another event.
fn of_one(letter: char, field: Field) -> Option<Event>
    ensures { result ≡ event_by letter (field_of field.entry ∷ []) }
{
    let number = number(field)?;
    match letter {
        'p' => Some(Event::Propose { card: number }),
        't' => Some(Event::Take { card: number }),
        'x' => Some(Event::Crash { card: number }),
        'r' => Some(Event::Settle { limit: number }),
        _ => None,
    }
}

// The event that a letter and two fields say. Each letter makes another event.
fn of_two(letter: char, first: Field, second: Field) -> Option<Event>
    ensures { result ≡ event_by letter (field_of first.entry ∷ field_of second.entry ∷ []) }
{
    match letter {
        'b' => Some(Event::Post {
            card: number(first)?,
            note: number(second)?,
        }),
        's' => Some(Event::Suspect {
            by: number(first)?,
            card: number(second)?,
        }),
        'c' => Some(Event::Carry {
            wire: wire(first)?,
            item: number(second)?,
        }),
        'l' => Some(Event::Lose {
            wire: wire(first)?,
            item: number(second)?,
        }),
        _ => None,
    }
}

impl<'a> OneLine<'a> for Event {
    ghost Said = { EventType };

    ghost said = { λ e. e };

    ghost rule = { event_of };

    fn from_line(line: Part<'a>) -> Option<Event> {
        match line.fields() {
            Fields::Two(letter, field) => of_one(letter.letter()?, field),
            Fields::Three(letter, first, second) => of_two(letter.letter()?, first, second),
            Fields::One(_) | Fields::Four(_, _, _, _) | Fields::More => None,
        }
    }
}
