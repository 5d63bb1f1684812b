// Events: the calls that a schedule makes on the carrier, one after the other.

ghost use Rattle.std.specs.Prelude.{◌≡◌, Some};
ghost use Rattle.entries.specs.Written.{wire_word, event_text};

pub use parts::wires::Wire;
use std::fmt;

#[derive(Clone, Copy, Debug, PartialEq, Eq)]
pub enum Event {
    // The card posts the note.
    Post { card: u32, note: u32 },
    // The card proposes its waiting notes.
    Propose { card: u32 },
    // The card takes what was decided.
    Take { card: u32 },
    Crash { card: u32 },
    // One card suspects another of having crashed.
    Suspect { by: u32, card: u32 },
    // An item of a wire arrives.
    Carry { wire: Wire, item: u32 },
    // An item of a wire is lost.
    Lose { wire: Wire, item: u32 },
    // The carrier works on by itself, up to so many steps.
    Settle { limit: u32 },
}

// A wire's letter is the file format's, so it is said here and no `Display` of the wire.
fn word(wire: Wire) -> &'static str
    ensures { result.now ≡ wire_word wire }
{
    match wire {
        Wire::Broadcast => "b",
        Wire::Consensus => "c",
    }
}

// The line of the event, without its end. Each event has a line of another form.
impl fmt::Display for Event {
    ghost output = { λ e. Some (event_text e) };

    fn fmt<W: fmt::Write>(&self, f: &mut fmt::Formatter<W>) -> fmt::Result {
        match *self {
            Event::Post { card, note } => write!(f, "b {card} {note}"),
            Event::Propose { card } => write!(f, "p {card}"),
            Event::Take { card } => write!(f, "t {card}"),
            Event::Crash { card } => write!(f, "x {card}"),
            Event::Suspect { by, card } => write!(f, "s {by} {card}"),
            Event::Carry { wire, item } => {
                let wire = word(wire);
                write!(f, "c {wire} {item}")
            }
            Event::Lose { wire, item } => {
                let wire = word(wire);
                write!(f, "l {wire} {item}")
            }
            Event::Settle { limit } => write!(f, "r {limit}"),
        }
    }
}
