// Calls on a carrier as values, and their answers.
use parts::refusal::Refusal;
pub use parts::wires::Wire;

// One variant for each kind of call. It is not the `Event` of a file, since a carrier is called with any number.
#[derive(Clone, Copy, PartialEq, Eq, Debug)]
pub enum Call {
    // A card posts a note: the card, then the note.
    Post(usize, usize),
    // An item of a wire arrives.
    Carry(Wire, usize),
    // An item of a wire is lost, as only those of crashed senders are.
    Lose(Wire, usize),
    Crash(usize),
    // The first card suspects the second.
    Suspect(usize, usize),
    Propose(usize),
    Take(usize),
    // Settle, with at most so many steps.
    Settle(usize),
}

// What settle did: how many steps it made, and whether the carrier was then at rest.
#[derive(Clone, Copy, PartialEq, Eq, Debug)]
pub struct Settling {
    pub steps: usize,
    pub at_rest: bool,
}

// A settle tells what it did; any other call only whether it is accepted.
pub type Answer = Result<Option<Settling>, Refusal>;
