// What the contents of a schedule file say of it.

// Every note of a schedule has one kind.
#[derive(Clone, Copy, Debug, PartialEq, Eq)]
pub enum NoteKind {
    Wear,
    Label,
}

// The broadcast that hands posted notes to the cards.
#[derive(Clone, Copy, Debug, PartialEq, Eq)]
pub enum BroadcastPart {
    Relay,
    AllAck,
    Board,
}

// The consensus in which the cards settle what comes next.
#[derive(Clone, Copy, Debug, PartialEq, Eq)]
pub enum ConsensusPart {
    Flood,
    Register,
}

// The parts that the carrier is piled up from: the in-turn layer stands over the broadcast, or is left out.
#[derive(Clone, Copy, Debug, PartialEq, Eq)]
pub struct Pile {
    pub in_turn: bool,
    pub broadcast: BroadcastPart,
    pub consensus: ConsensusPart,
}

#[derive(Clone, Copy, Debug, PartialEq, Eq)]
pub struct Contents {
    pub kind: NoteKind,
    // How many cards the carrier has, 1 to 6.
    pub cards: u32,
    pub pile: Pile,
    // How many lines of notes follow, 0 to 32.
    pub notes: u32,
    // How many lines of events follow those, 0 to 4096.
    pub events: u32,
}
