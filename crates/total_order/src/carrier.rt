// The carrier.

use logs::log::Log;
use logs::ranking::Ranking;

// Where a card has come to: its log, and the instance of consensus in which it takes next.
#[derive(Drop)]
struct Progress {
    log: Log,
    instance: usize,
}

// There is room for six cards. Logs of cards that the carrier has not stay empty.
// Contracts see a carrier by `model`: a Model's `Value` could not be made of the states of the two bounds.
#[derive(Drop)]
pub struct Carrier<B, C> {
    broadcast: B,
    consensus: C,
    ranking: Ranking,
    cards: [Progress; 6],
    steps: usize,
}

mod calling;
mod cards;
mod making;
mod moves;
mod settling;
