ghost use Rattle.std.specs.Prelude.{◌≡◌, length, IfOk};
ghost use Rattle.logs.specs.Orders.{in_ranking_order, RankingOrder};
ghost use Rattle.total_order.specs.Carrying.{fresh, cards_of};
ghost use Rattle.total_order.specs.Models.{model};

use super::{Carrier, Progress};
use logs::log::Log;
use logs::ranking::Ranking;
use notes::kind::Kind;
use parts::broadcast::Broadcast;
use parts::consensus::Consensus;
use std::alloc::{AllocError, Global};
use std::array;

impl<B: Broadcast + Drop, C: Consensus + Drop> Carrier<B, C> {
    // A number of cards above 6 makes none, and so does a book above 32 notes. Only here memory can be wanting.
    pub fn new<K: Kind>(heap: Global, cards: usize, book: &[K]) -> Result<Self, AllocError>
        ensures fresh { IfOk result (λ k. model B.Broadcast C.Consensus k ≡ fresh B.Broadcast C.Consensus (cards_of cards (length book.now)) (in_ranking_order K.Kind.precedes book.now)) }
        ensures ranked { IfOk result (λ k. RankingOrder K.Kind.precedes book.now (model B.Broadcast C.Consensus k).order) }
    {
        let count = card_count(cards, book.len());
        let broadcast = B::new(heap, count)?;
        let consensus = C::new(heap, count)?;
        Ok(Carrier {
            broadcast,
            consensus,
            ranking: Ranking::new(book),
            cards: array::from_fn(|_| Progress {
                log: Log::new(),
                instance: 0,
            }),
            steps: 0,
        })
    }
}

fn card_count(cards: usize, notes: usize) -> usize
    ensures { result ≡ cards_of cards notes }
{
    if notes <= 32 && cards <= 6 { cards } else { 0 }
}
