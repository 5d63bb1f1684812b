ghost use Rattle.std.specs.Prelude.{◌≡◌};

use allack::state::AllAck;
use board::state::Board;
use flooding::state::Flooding;
use inturn::layer::InTurn;
use parts::broadcast::Broadcast;
use parts::consensus::Consensus;
use register::state::Register;
use relay::state::Relay;

// The piles, by their words in a schedule file, with what the law asks to know of them.
#[derive(Clone, Copy, Drop)]
pub(crate) struct KnownPile {
    pub(crate) words: &'static str,
    pub(crate) uniform: bool,
    // By how much a post, and a proposal, may raise the work.
    pub(crate) post_bound: u32,
    pub(crate) proposal_bound: u32,
}

fn known<B: Broadcast, C: Consensus>(words: &'static str, uniform: bool) -> KnownPile
    ensures uniform { result.uniform ≡ uniform }
    ensures post_bound { result.post_bound ≡ B.Broadcast.bound }
    ensures proposal_bound { result.proposal_bound ≡ C.Consensus.bound }
{
    KnownPile {
        words,
        uniform,
        post_bound: B::bound(),
        proposal_bound: C::bound(),
    }
}

pub(crate) fn piles() -> [KnownPile; 12] {
    [
        known::<Relay, Flooding>("relay flood", false),
        known::<Relay, Register>("relay register", false),
        known::<AllAck, Flooding>("allack flood", true),
        known::<AllAck, Register>("allack register", true),
        known::<Board, Flooding>("board flood", true),
        known::<Board, Register>("board register", true),
        known::<InTurn<Relay>, Flooding>("inturn relay flood", false),
        known::<InTurn<Relay>, Register>("inturn relay register", false),
        known::<InTurn<AllAck>, Flooding>("inturn allack flood", true),
        known::<InTurn<AllAck>, Register>("inturn allack register", true),
        known::<InTurn<Board>, Flooding>("inturn board flood", true),
        known::<InTurn<Board>, Register>("inturn board register", true),
    ]
}
