// The stacks that a schedule can name, and the report over one.
ghost use Rattle.std.specs.Prelude.{◌≡◌, IfOk, string_bytes};
ghost use Rattle.runs.specs.Scripts.{cards_in, order_in};
ghost use Rattle.report.specs.Stacks.{over_broadcast, over_pile};

use allack::state::AllAck;
use board::state::Board;
use flooding::state::Flooding;
use inturn::layer::InTurn;
use notes::kind::Kind;
use parts::consensus::Consensus;
use register::state::Register;
use relay::state::Relay;
use run_report::{report_over, report_over_uniform};
use runs::Script;
use schedule::contents::{BroadcastPart, ConsensusPart, Pile};
use std::alloc::{AllocError, Global};

// The broadcast that the pile names, under the in-turn layer or alone, with this consensus. Each arm runs another type. Over a uniform one
// the program makes the run whose contract has the law of crashed logs too.
fn report_with<K: Kind, C: Consensus + Drop>(
    heap: Global,
    pile: Pile,
    script: &Script<'_, K>,
) -> Result<String, AllocError>
    ensures { IfOk result (λ out. string_bytes out ≡ over_broadcast (cards_in script.now) (order_in K.Kind.precedes script.now) script.now.calls.now C.Consensus pile.in_turn pile.broadcast) }
{
    match (pile.in_turn, pile.broadcast) {
        (false, BroadcastPart::Relay) => report_over::<K, Relay, C>(heap, script),
        (false, BroadcastPart::AllAck) => report_over_uniform::<K, AllAck, C>(heap, script),
        (false, BroadcastPart::Board) => report_over_uniform::<K, Board, C>(heap, script),
        (true, BroadcastPart::Relay) => report_over::<K, InTurn<Relay>, C>(heap, script),
        (true, BroadcastPart::AllAck) => report_over_uniform::<K, InTurn<AllAck>, C>(heap, script),
        (true, BroadcastPart::Board) => report_over_uniform::<K, InTurn<Board>, C>(heap, script),
    }
}

// The report of these calls over the stack that the pile names. Each arm runs another type.
pub(crate) fn report_on<K: Kind>(
    heap: Global,
    pile: Pile,
    script: &Script<'_, K>,
) -> Result<String, AllocError>
    ensures { IfOk result (λ out. string_bytes out ≡ over_pile (cards_in script.now) (order_in K.Kind.precedes script.now) script.now.calls.now pile) }
{
    match pile.consensus {
        ConsensusPart::Register => report_with::<K, Register>(heap, pile, script),
        ConsensusPart::Flood => report_with::<K, Flooding>(heap, pile, script),
    }
}
