ghost use Rattle.std.specs.Prelude.{◌≡◌, ℕ, ◌-◌, ◌<◌, ◌≤◌, true, [], length, IsSome, IfSome, IfNone};
ghost use Rattle.notes.specs.Sets.{has};
ghost use Rattle.parts.specs.Shown.{shown};
ghost use Rattle.parts.specs.Views.{Quiet, Runs};
ghost use Rattle.handed_and_decided.specs.Carrying.{carried_all};

use notes::set::NoteSet;
use parts::broadcast::Broadcast;
use parts::consensus::Consensus;
use parts::uniform::Uniform;

// Carries the first item as long as there is one, at most `limit` times. If the limit covers the work, no item is left.
#[tactic(auto, using(crate::proofs::Emptied::one_turn))]
pub fn carry_all<B: Broadcast>(broadcast: &mut B, limit: usize)
    ensures after { B.Broadcast.state broadcast.new ≡ carried_all B.Broadcast.wire B.Broadcast.carrying limit (B.Broadcast.state broadcast.old) }
    ensures made { B.Broadcast.made (B.Broadcast.state broadcast.old) → B.Broadcast.made (B.Broadcast.state broadcast.new) }
    ensures empty { B.Broadcast.made (B.Broadcast.state broadcast.old) → B.Broadcast.work (B.Broadcast.state broadcast.old) ≤ limit → B.Broadcast.wire (B.Broadcast.state broadcast.new) ≡ [] }
{
    for _turn in 0..limit {
        if broadcast.carry(0).is_err() {
            return;
        }
    }
}

// The same over any consensus. One generic function is longer: a trait for what has a wire, with its laws, and an impl of it for each of the two.
#[tactic(auto, using(crate::proofs::Emptied::one_turn))]
pub fn carry_all_proposals<C: Consensus>(consensus: &mut C, limit: usize)
    ensures after { C.Consensus.state consensus.new ≡ carried_all C.Consensus.wire C.Consensus.carrying limit (C.Consensus.state consensus.old) }
    ensures made { C.Consensus.made (C.Consensus.state consensus.old) → C.Consensus.made (C.Consensus.state consensus.new) }
    ensures empty { C.Consensus.made (C.Consensus.state consensus.old) → C.Consensus.work (C.Consensus.state consensus.old) ≤ limit → C.Consensus.wire (C.Consensus.state consensus.new) ≡ [] }
{
    for _turn in 0..limit {
        if consensus.carry(0).is_err() {
            return;
        }
    }
}

// The set of a running card, where the broadcast is quiet: it then holds every note that was handed to any card, crashed or not.
pub fn complete_set<U: Uniform>(broadcast: &U, card: usize) -> Option<NoteSet>
    ensures none { IfNone result (Quiet (shown U.Broadcast (U.Broadcast.state broadcast.now)).net
        → Runs (shown U.Broadcast (U.Broadcast.state broadcast.now)).net card → ⊥) }
    ensures quiet { IsSome result → Quiet (shown U.Broadcast (U.Broadcast.state broadcast.now)).net }
    ensures runs { IsSome result → Runs (shown U.Broadcast (U.Broadcast.state broadcast.now)).net card }
    ensures value { IfSome result (λ s. s ≡ U.Broadcast.handed (U.Broadcast.state broadcast.now) card) }
    ensures complete { U.Broadcast.made (U.Broadcast.state broadcast.now) → IfSome result (λ s. (p m : ℕ)
        → has (U.Broadcast.handed (U.Broadcast.state broadcast.now) p) m ≡ true → has s m ≡ true) }
{
    let complete = card < broadcast.card_count()
        && !broadcast.has_crashed(card)
        && broadcast.is_quiet();
    complete.then_some(broadcast.handed_to(card))
}
