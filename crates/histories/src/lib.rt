// Histories of flooding: what each card knew and whom it counted, round by round, and why decisions agree.
#![tactic(auto)]

ghost use Rattle.std.specs.Prelude.{◌≡◌};
ghost use Rattle.histories.specs.Histories.{Agreement, Validity, OwnKnown};
ghost use Rattle.histories.specs.Moves.{MovesMakeHistories};

// In how many rounds so many cards decide: after that many, all that have passed them know the same proposals.
#[tactic(auto, using(crate::proofs::Agrees::agreement, crate::proofs::Agrees::own_known, crate::proofs::Kept::moves_make_histories))]
pub fn rounds(cards: usize) -> usize
    ensures count { result ≡ cards }
    ensures agreement { Agreement cards result }
    ensures validity { Validity cards }
    ensures own { OwnKnown cards }
    ensures moves { MovesMakeHistories cards }
{
    cards
}
