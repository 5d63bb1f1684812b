ghost use Rattle.std.specs.Prelude.{◌≡◌, ℕ};
ghost use Rattle.parts.specs.Views.{Net, BroadcastView, ConsensusView};
ghost use Rattle.parts.specs.Refusals.{number as number_of, post_answer, carry_answer, lose_answer, crash_answer, suspect_answer, propose_answer};
ghost use Rattle.parts.specs.Cases.{case_of, turned_down_by, post_reasons, carry_reasons, lose_reasons, crash_reasons, suspect_reasons, propose_reasons};

// Why a call is turned down. A refused call changes nothing; where several reasons hold, the first in this order is given.
#[derive(Clone, Copy, PartialEq, Eq, Debug)]
pub enum Refusal {
    // A named card is not below the number of cards.
    NoSuchCard = 1,
    // The card that posts, proposes, takes, suspects or is to crash has crashed.
    CardCrashed = 2,
    // The note is above 31, or none of the book.
    NoSuchNote = 3,
    AlreadyPosted = 4,
    // The card to be suspected runs.
    CardRuns = 5,
    // The item is not below the wire's length.
    NoSuchItem = 6,
    // The item to be lost has a sender that is not a crashed card.
    SenderNotCrashed = 7,
    // The card has proposed in that instance.
    AlreadyProposed = 8,
    // The set to be proposed is empty, or the instance is above 31.
    NothingToPropose = 9,
    // The card that takes has no decision.
    NothingDecided = 10,
}

impl Refusal {
    // The number by which a report names it.
    pub fn number(self) -> u32
        ensures { result ≡ number_of self }
    {
        self as u32
    }
}

// Each call is turned down by the first reason that holds against it, in the numbers of the rule. The contract is the
// theorem; there is nothing to do.
pub(super) fn first_reason_turns_down()
    ensures post { (v : BroadcastView) (p m : ℕ)
        → case_of (post_answer v p m) ≡ turned_down_by (post_reasons v p m) }
    ensures carry { (v : Net) (i : ℕ) → case_of (carry_answer v i) ≡ turned_down_by (carry_reasons v i) }
    ensures lose { (v : Net) (i : ℕ) → case_of (lose_answer v i) ≡ turned_down_by (lose_reasons v i) }
    ensures crash { (v : Net) (p : ℕ) → case_of (crash_answer v p) ≡ turned_down_by (crash_reasons v p) }
    ensures suspect { (v : Net) (q p : ℕ)
        → case_of (suspect_answer v q p) ≡ turned_down_by (suspect_reasons v q p) }
    ensures propose { (v : ConsensusView) (k p s : ℕ)
        → case_of (propose_answer v k p s) ≡ turned_down_by (propose_reasons v k p s) }
{}
