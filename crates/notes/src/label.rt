// Labels as a kind of note.
ghost use Rattle.labels.specs.Order.{label_before, label_of};
ghost use Rattle.notes.specs.Labels.{label_total, label_transitive};

use crate::kind::Kind;
pub use labels::Label;

impl<'a> Kind for Label<'a> {
    ghost precedes = { λ a b. label_before (label_of a).0 (label_of b).0 };

    ghost total = { λ a b. label_total (label_of a).0 (label_of b).0 };

    ghost transitive = { λ a b c. label_transitive (label_of a).0 (label_of b).0 (label_of c).0 };

    fn may_precede(&self, other: &Label<'a>) -> bool {
        self.may_stand_before(other)
    }
}
