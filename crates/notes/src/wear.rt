// Wear notes: how often a block of a memory card has been erased.
ghost use Rattle.std.specs.Prelude.{◌++◌, ◌∷◌, Some, decimal};
ghost use Rattle.notes.specs.Kinds.{wear_before};
ghost use Rattle.std.proofs.Common.{rules};

use crate::kind::Kind;
use std::fmt;

#[derive(Clone, Copy, PartialEq, Eq, PartialOrd, Ord, Debug)]
pub struct Wear {
    pub block: u32,
    pub erases: u32,
}

impl Kind for Wear {
    ghost precedes = { λ a b. wear_before a.block a.erases b.block b.erases };

    ghost total = { Prim.search rules };

    ghost transitive = { Prim.search rules };

    fn may_precede(&self, other: &Wear) -> bool {
        self <= other
    }
}

// The block and its erase count.
impl fmt::Display for Wear {
    ghost output = { λ w. Some (decimal w.block ++ 32 ∷ decimal w.erases) };

    fn fmt<W: fmt::Write>(&self, f: &mut fmt::Formatter<W>) -> fmt::Result {
        let Wear { block, erases } = *self;
        write!(f, "{block} {erases}")
    }
}
