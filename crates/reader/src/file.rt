// A schedule that was read from a file.
ghost use Rattle.std.specs.Prelude.{◌≡◌};
ghost use Rattle.faults.specs.declared.FileFault.TheVariants.{Body};
ghost use Rattle.reader.specs.declared.file.Unread.TheVariants.{Fault, NoMemory};

use entries::event::Event;
use faults::{BodyFault, FileFault};
use labels::Label;
use notes::wear::Wear;
use schedule::contents::Contents;
use std::alloc::AllocError;

// The notes, all of the kind that the contents name.
#[derive(Drop)]
pub enum Notes<'a> {
    Wears(Vec<Wear>),
    Labels(Vec<Label<'a>>),
}

#[derive(Drop)]
pub struct Schedule<'a> {
    pub contents: Contents,
    pub notes: Notes<'a>,
    pub events: Vec<Event>,
}

// Why no schedule was read.
#[derive(Clone, Copy, Drop)]
pub enum Unread {
    Fault(FileFault),
    // The file has no fault, and there is no memory for what it holds.
    NoMemory,
}

impl From<FileFault> for Unread {
    ghost from_gives = { λ f u. u ≡ Fault f };

    fn from(fault: FileFault) -> Unread {
        Unread::Fault(fault)
    }
}

impl From<BodyFault> for Unread {
    ghost from_gives = { λ b u. u ≡ Fault (Body b) };

    fn from(fault: BodyFault) -> Unread {
        Unread::Fault(FileFault::Body(fault))
    }
}

impl From<AllocError> for Unread {
    ghost from_gives = { λ _ u. u ≡ NoMemory };

    fn from(_error: AllocError) -> Unread {
        Unread::NoMemory
    }
}
