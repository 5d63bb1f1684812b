// Why there is no answer, or no whole one.
ghost use Rattle.std.specs.Prelude.{◌≡◌};
ghost use Rattle.streams.specs.Streams.{failure_text};
ghost use Rattle.streams.specs.declared.failure.Failure.TheVariants.{Memory};

use std::alloc::AllocError;
use std::error::Error;
use std::{fmt, io};

#[derive(Debug, Drop)]
pub enum Failure {
    Reading(io::Error),
    Memory,
    Writing(io::Error),
}

impl fmt::Display for Failure {
    ghost output = { failure_text };

    fn fmt<W: fmt::Write>(&self, f: &mut fmt::Formatter<W>) -> fmt::Result {
        match self {
            Failure::Reading(error) => write!(f, "the input cannot be read: {error}"),
            Failure::Memory => write!(f, "no memory for the answer"),
            Failure::Writing(error) => write!(f, "the answer cannot be written: {error}"),
        }
    }
}

impl Error for Failure {}

impl From<AllocError> for Failure {
    ghost from_gives = { λ _ f. f ≡ Memory };

    fn from(_error: AllocError) -> Failure {
        Failure::Memory
    }
}
