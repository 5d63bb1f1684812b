// What can be wrong with a line.
ghost use Rattle.std.specs.Prelude.{◌≡◌};
ghost use Rattle.text.specs.Faults.{fault_place};

// Each case has the place where the line starts or was due.
#[derive(Clone, Copy, Debug, PartialEq, Eq)]
pub enum LineFault {
    // No byte is left where the line is due.
    Absent { place: usize },
    // The line does not end, or does not say what is due there.
    Wrong { place: usize },
}

impl LineFault {
    pub fn place(self) -> usize
        ensures { result ≡ fault_place self }
    {
        match self {
            LineFault::Absent { place } | LineFault::Wrong { place } => place,
        }
    }
}
