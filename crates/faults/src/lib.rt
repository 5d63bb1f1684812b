// What can be wrong with a schedule file.
#![tactic(auto)]

ghost use Rattle.std.specs.Prelude.{◌≡◌, Some};
ghost use Rattle.faults.specs.declared.FileFault.TheVariants.{Body};
ghost use Rattle.faults.specs.Faults.{cause_of, place_of, layer_of, Together, layer_word, fault_text};

use std::fmt;
use text::fault::LineFault;

// A line of the notes or of the events.
#[derive(Clone, Copy, Debug, PartialEq, Eq)]
pub enum BodyFault {
    Notes(LineFault),
    Events(LineFault),
}

#[derive(Clone, Copy, Debug, PartialEq, Eq)]
pub enum FileFault {
    // The file has more than 65,536 bytes.
    Long,
    Contents(LineFault),
    Body(BodyFault),
    // Bytes follow the last event.
    Surplus { place: usize },
}

impl From<BodyFault> for FileFault {
    ghost from_gives = { λ b f. f ≡ Body b };

    fn from(fault: BodyFault) -> FileFault {
        FileFault::Body(fault)
    }
}

// The layer of the file to which a fault belongs.
#[derive(Clone, Copy, Debug, PartialEq, Eq)]
pub enum Layer {
    File,
    Contents,
    Notes,
    Events,
}

// The longest file has so many bytes.
pub const LONGEST: usize = 65536;

impl FileFault {
    // The number of the fault. A variant that holds something cannot be cast to the number that is written at it, so a match says them.
    pub fn cause(self) -> u32
        ensures value { result ≡ cause_of self }
        ensures together { Together result (place_of self) (layer_of self) }
    {
        match self {
            FileFault::Long => 11,
            FileFault::Contents(_) => 12,
            FileFault::Body(_) => 13,
            FileFault::Surplus { .. } => 14,
        }
    }

    // The byte where the wrong line or the surplus starts; the length of the file where the line is absent.
    pub fn place(self) -> usize
        ensures value { result ≡ place_of self }
        ensures together { Together (cause_of self) result (layer_of self) }
    {
        match self {
            FileFault::Long => LONGEST,
            FileFault::Contents(fault)
            | FileFault::Body(BodyFault::Notes(fault) | BodyFault::Events(fault)) => fault.place(),
            FileFault::Surplus { place } => place,
        }
    }

    pub fn layer(self) -> Layer
        ensures value { result ≡ layer_of self }
        ensures together { Together (cause_of self) (place_of self) result }
    {
        match self {
            FileFault::Long | FileFault::Surplus { .. } => Layer::File,
            FileFault::Contents(_) => Layer::Contents,
            FileFault::Body(BodyFault::Notes(_)) => Layer::Notes,
            FileFault::Body(BodyFault::Events(_)) => Layer::Events,
        }
    }
}

impl Layer {
    // The word of the output, as bytes that need no place to be written to.
    pub fn name(self) -> &'static str
        ensures { result.now ≡ layer_word self }
    {
        match self {
            Layer::File => "file",
            Layer::Contents => "contents",
            Layer::Notes => "notes",
            Layer::Events => "events",
        }
    }
}

// The cause, the place and the layer.
impl fmt::Display for FileFault {
    ghost output = { λ f. Some (fault_text f) };

    fn fmt<W: fmt::Write>(&self, f: &mut fmt::Formatter<W>) -> fmt::Result {
        let cause = self.cause();
        let place = self.place();
        let layer = self.layer().name();
        write!(f, "{cause} {place} {layer}")
    }
}
