// Notes as they are written in a file.
ghost use Rattle.std.specs.Prelude.{◌≡◌, ℕ, List, ◌++◌, OnOk, string_bytes};
ghost use Rattle.labels.specs.Order.{label_of};
ghost use Rattle.entries.specs.Written.{wear_text, label_text};

use labels::Label;
use notes::kind::Kind;
use notes::wear::Wear;
use std::alloc::AllocError;

// Not by `Display` alone: what a note prints is known of each kind, and not of any type that prints.
pub(crate) trait Written: Kind {
    ghost text: { Self → List ℕ };

    fn write(&self, out: &mut String) -> Result<(), AllocError>
        ensures { OnOk result
            (string_bytes out.new ≡ string_bytes out.old ++ text self.now) };
}

impl Written for Wear {
    ghost text = { wear_text };

    fn write(&self, out: &mut String) -> Result<(), AllocError> {
        write!(out, "{self}")
    }
}

impl<'a> Written for Label<'a> {
    ghost text = { λ l. label_text (label_of l).0 };

    fn write(&self, out: &mut String) -> Result<(), AllocError> {
        write!(out, "{self}")
    }
}
