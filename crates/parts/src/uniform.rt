ghost use Rattle.std.specs.Prelude.{◌≡◌, true, Decides};
ghost use Rattle.parts.specs.Views.{Quiet};
ghost use Rattle.parts.specs.Broadcasting.{UniformAgreement};
ghost use Rattle.parts.specs.Shown.{shown};

use crate::broadcast::Broadcast;

// A broadcast that can be asked whether it is quiet, and whose yes carries uniform agreement.
pub trait Uniform: Broadcast {
    fn is_quiet(&self) -> bool
        ensures answer { Decides result (Quiet (shown Self.Broadcast (Self.Broadcast.state self.now)).net) }
        ensures agreed { result ≡ true → Self.Broadcast.made (Self.Broadcast.state self.now) → UniformAgreement (shown Self.Broadcast (Self.Broadcast.state self.now)) };
}
