ghost use Rattle.std.specs.Prelude.{Decides};
ghost use Rattle.relay.specs.Uniformity.{AlwaysAgrees, LeftAlone, smallest_run};

use super::Relay;

impl Relay {
    // Whether, when quiet, each note handed to any card has been handed to every running card.
    #[tactic(auto, using(crate::proofs::Uniformity::left_alone, crate::proofs::Uniformity::never_uniform))]
    pub fn is_uniform() -> bool
        ensures answer { Decides result AlwaysAgrees }
        ensures run { LeftAlone smallest_run }
    {
        false
    }
}
