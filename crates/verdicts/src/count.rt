// How many of some cases fail, and the verdict that follows.
ghost use Rattle.std.specs.Prelude.{◌≡◌, ◌+◌, ◌<◌, ◌≤◌, ◌↔◌, List, [], ◌∷◌, ◌++◌, length, All, Decides, IsOk, Err};
ghost use Rattle.verdicts.specs.declared.count.Amiss.TheVariants.{NoCase};
ghost use Rattle.verdicts.specs.Counts.{Failing};

// A case that passes or fails.
pub trait Case: Sized {
    // What it is to pass.
    ghost Passes: { Self → Type 0 };

    fn passes(&self) -> bool
        ensures { Decides result (Passes self.now) };
}

// How many cases there were, and how many of them failed.
#[derive(Drop)]
pub struct Tally {
    pub cases: usize,
    pub failures: usize,
}

// Why the cases together do not pass.
#[derive(Drop)]
pub enum Amiss {
    NoCase,
    Failures,
}

// Judges each case.
pub fn judge<C: Case>(cases: &[C]) -> Tally
    ensures cases { result.cases ≡ length cases.now }
    ensures failures { Failing C.Case.Passes cases.now result.failures }
    ensures none { (result.failures ≡ 0) ↔ All C.Case.Passes cases.now }
{
    let count = cases.len();
    let mut failures = 0usize;
    for case in cases {
        failures = with_one_more(failures, case);
    }
    Tally {
        cases: count,
        failures,
    }
}

// Where so many of some cases fail: how many fail of these and one more.
#[tactic(auto, using(crate::proofs::Counts::one_more_passes, crate::proofs::Counts::one_more_fails))]
fn with_one_more<C: Case>(failures: usize, case: &C) -> usize
    requires { failures < 18446744073709551615 }
    ensures counted { (cases : List C) → Failing C.Case.Passes cases failures → Failing C.Case.Passes (cases ++ case.now ∷ []) result }
    ensures at_most_one { result ≤ failures + 1 }
{
    if case.passes() {
        failures
    } else {
        failures + 1
    }
}

impl Tally {
    // Where there is no case, nothing is shown.
    pub fn verdict(&self) -> Result<(), Amiss>
        ensures passed { IsOk result ↔ ((0 < self.now.cases) × (self.now.failures ≡ 0)) }
        ensures no_case { (result ≡ Err NoCase) ↔ (self.now.cases ≡ 0) }
    {
        if self.cases == 0 {
            return Err(Amiss::NoCase);
        }
        if self.failures > 0 {
            return Err(Amiss::Failures);
        }
        Ok(())
    }
}
