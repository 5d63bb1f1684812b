// A schedule that was run.
ghost use Rattle.std.specs.Prelude.{◌≡◌, IfOk};
ghost use Rattle.report.specs.Reports.{report_of};

use report::report;
use std::alloc::{AllocError, Global};
use verdicts::count::Case;

// What a schedule came to, and what is told of it: the report that stands in the collection.
#[derive(Drop)]
pub(crate) struct Trial {
    pub(crate) came: Vec<u8>,
    pub(crate) told: Vec<u8>,
}

impl Trial {
    pub(crate) fn of(heap: Global, schedule: &[u8], told: Vec<u8>) -> Result<Trial, AllocError>
        ensures came { IfOk result (λ trial. trial.came.items ≡ report_of schedule.now) }
        ensures told { IfOk result (λ trial. trial.told.items ≡ told.items) }
    {
        let came = report(heap, schedule)?;
        Ok(Trial { came, told })
    }
}

impl Case for Trial {
    ghost Passes = { λ trial. trial.came.items ≡ trial.told.items };

    fn passes(&self) -> bool {
        self.came == self.told
    }
}
