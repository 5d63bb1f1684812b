// What the program `carrier` answers to its input.
ghost use Rattle.report.specs.Reports.{report_of};
ghost use Rattle.report.specs.Long.{long_report};

use crate::report;
use std::alloc::{AllocError, Global};
use streams::answers::Answers;

pub struct Report;

impl Answers for Report {
    ghost answer_to = { report_of };

    ghost one_if_long = { long_report };

    fn answer(heap: Global, input: &[u8]) -> Result<Vec<u8>, AllocError> {
        report(heap, input)
    }
}
