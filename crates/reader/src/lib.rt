// Reading whole schedule files.
#![tactic(auto)]

pub mod check;
pub mod file;
pub mod read;
pub mod section;
