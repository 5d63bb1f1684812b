// The contents of a schedule: what they say of it, how they are written, and reading them.
#![tactic(auto)]

pub mod contents;
pub mod reading;
