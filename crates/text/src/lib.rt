// Cutting a file of bytes: lines, the fields that spaces part, decimal numbers.
#![tactic(auto)]

pub mod fault;
pub mod field;
pub mod number;
pub mod part;
