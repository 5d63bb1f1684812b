#![tactic(auto)]

pub mod kind;
pub mod label;
pub mod ranking;
pub mod set;
pub mod wear;
