// Verdicts: how many of some cases fail, and whether the order law holds of what a run has shown.
#![tactic(auto)]

pub mod count;
pub mod evidence;
pub mod law;
mod logs;
pub mod verdict;
