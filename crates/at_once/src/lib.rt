// A broadcast that hands each note over at once: an example of a supplier's own.
#![tactic(auto)]

pub mod state;
#[cfg(test)]
mod tests;
