#![tactic(auto)]

// Examples of the in-turn layer over the board, run as tests.
#[cfg(test)]
mod order;
#[cfg(test)]
mod stacked;
