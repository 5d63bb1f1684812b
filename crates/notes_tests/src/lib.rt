#![tactic(auto)]

// Examples of note sets, kinds and rankings, run as tests.
#[cfg(test)]
mod label_examples;
#[cfg(test)]
mod printing;
#[cfg(test)]
mod ranking;
#[cfg(test)]
mod sets;
