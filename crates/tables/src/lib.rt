// Tables that the supplied parts share: who posted each note, a set of notes for each card, and what each card proposed or decided.
#![tactic(auto)]

pub mod ballots;
pub mod card_sets;
pub mod grid;
pub mod posters;
