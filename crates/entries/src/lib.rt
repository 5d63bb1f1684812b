// What one line of a schedule says: the notes and the events, and how they are written.
#![tactic(auto)]

pub mod event;
pub mod event_line;
pub mod line;
pub mod note_line;
