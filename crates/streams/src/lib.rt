// Programs that answer what stands on a stream: a reader is read, the answer is made, and it goes to a writer.
#![tactic(auto)]

pub mod answers;
pub mod failure;
pub mod program;
mod read;
mod write;
