// An accepted post: the card that posted, and the note.
#[derive(Clone, Copy, Debug, Drop, PartialEq, Eq)]
pub struct Post {
    pub card: usize,
    pub note: usize,
}
