// What is known of a run, as plain lists. A card's number is its place in the list of cards.

// A card: whether it is down, and the notes of its log.
#[derive(Drop)]
pub struct CardLog {
    pub down: bool,
    pub notes: Vec<u32>,
}

// An accepted post.
#[derive(Drop)]
pub struct Post {
    pub card: u32,
    pub note: u32,
}

// An accepted suspicion: this card takes that one for crashed.
#[derive(Drop)]
pub struct Suspicion {
    pub by: u32,
    pub card: u32,
}

// What a run was made of: how many cards, whether its broadcast is uniform, and by how much a post and a proposal may raise the work.
#[derive(Drop)]
pub struct Terms {
    pub cards: u8,
    pub uniform: bool,
    pub post_bound: u32,
    pub proposal_bound: u32,
}

// What a run has shown.
#[derive(Drop)]
pub struct Evidence {
    pub cards: Vec<CardLog>,
    pub posts: Vec<Post>,
    pub suspicions: Vec<Suspicion>,
    pub steps: u32,
    pub at_rest: bool,
}
