ghost use Rattle.std.specs.Prelude.{◌≡◌, [], IfOk};
ghost use Rattle.inturn.specs.Turns.{written, in_turn};

use super::Table;
use crate::post::Post;
use notes::set::NoteSet;
use std::alloc::{AllocError, Global};

impl Table {
    pub(crate) fn new(heap: Global) -> Result<Table, AllocError>
        ensures { IfOk result (λ t. t ≡ []) }
    {
        let posts = Vec::with_capacity(heap, 32)?;
        Ok(Table { posts })
    }

    // Writes a post at the end, into the room reserved by `new`: no later call may fail for memory.
    pub(crate) fn write(&mut self, card: usize, note: usize)
        ensures { self.new ≡ written self.old card note }
    {
        if self.posts.len() < 32 {
            self.posts.push_reserved(Post { card, note });
        }
    }

    // The notes that count where those of the set are handed. A post whose note is not handed blocks its card: no later post of that card
    // counts.
    pub(crate) fn in_turn(&self, handed: NoteSet) -> NoteSet
        ensures { result ≡ in_turn self.now handed }
    {
        let mut counted = NoteSet::empty();
        let mut blocked = NoteSet::empty();
        for post in &self.posts {
            if !handed.contains(post.note) {
                blocked = blocked.with(post.card);
            } else if !blocked.contains(post.card) {
                counted = counted.with(post.note);
            }
        }
        counted
    }
}
