ghost use Rattle.std.specs.Prelude.{◌≤◌, List, vec_items, vec_capacity};
ghost use Rattle.inturn.specs.declared.post.Post.{Post};

use crate::post::Post;
use std::marker::Model;

pub(crate) mod methods;

// The accepted posts, in the order of posting. Room for all that can ever be made is reserved when it is new.
#[derive(Drop)]
pub(crate) struct Table {
    posts: Vec<Post>,
}

// Contracts read the posts.
impl Model for Table {
    ghost Value = { List Post };

    ghost view = { λ t. vec_items t.posts };

    ghost invariant = { λ t. 32 ≤ vec_capacity t.posts };
}
