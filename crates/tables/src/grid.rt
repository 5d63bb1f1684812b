ghost use Rattle.std.specs.Prelude.{◌≡◌, [], replicate, slice_set, slice_index_or};
ghost use Rattle.tables.specs.Tables.{Shaped};

use std::marker::Model;

// A value for each card in each instance.
#[derive(Drop)]
pub struct Grid<T> {
    rows: [[T; 6]; 32],
}

impl<T> Model for Grid<T> {
    ghost use Rattle.std.specs.Prelude.{List};
    ghost use Rattle.tables.specs.Tables.{Shaped};

    ghost Value = { List (List T) };

    ghost view = { λ t. t.rows };

    ghost invariant = { λ t. Shaped t.rows };
}

impl<T: Copy> Grid<T> {
    // The same value everywhere.
    pub fn filled(value: T) -> Grid<T>
        ensures { result ≡ replicate 32 (replicate 6 value) }
    {
        Grid {
            rows: [[value; 6]; 32],
        }
    }

    // The value at a place, or `none` where there is no such place.
    pub fn of(&self, instance: usize, card: usize, none: T) -> T
        ensures value { result ≡ slice_index_or (slice_index_or self.now instance []) card none }
        ensures shape { Shaped self.now }
    {
        match self.rows.get(instance) {
            Some(row) => row.get(card).copied().unwrap_or(none),
            None => none,
        }
    }

    // Writes at a place, if there is such a place.
    pub fn put(&mut self, instance: usize, card: usize, value: T)
        ensures after { self.new ≡ slice_set self.old instance (slice_set (slice_index_or self.old instance []) card value) }
        ensures shape { Shaped self.old }
    {
        // By index: what an array's `get_mut` writes, a proof does not know.
        if instance < 32 && card < 6 {
            self.rows[instance][card] = value;
        }
    }
}
