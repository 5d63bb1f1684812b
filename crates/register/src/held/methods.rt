ghost use Rattle.std.specs.Prelude.{◌≡◌, length, replicate, None};
ghost use Rattle.register.specs.Held.{held_in, filled};

use super::Held;
use notes::set::NoteSet;

impl Held {
    pub fn new() -> Held
        ensures { result ≡ replicate 32 None }
    {
        Held { sets: [None; 32] }
    }

    pub fn of(&self, instance: usize) -> Option<NoteSet>
        ensures value { result ≡ held_in self.now instance }
        ensures places { length self.now ≡ 32 }
    {
        self.sets.get(instance).copied().flatten()
    }

    // Fills the register if it is empty.
    pub fn fill(&mut self, instance: usize, notes: Option<NoteSet>)
        ensures after { self.new ≡ filled self.old instance notes }
        ensures places { length self.old ≡ 32 }
    {
        // By index: what an array's `get_mut` writes, a proof does not know.
        if instance < 32 && self.of(instance).is_none() {
            self.sets[instance] = notes;
        }
    }
}
