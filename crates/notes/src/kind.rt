// A kind of note says which note may stand before which.
ghost use Rattle.std.specs.Prelude.{◌≡◌, Bool, true, ◌||◌};

// Two notes that may stand in either order count as equal. Not `Ord`: that would ask a kind for an equality besides, which the ranking does not need.
pub trait Kind: Sized {
    // Whether the first note may stand before the second.
    ghost precedes: { Self → Self → Bool };

    fn may_precede(&self, other: &Self) -> bool
        ensures { result ≡ precedes self.now other.now };

    ghost total: { (a b : Self) → (precedes a b || precedes b a) ≡ true };

    ghost transitive: { (a b c : Self) → precedes a b ≡ true → precedes b c ≡ true → precedes a c ≡ true };
}
