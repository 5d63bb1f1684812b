// A set of notes as a 32-bit number: bit m stands for note m.
ghost use Rattle.std.specs.Prelude.{◌≡◌, ℕ, ◌<◌, true, false, not, ◌&&◌, ◌||◌, MatchOption, ◌==◌, bit_or, count_ones, nat_lt};
ghost use Rattle.notes.specs.Sets.{has, added, minus, low, how_many};

use std::marker::Model;

// The notes that stand in it are numbers below 32; a greater number stands in no set.
#[derive(Clone, Copy, PartialEq, Eq, Debug)]
pub struct NoteSet {
    mask: u32,
}

// Contracts read the number.
impl Model for NoteSet {
    ghost Value = { ℕ };

    ghost view = { λ s. s.mask };

    ghost inverse = { λ n. record { mask = n } };
}

impl NoteSet {
    pub fn empty() -> NoteSet
        ensures { result ≡ 0 }
    {
        NoteSet { mask: 0 }
    }

    pub fn from_bits(number: u32) -> NoteSet
        ensures { result ≡ number }
    {
        NoteSet { mask: number }
    }

    pub fn to_bits(self) -> u32
        ensures { result ≡ self }
    {
        let NoteSet { mask } = self;
        mask
    }

    #[tactic(auto, using(crate::proofs::Bits::has_none, crate::proofs::Bits::some_note))]
    pub fn is_empty(self) -> bool
        ensures number { result ≡ (self == 0) }
        ensures notes { ((result ≡ true → (m : ℕ) → has self m ≡ false)) × ((result ≡ false → (m : ℕ) × (has self m ≡ true))) }
    {
        self.mask == 0
    }

    #[tactic(auto, using(crate::proofs::Bits::has_note))]
    pub fn contains(self, note: usize) -> bool
        ensures { result ≡ has self note }
    {
        note < 32 && (self.mask >> note) % 2 == 1
    }

    // The set with one note added; a number above 31 adds nothing.
    #[tactic(auto, using(crate::proofs::Bits::with_one_note))]
    pub fn with(self, note: usize) -> NoteSet
        ensures number { result ≡ added self note }
        ensures notes { (m : ℕ) → has result m ≡ (has self m || (nat_lt note 32 && m == note)) }
    {
        if note < 32 {
            NoteSet {
                mask: self.mask | (1 << note),
            }
        } else {
            self
        }
    }

    // The notes of this set that the other lacks.
    #[tactic(auto, using(crate::proofs::Bits::without_notes, crate::proofs::Bits::has_minus))]
    pub fn without(self, other: NoteSet) -> NoteSet
        ensures number { result ≡ minus self other }
        ensures notes { (m : ℕ) → has result m ≡ (has self m && not (has other m)) }
    {
        NoteSet {
            mask: self.mask & !other.mask,
        }
    }

    #[tactic(auto, using(crate::proofs::Bits::has_union))]
    pub fn union(self, other: NoteSet) -> NoteSet
        ensures number { result ≡ bit_or self other }
        ensures notes { (m : ℕ) → has result m ≡ (has self m || has other m) }
    {
        NoteSet {
            mask: self.mask | other.mask,
        }
    }

    // How many notes it holds.
    #[tactic(auto, using(crate::proofs::Bits::count_notes))]
    pub fn count(self) -> usize
        ensures ones { result ≡ count_ones self }
        ensures held { result ≡ how_many (has self) 32 }
    {
        self.mask.count_ones() as usize
    }

    // The lowest note that it holds, if any.
    #[tactic(auto, using(crate::proofs::Bits::lowest_note))]
    pub fn lowest(self) -> Option<usize>
        ensures zeros { result ≡ low self }
        ensures held { MatchOption result (self ≡ 0) (λ m. (m < 32) × (has self m ≡ true) × ((k : ℕ) → k < m → has self k ≡ false)) }
    {
        (!self.is_empty()).then_some(self.mask.trailing_zeros() as usize)
    }
}
