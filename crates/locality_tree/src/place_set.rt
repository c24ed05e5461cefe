//! Sets of places.

ghost use Rattle.std.specs.Prelude.{◌≡◌, ◌≢◌, ℕ, ◌<◌, ◌≤◌, true, false};
ghost use Rattle.locality_tree.specs.PlaceSets.{in_set};

/// A set of places, numbers below 384: a bit for each.
#[derive(Clone, Copy, PartialEq, Eq)]
pub struct PlaceSet {
    words: [u64; 6],
}

impl PlaceSet {
    /// No place.
    pub fn new() -> PlaceSet
        ensures { (n : ℕ) → in_set result n ≡ false }
    {
        PlaceSet { words: [0; 6] }
    }

    /// Whether the place is in the set.
    pub fn contains(&self, place: usize) -> bool
        requires { place < 384 }
        ensures { result ≡ in_set self.now place }
    {
        (self.words[place / 64] >> (place % 64)) & 1 == 1
    }

    /// The place is in the set, or is not.
    pub fn set(&mut self, place: usize, stands: bool)
        requires { place < 384 }
        ensures here { in_set self.new place ≡ stands }
        ensures others { (n : ℕ) → n ≢ place → in_set self.new n ≡ in_set self.old n }
    {
        if self.contains(place) != stands {
            self.words[place / 64] ^= 1 << (place % 64);
        }
    }

    /// The first place of the set from one on, and 384 where there is none.
    pub fn next(&self, from: usize) -> usize
        requires { from ≤ 384 }
        ensures least { from ≤ result }
        ensures most { result ≤ 384 }
        ensures found { result < 384 → in_set self.now result ≡ true }
        ensures between { (n : ℕ) → from ≤ n → n < result → in_set self.now n ≡ false }
    {
        let mut at = from;
        while at < 384 {
            let rest = self.words[at / 64] >> (at % 64);
            if rest != 0 {
                return at + rest.trailing_zeros() as usize;
            }
            // No place of this word is left.
            at = (at / 64 + 1) * 64;
        }
        384
    }
}
