//! The laws of the definitions. Each function does nothing; its contract is a law.

ghost use Rattle.std.specs.Prelude.{◌≡◌, ◌<◌, ◌^◌, List, ℕ, Some, decimal};
ghost use Rattle.schedule_unit.specs.NumberWords.{number_of};

/// Each number is read back from its word, and no other word is read as it.
pub fn numbers()
    ensures written { (n : ℕ) → n < 2 ^ 64 → number_of (decimal n) ≡ Some n }
    ensures read { (word : List ℕ) (n : ℕ) → number_of word ≡ Some n → (n < 2 ^ 64) × (word ≡ decimal n) }
{}
