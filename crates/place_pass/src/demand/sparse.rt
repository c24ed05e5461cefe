//! Numbers of which few are not 0: a walk to the next of them passes the others several at once.

ghost use Rattle.std.specs.Prelude.{◌≡◌, ℕ, ◌<◌, ◌≤◌, true, length};
ghost use Rattle.std.proofs.Common.{get_or};

/// How many places are compared before the walk looks where it is.
const BLOCK: u32 = 32;

/// Whether 0 stands from one place on to another. No branch in the loop: the places are compared several at once.
pub(crate) fn is_clear(numbers: &[u32], from: u32, to: u32) -> bool
    requires { to ≤ length numbers.now }
    ensures { result ≡ true → (k : ℕ) → from ≤ k → k < to → get_or numbers.now k 0 ≡ 0 }
{
    let mut clear = true;
    for place in from..to {
        clear &= numbers[place as usize] == 0;
    }
    clear
}

// A place behind blocks in which 0 stands everywhere.
fn behind_clear(numbers: &[u32], from: u32, end: u32) -> u32
    requires order { from ≤ end }
    requires inside { end ≤ length numbers.now }
    ensures least { from ≤ result }
    ensures inside { result ≤ end }
    ensures passed { (k : ℕ) → from ≤ k → k < result → get_or numbers.now k 0 ≡ 0 }
{
    let mut at = from;
    while end - at >= BLOCK {
        if !is_clear(numbers, at, at + BLOCK) {
            return at;
        }
        at += BLOCK;
    }
    at
}

/// Whether 0 stands everywhere before a place. It is left at the first block that has another number.
pub(crate) fn is_clear_to(numbers: &[u32], end: u32) -> bool
    requires { end ≤ length numbers.now }
    ensures { result ≡ true → (k : ℕ) → k < end → get_or numbers.now k 0 ≡ 0 }
{
    let at = behind_clear(numbers, 0, end);
    if end - at >= BLOCK {
        return false;
    }
    is_clear(numbers, at, end)
}

/// The first place from one on at which a number is not 0, and the end where there is none.
pub(crate) fn first_some(numbers: &[u32], from: u32, end: u32) -> u32
    requires order { from ≤ end }
    requires inside { end ≤ length numbers.now }
    ensures least { from ≤ result }
    ensures inside { result ≤ end }
    ensures some { result < end → 0 < get_or numbers.now result 0 }
    ensures passed { (k : ℕ) → from ≤ k → k < result → get_or numbers.now k 0 ≡ 0 }
{
    // Where one has a number its neighbour often has one too.
    if from < end && numbers[from as usize] > 0 {
        return from;
    }
    for place in behind_clear(numbers, from, end)..end {
        if numbers[place as usize] > 0 {
            return place;
        }
    }
    end
}
