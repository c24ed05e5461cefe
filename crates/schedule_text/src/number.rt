//! First words and numbers of a line, in whatever text it stands.

ghost use Rattle.std.specs.Prelude.{◌≡◌, ℕ, ◌+◌, ◌^◌, ◌<◌, ◌≤◌, IfOk, IfErr, Ok, Err, map, length, take, slice_index, get_or, nat_eq};
ghost use Rattle.std.specs.List.{list_all, zip};
ghost use Rattle.std.specs.Str.{bytes_eq};
ghost use Rattle.schedule_text.specs.PlaceNumbers.{number_at, numbers_at};

use crate::event::LineFault;
use schedule_unit::read_number;

/// What a number of a line is, which is its range.
pub trait NumberPlace: Copy {
    ghost use Rattle.std.specs.Prelude.{◌≡◌, ℕ, Bool, true};

    /// Whether a number is in the range, with the number that stands before it.
    ghost within: { Self → ℕ → ℕ → Bool };

    /// How narrow a number in the range is.
    ghost narrow: { Self → ℕ → Type 0 };

    /// One of them.
    ghost other: { Self };

    /// Whether a number is in the range, with the number that stands before it.
    fn is_within(self, before: u64, number: u64) -> bool
        ensures within { result ≡ within self before number }
        ensures narrow { result ≡ true → narrow self number };
}

/// Whether the first words of a line, as far as it has any, are these.
pub fn begins_with(first: &[&[u8]], words: &[&[u8]]) -> bool
    ensures { result ≡ list_all (λ p. bytes_eq p.0 p.1) (zip (map (λ w. w.now) first.now) (map (λ w. w.now) words.now)) }
{
    first.iter().zip(words).all(|(a, b)| is_same(a, b))
}

// Whether two words are the same. They are short, so one walk is cheaper than a search for a difference in blocks.
fn is_same(a: &[u8], b: &[u8]) -> bool
    ensures { result ≡ bytes_eq a.now b.now }
{
    a.len() == b.len() && are_paired(a, b)
}

// Whether the bytes are the same as far as both have any.
fn are_paired(a: &[u8], b: &[u8]) -> bool
    ensures { result ≡ list_all (λ p. nat_eq p.0 p.1) (zip a.now b.now) }
{
    a.iter().zip(b).all(|(x, y)| *x == *y)
}

// The number at a place of the line, with the number before it.
pub fn number_at<P: NumberPlace>(
    kind: P,
    place: usize,
    before: u64,
    word: &[u8],
) -> Result<u64, LineFault>
    ensures value { result ≡ number_at P.within kind place before word.now }
    ensures narrow { IfOk result (P.narrow kind) }
{
    match read_number(word) {
        None => Err(LineFault::BadNumber(place as u64)),
        Some(number) if kind.is_within(before, number) => Ok(number),
        Some(_) => Err(LineFault::Range(place as u64)),
    }
}

/// The numbers of these places, which stand from a place of the line on.
pub fn numbers_at<P: NumberPlace>(
    places: &[P],
    first: usize,
    words: &[&[u8]],
) -> Result<[u64; 4], LineFault>
    requires few { length places.now ≤ 4 }
    requires there { length places.now ≤ length words.now }
    requires range { first + length places.now < 2 ^ 63 }
    ensures ok { IfOk result (λ numbers. numbers_at P.within places.now first 0 (map (λ w. w.now) words.now) ≡ Ok (take (length places.now) numbers)) }
    ensures within { IfOk result (λ numbers. (i : ℕ) → i < length places.now → P.narrow (get_or places.now i P.other) (slice_index numbers i)) }
    ensures fault { IfErr result (λ fault. numbers_at P.within places.now first 0 (map (λ w. w.now) words.now) ≡ Err fault) }
{
    let mut numbers = [0; 4];
    let mut before = 0;
    for (index, place) in places.iter().enumerate() {
        match number_at(*place, first + index, before, words[index]) {
            Ok(number) => before = number,
            Err(fault) => return Err(fault),
        }
        numbers[index] = before;
    }
    Ok(numbers)
}
