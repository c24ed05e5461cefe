//! Words of a line.

use std::alloc::{AllocError, Global};

/// The first word of a line, and what stands behind its blank.
pub fn head_of(line: &str) -> (&str, &str) {
    line.split_once(' ').unwrap_or((line, ""))
}

/// The number that a word is, and the greatest there is where it is none.
pub fn number_of(word: &str) -> u64 {
    word.parse().unwrap_or(u64::MAX)
}

/// The numbers of a text, parted by blanks.
pub fn numbers_of(alloc: Global, text: &str) -> Result<Vec<u64>, AllocError> {
    text.split_whitespace()
        .map(|word| number_of(word))
        .collect(alloc)
}

/// Puts the numbers of a text into these places, as many as there are of both.
pub fn put_numbers(places: &mut [u64], text: &str) {
    for (place, word) in places.iter_mut().zip(text.split_whitespace()) {
        *place = number_of(word);
    }
}
