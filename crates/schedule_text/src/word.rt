//! The words of a line.

ghost use Rattle.std.specs.Prelude.{◌≡◌, ◌≤◌, ◌==◌, ◌++◌, ◌∷◌, [], IfOk, IfSome, filter, length, map, take};
ghost use Rattle.std.specs.List.{position, position_or_len};
ghost use Rattle.schedule_text.specs.Words.{is_word, words_of};

use fuxi_terms::OutOfMemory;
use std::alloc::Global;

/// The words of a line, which blanks separate. Where memory is refused there is no list of them.
pub fn words_of(alloc: Global, line: &[u8]) -> Result<Vec<&[u8]>, OutOfMemory>
    ensures { IfOk result (λ words. map (λ w. w.now) words.items ≡ words_of line.now) }
{
    Ok(
        line.split(|byte| *byte == b' ')
            .filter(|word| !word.is_empty())
            .collect(alloc)?,
    )
}

// The words of a line that has at most 8, and how many they are.
pub fn few_words<'a>(line: &'a [u8], few: &mut [&'a [u8]; 8]) -> Option<usize>
    ensures places { length few.new ≡ 8 }
    ensures words { IfSome result (λ count. (count ≤ 8) × (map (λ w. w.now) (take count few.new) ≡ words_of line.now)) }
{
    let mut rest = line;
    let mut count = 0;
    loop {
        let (part, behind) = rest.split_at(part_length(rest));
        match put_part(few, count, part) {
            Some(more) => count = more,
            None => return None,
        }
        match behind {
            [_, left @ ..] => rest = left,
            [] => return Some(count),
        }
    }
}

// A part between blanks goes behind the words that are there, where it is a word; None where there is no place for it.
fn put_part<'a>(few: &mut [&'a [u8]; 8], count: usize, part: &'a [u8]) -> Option<usize>
    requires { count ≤ 8 }
    ensures places { length few.new ≡ 8 }
    ensures words { IfSome result (λ more. (more ≤ 8) × (map (λ w. w.now) (take more few.new) ≡ map (λ w. w.now) (take count few.old) ++ filter is_word (part.now ∷ []))) }
{
    if part.is_empty() {
        return Some(count);
    }
    if count >= 8 {
        return None;
    }
    few[count] = part;
    Some(count + 1)
}

fn first_blank(rest: &[u8]) -> Option<usize>
    ensures { result ≡ position (λ b. b == 32) rest.now }
{
    rest.iter().position(|byte| *byte == b' ')
}

// How many bytes stand before the first blank.
fn part_length(rest: &[u8]) -> usize
    ensures { result ≡ position_or_len (λ b. b == 32) rest.now }
{
    match first_blank(rest) {
        Some(length) => length,
        None => rest.len(),
    }
}
