//! Bytes as words.

use crate::stop::Stop;
use std::alloc::{AllocError, Global};

// Appends a number in so many bytes, big-endian and in two's complement; more than eight of them are zeros.
fn push_number(bytes: &mut Vec<u8>, width: u8, number: i64) -> Result<(), AllocError> {
    let all = number.to_be_bytes();
    if width <= 8 {
        return bytes.extend_from_slice(&all[8 - width as usize..]);
    }
    for _ in 0..width {
        bytes.push(0)?;
    }
    Ok(())
}

// Appends one grant of each unit of each job, the entries of a row that has as many as it may.
fn push_each(bytes: &mut Vec<u8>) -> Result<(), AllocError> {
    for job in 0..256 {
        for unit in 0..8 {
            for (width, number) in [(4, job), (1, unit), (8, 1), (56, 0), (4, 1)] {
                push_number(bytes, width, number)?;
            }
        }
    }
    Ok(())
}

// Appends what a word stands for; false where it stands for nothing.
fn push_word(alloc: Global, bytes: &mut Vec<u8>, word: &str) -> Result<bool, AllocError> {
    if word == "each" {
        push_each(bytes)?;
        return Ok(true);
    }
    let Some((width, number)) = word.split_once(':') else {
        let Ok(digits) = hex::decode(alloc, word) else {
            return Ok(false);
        };
        bytes.extend_from_slice(&digits)?;
        return Ok(true);
    };
    let (Ok(width), Ok(number)) = (width.parse(), number.parse()) else {
        return Ok(false);
    };
    push_number(bytes, width, number)?;
    Ok(true)
}

/// The bytes of words: hexadecimal digits; `WIDTH:NUMBER`, a number in so many bytes; and `each`, one grant of each unit of
/// each job. None where a word is none of these.
pub fn bytes_of(alloc: Global, words: &[&str]) -> Result<Option<Vec<u8>>, Stop> {
    let mut bytes = Vec::new(alloc);
    for word in words {
        if !push_word(alloc, &mut bytes, word)? {
            return Ok(None);
        }
    }
    Ok(Some(bytes))
}
