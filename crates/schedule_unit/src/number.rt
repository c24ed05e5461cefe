//! Numbers as text: decimals of at most 20 digits, with no sign and no leading zero, below 2^64.

ghost use Rattle.std.specs.Prelude.{◌≡◌, ◌+◌, ◌*◌, ◌^◌, ◌<◌, ◌++◌, ◌&&◌, ◌||◌, not, nat_eq, nat_lt, length, slice_index, Some, None, if◌then◌else◌, SomeIff, OnOk, OnErr, decimal};
ghost use Rattle.std.specs.Str.{all_ascii_digits};
ghost use Rattle.std.specs.Str.Parse.{digits_value};
ghost use Rattle.fuxi_terms.specs.Cluster.{is_between};
ghost use Rattle.schedule_unit.specs.NumberWords.{number_of};

use fuxi_terms::OutOfMemory;
use itoa::Buffer;

/// The number that the word is; None exactly where it is none.
pub fn read_number(word: &[u8]) -> Option<u64>
    ensures { result ≡ number_of word.now }
{
    if is_framed(word) {
        value_of(word)
    } else {
        None
    }
}

// Whether the word is as long as a number may be, with no leading zero.
fn is_framed(word: &[u8]) -> bool
    ensures { result ≡ is_between 1 20 (length word.now) && (nat_eq (length word.now) 1 || not (nat_eq (slice_index word.now 0) 48)) }
{
    (1..=20).contains(&word.len()) && (word.len() == 1 || word[0] != b'0')
}

// What the digits write, in one walk; None where a byte is no digit or the number is too great.
fn value_of(word: &[u8]) -> Option<u64>
    ensures { result ≡ (if all_ascii_digits word.now && nat_lt (digits_value 10 word.now) (2 ^ 64) then Some (digits_value 10 word.now) else None) }
{
    let mut value: u64 = 0;
    for byte in word {
        if !byte.is_ascii_digit() {
            return None;
        }
        match with_digit(value, *byte - b'0') {
            Some(more) => value = more,
            None => return None,
        }
    }
    Some(value)
}

// The number with one more digit behind it.
fn with_digit(value: u64, digit: u8) -> Option<u64>
    ensures { SomeIff result (value * 10 + digit < 2 ^ 64) (value * 10 + digit) }
{
    value.checked_mul(10)?.checked_add(u64::from(digit))
}

/// Appends the number's word. Leaves `out` as it was where memory was refused.
#[tactic(auto, using(std::proofs::lemmas::Fmt::decimal_digit, crate::proofs::Decimals::two_digits))]
pub fn write_number(n: u64, out: &mut Vec<u8>) -> Result<(), OutOfMemory>
    ensures ok { OnOk result (out.new.items ≡ out.old.items ++ decimal n) }
    ensures err { OnErr result (out.new.items ≡ out.old.items) }
{
    // One digit and two need no buffer, and no copy of unknown length.
    if n < 10 {
        return Ok(out.push(b'0' + n as u8)?);
    }
    if n < 100 {
        return Ok(out.extend_from_slice(&[b'0' + (n / 10) as u8, b'0' + (n % 10) as u8])?);
    }
    Ok(out.extend_from_slice(Buffer::new().format(n).as_bytes())?)
}
