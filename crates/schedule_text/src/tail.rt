//! A line that is put together from its end, so that it goes behind others at once.

ghost use Rattle.std.specs.Prelude.{◌≡◌, ◌+◌, ◌/◌, ◌%◌, ◌<◌, ◌≤◌, ◌++◌, ◌∷◌, [], length, decimal};

use std::marker::Model;

// No line but those of an event and of a frame is longer.
const MOST_BYTES: usize = 256;

// The two digits of each number below 100, one behind another.
static PAIRS: [u8; 200] =
    *b"00010203040506070809101112131415161718192021222324252627282930313233343536373839404142434445464748495051525354555657585960616263646566676869707172737475767778798081828384858687888990919293949596979899";

// The two digits of a number, looked up where two divisions would take twice as long.
fn pair_of(number: u8) -> (u8, u8)
    requires { number < 100 }
    ensures tens { result.0 ≡ 48 + number / 10 }
    ensures ones { result.1 ≡ 48 + number % 10 }
{
    let at = 2 * number as usize;
    (PAIRS[at], PAIRS[at + 1])
}

/// The end of a line, in front of which more is put. It takes no memory.
#[derive(Drop)]
pub(crate) struct Tail {
    bytes: [u8; MOST_BYTES],
    // What stands before this place is not used yet.
    from: usize,
}

impl Model for Tail {
    ghost use Rattle.std.specs.Prelude.{ℕ, List, ◌≤◌, drop};

    ghost Value = { List ℕ };

    ghost view = { λ t. drop t.from t.bytes };

    ghost invariant = { λ t. t.from ≤ 256 };
}

impl Tail {
    /// Nothing yet.
    pub(crate) fn new() -> Tail
        ensures { result ≡ [] }
    {
        Tail {
            bytes: [0; MOST_BYTES],
            from: MOST_BYTES,
        }
    }

    /// What it is so far.
    pub(crate) fn as_slice(&self) -> &[u8]
        ensures { result.now ≡ self.now }
    {
        &self.bytes[self.from..]
    }

    /// A byte in front.
    pub(crate) fn put(&mut self, byte: u8)
        requires room { length self.old + 1 ≤ 256 }
        ensures is { self.new ≡ byte ∷ self.old }
        ensures long { length self.new ≡ length self.old + 1 }
    {
        self.from -= 1;
        self.bytes[self.from] = byte;
    }

    /// A word in front.
    pub(crate) fn put_word(&mut self, word: &[u8])
        requires room { length self.old + length word.now ≤ 256 }
        ensures is { self.new ≡ word.now ++ self.old }
        ensures long { length self.new ≡ length self.old + length word.now }
    {
        let end = self.from;
        self.from -= word.len();
        self.bytes[self.from..end].copy_from_slice(word);
    }

    // The two digits of a number in front.
    fn put_pair(&mut self, number: u8)
        requires room { length self.old + 2 ≤ 256 }
        requires small { number < 100 }
        ensures is { self.new ≡ (48 + number / 10) ∷ (48 + number % 10) ∷ self.old }
        ensures long { length self.new ≡ length self.old + 2 }
    {
        let (tens, ones) = pair_of(number);
        let from = self.from - 2;
        self.bytes[from] = tens;
        self.bytes[from + 1] = ones;
        self.from = from;
    }

    /// A number in front, two digits at a time.
    pub(crate) fn put_number(&mut self, number: u64)
        requires room { length self.old + 20 ≤ 256 }
        ensures is { self.new ≡ decimal number ++ self.old }
        ensures short { length self.new ≤ length self.old + 20 }
    {
        let mut left = number;
        while left >= 100 {
            self.put_pair((left % 100) as u8);
            left /= 100;
        }
        if left >= 10 {
            self.put_pair(left as u8);
            return;
        }
        self.put(b'0' + left as u8);
    }
}
