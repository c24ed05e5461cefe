//! Entries in the order of their keys: what stands at a key, and what a change there makes.

ghost use Rattle.std.specs.Prelude.{◌≡◌, ◌+◌, ◌<◌, ◌≤◌, ◌^◌, vec_len, vec_capacity, T, Ok, Err, Some, None};
ghost use Rattle.std.specs.List.{insert};
ghost use Rattle.std.specs.FinMap.Entries.{is_sorted};
ghost use Rattle.fuxi_terms.specs.Counts.{count, set_count, moved};
ghost use Rattle.ledger_law.specs.Places.{IsPlace};
ghost use Rattle.ledger_law.specs.KeyCodes.{key_code};

use fuxi_terms::Key;
use std::cmp::Ordering;

/// A key of entries, whose order tells any two apart.
pub trait EntryKey: Ord + Copy {
    ghost use Rattle.std.specs.Prelude.{◌≡◌};
    ghost use Rattle.std.specs.declared.cmp.Ordering.TheVariants.{Equal};

    /// The order of keys, as of `cmp`.
    fn order(&self, other: &Self) -> Ordering
        ensures { result ≡ Self.cmp self.now other.now };

    /// Keys that tie are one.
    ghost exact: { (a b : Self) → Self.cmp a b ≡ Equal → a ≡ b };
}

impl EntryKey for Key {
    ghost use Rattle.fuxi_terms.proofs.KeyOrders.{same_key};

    ghost exact = { same_key };

    // By one number each, since a search has no branch then that nobody can foresee.
    fn order(&self, other: &Key) -> Ordering {
        code(self).cmp(&code(other))
    }
}

// A number that rises with the key.
fn code(key: &Key) -> u64
    ensures code { result ≡ key_code key.now }
    ensures unit { key.now.unit < 256 }
    ensures number { key.now.number < 2 ^ 32 }
{
    (key.what as u64 * 256 + key.unit as u64) * 4_294_967_296 + key.number as u64
}

/// Where the key stands, or, as an error, where it would.
pub fn place_of<K: EntryKey>(entries: &[(K, u64)], key: &K) -> Result<usize, usize>
    requires { T (is_sorted K.cmp entries.now) }
    ensures { IsPlace K.cmp entries.now key.now result }
{
    match entries.last() {
        Some(last) if last.0.order(key).is_lt() => Err(entries.len()),
        _ => entries.binary_search_by(|entry| entry.0.order(key)),
    }
}

/// The number at the place of a key, and 0 where it has no entry.
pub fn count_at<K: EntryKey>(entries: &[(K, u64)], key: &K, place: Result<usize, usize>) -> u64
    requires sorted { T (is_sorted K.cmp entries.now) }
    requires place { IsPlace K.cmp entries.now key.now place }
    ensures { result ≡ count K.cmp entries.now key.now }
{
    match place {
        Ok(at) => entries[at].1,
        Err(_) => 0,
    }
}

/// The number at a key, and 0 where it has no entry.
pub fn count_of<K: EntryKey>(entries: &[(K, u64)], key: &K) -> u64
    requires { T (is_sorted K.cmp entries.now) }
    ensures { result ≡ count K.cmp entries.now key.now }
{
    count_at(entries, key, place_of(entries, key))
}

/// A number moved by a change, where it stays at least 0.
pub fn moved(n: u64, change: i64) -> Option<u64>
    requires { n < 2 ^ 62 }
    ensures { result ≡ moved n change }
{
    if change < 0 {
        n.checked_sub(change.unsigned_abs())
    } else {
        Some(n + change as u64)
    }
}

// Puts an entry in at a place, where there is room.
fn put_in<K: EntryKey>(entries: &mut Vec<(K, u64)>, at: usize, entry: (K, u64))
    requires place { at ≤ vec_len entries.old }
    requires room { vec_len entries.old < vec_capacity entries.old }
    ensures items { entries.new.items ≡ insert entries.old.items at entry }
    ensures len { vec_len entries.new ≡ vec_len entries.old + 1 }
    ensures capacity { vec_capacity entries.old ≤ vec_capacity entries.new }
{
    // Behind the last entry no other one has to move.
    if at == entries.len() {
        entries.push_reserved(entry);
        return;
    }
    match entries.insert(at, entry) {
        Ok(()) => {}
        Err(_) => unreachable!(),
    }
}

/// Sets the number at a key, whose place is known. A number 0 has no entry. It takes no memory.
pub fn set_entry<K: EntryKey>(
    entries: &mut Vec<(K, u64)>,
    place: Result<usize, usize>,
    key: K,
    n: u64,
)
    requires place { IsPlace K.cmp entries.old.items key place }
    requires sorted { T (is_sorted K.cmp entries.old.items) }
    requires room { vec_len entries.old < vec_capacity entries.old }
    ensures items { entries.new.items ≡ set_count K.cmp entries.old.items key n }
    ensures len { vec_len entries.new ≤ vec_len entries.old + 1 }
    ensures capacity { vec_capacity entries.old ≤ vec_capacity entries.new }
{
    match place {
        Ok(at) => {
            if n == 0 {
                entries.remove(at);
            } else {
                entries[at] = (key, n);
            }
        }
        Err(at) => {
            if n > 0 {
                put_in(entries, at, (key, n));
            }
        }
    }
}

/// Whether the keys rise.
pub fn keys_rise<K: EntryKey, X: Copy>(entries: &[(K, X)]) -> bool
    ensures { result ≡ is_sorted K.cmp entries.now }
{
    for i in 1..entries.len() {
        if !entries[i - 1].0.order(&entries[i].0).is_lt() {
            return false;
        }
    }
    true
}
