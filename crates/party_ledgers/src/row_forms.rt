//! How the entries of a row are written: job (4 bytes), unit (1), eight places of the size (8 each), and
//! the count or the change (4).

ghost use Rattle.std.specs.Prelude.{◌≡◌, ◌+◌, ◌<◌, ◌≤◌, ◌^◌, ◌++◌, List, ℕ, length, take, drop, vec_len, vec_capacity};
ghost use Rattle.std.specs.List.{All, flat_map};
ghost use Rattle.std.specs.Int.{to_be_bytes, w32, w64};
ghost use Rattle.party_ledgers.specs.RowForms.{row_key_bytes, IsWholeKey};

use crate::row::RowKey;
use ledger_law::forms::{EntryForm, append};

// The eight places that have these bytes.
fn read_size(bytes: &[u8]) -> [u64; 8]
    requires { length bytes.now ≡ 64 }
    ensures form { flat_map (to_be_bytes w64) result ≡ bytes.now }
    ensures places { length result ≡ 8 }
    ensures quantities { All (λ quantity. quantity < 2 ^ 64) result }
{
    let mut size = [0; 8];
    let mut left = bytes;
    for i in 0..8 {
        let (front, rest) = left.split_at(8);
        size[i] = u64::from_be_bytes([
            front[0], front[1], front[2], front[3], front[4], front[5], front[6], front[7],
        ]);
        left = rest;
    }
    size
}

// The bytes of a key and a number, behind three bytes and before four that are of no use: each place of the
// size is a row of its own, so that it is stored whole.
fn entry_rows(key: &RowKey, value: u32) -> [[u8; 8]; 10]
    ensures { take 73 (drop 3 (flat_map (λ row. row) result)) ≡ row_key_bytes key.now ++ to_be_bytes w32 value }
{
    let [j0, j1, j2, j3] = key.job.to_be_bytes();
    let [v0, v1, v2, v3] = value.to_be_bytes();
    let [q0, q1, q2, q3, q4, q5, q6, q7] = key.size;
    [
        [0, 0, 0, j0, j1, j2, j3, key.unit],
        q0.to_be_bytes(),
        q1.to_be_bytes(),
        q2.to_be_bytes(),
        q3.to_be_bytes(),
        q4.to_be_bytes(),
        q5.to_be_bytes(),
        q6.to_be_bytes(),
        q7.to_be_bytes(),
        [v0, v1, v2, v3, 0, 0, 0, 0],
    ]
}

// The bytes of a key and a number, in one piece.
fn write_entry(key: &RowKey, value: u32, out: &mut Vec<u8>)
    requires { vec_len out.old + 73 ≤ vec_capacity out.old }
    ensures items { out.new.items ≡ out.old.items ++ row_key_bytes key.now ++ to_be_bytes w32 value }
    ensures len { vec_len out.new ≡ vec_len out.old + 73 }
    ensures capacity { vec_capacity out.old ≤ vec_capacity out.new }
{
    append(&entry_rows(key, value).as_flattened()[3..76], out);
}

fn read_key(bytes: &[u8]) -> RowKey
    requires { length bytes.now ≡ 69 }
    ensures form { row_key_bytes result ≡ bytes.now }
    ensures whole { IsWholeKey result }
{
    let (front, size) = bytes.split_at(5);
    RowKey {
        job: u32::from_be_bytes([front[0], front[1], front[2], front[3]]),
        unit: front[4],
        size: read_size(size),
    }
}

/// The entries of a row, with their counts.
pub(crate) struct RowNumbers;

impl EntryForm for RowNumbers {
    ghost use Rattle.std.proofs.Common.{lit<};
    ghost use Rattle.party_ledgers.specs.RowForms.{row_entry, IsRowEntry};
    ghost use Rattle.party_ledgers.specs.RowOneForm.{row_wide, row_one};

    type Entry = (RowKey, u64);

    ghost WIDTH = { 73 };

    ghost form = { row_entry };

    ghost is_entry = { IsRowEntry };

    ghost wide = { row_wide };

    ghost narrow = { lit< tt };

    ghost one = { row_one };

    const WIDTH: usize = 73;

    fn write(entry: &(RowKey, u64), out: &mut Vec<u8>) {
        write_entry(&entry.0, entry.1 as u32, out);
    }

    fn read(bytes: &[u8]) -> (RowKey, u64) {
        let (key, count) = bytes.split_at(69);
        let count = u32::from_be_bytes([count[0], count[1], count[2], count[3]]);
        (read_key(key), count as u64)
    }
}

/// The changes of a row, in two's complement.
pub(crate) struct RowChanges;

impl EntryForm for RowChanges {
    ghost use Rattle.std.proofs.Common.{lit<};
    ghost use Rattle.party_ledgers.specs.RowForms.{row_change_entry, IsRowChangeEntry};
    ghost use Rattle.party_ledgers.specs.RowOneForm.{row_change_wide, row_change_one};

    type Entry = (RowKey, i64);

    ghost WIDTH = { 73 };

    ghost form = { row_change_entry };

    ghost is_entry = { IsRowChangeEntry };

    ghost wide = { row_change_wide };

    ghost narrow = { lit< tt };

    ghost one = { row_change_one };

    const WIDTH: usize = 73;

    fn write(entry: &(RowKey, i64), out: &mut Vec<u8>) {
        write_entry(&entry.0, (entry.1 as i32).cast_unsigned(), out);
    }

    fn read(bytes: &[u8]) -> (RowKey, i64) {
        let (key, change) = bytes.split_at(69);
        let change = i32::from_be_bytes([change[0], change[1], change[2], change[3]]);
        (read_key(key), change as i64)
    }
}
