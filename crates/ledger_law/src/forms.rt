//! Written forms of entries: each takes so many bytes, and a list has their number before it.

ghost use Rattle.std.specs.Prelude.{◌≡◌, ◌+◌, ◌*◌, ◌<◌, ◌≤◌, ◌^◌, ◌++◌, List, ℕ, length, vec_len, vec_capacity, IfOk, IfErr, OnOk, OnErr};
ghost use Rattle.std.specs.List.{All, flat_map};
ghost use Rattle.ledger_law.specs.Forms.{counted, headed, number_entry, IsNumberEntry};
ghost use Rattle.ledger_law.specs.declared.ledger.BodyFault.TheVariants.{NotBody};

use crate::ledger::{BodyFault, Key, OutOfMemory};
use std::alloc::Global;

/// How entries of a kind are written: each in the same number of bytes.
pub trait EntryForm {
    ghost use Rattle.std.specs.Prelude.{◌≡◌, ◌+◌, ◌<◌, ◌≤◌, ◌^◌, ◌++◌, ℕ, List, length, vec_len, vec_capacity};

    /// An entry.
    type Entry: Copy;

    ghost WIDTH: { ℕ };

    /// The bytes of an entry.
    ghost form: { Self.Entry → List ℕ };

    /// The entries whose fields have room in their places.
    ghost is_entry: { Self.Entry → Type 0 };

    /// How many bytes an entry takes.
    const WIDTH: usize;

    /// Appends the bytes of an entry. There is room for them, so it takes no memory.
    fn write(entry: &Self::Entry, out: &mut Vec<u8>)
        requires entry { is_entry entry.now }
        requires room { vec_len out.old + WIDTH ≤ vec_capacity out.old }
        ensures items { out.new.items ≡ out.old.items ++ form entry.now }
        ensures len { vec_len out.new ≡ vec_len out.old + WIDTH }
        ensures capacity { vec_capacity out.old ≤ vec_capacity out.new };

    /// The entry that has these bytes.
    fn read(bytes: &[u8]) -> Self::Entry
        requires { length bytes.now ≡ WIDTH }
        ensures form { form result ≡ bytes.now }
        ensures entry { is_entry result };

    /// Each entry takes as many bytes.
    ghost wide: { (e : Self.Entry) → is_entry e → length (form e) ≡ WIDTH };

    /// And not more than 64 KiB.
    ghost narrow: { WIDTH < 2 ^ 16 };

    /// Bytes are those of one entry.
    ghost one: { (a b : Self.Entry) → is_entry a → is_entry b → form a ≡ form b → a ≡ b };
}

/// Appends bytes where there is room for them. It takes no memory.
pub fn append(bytes: &[u8], out: &mut Vec<u8>)
    requires { vec_len out.old + length bytes.now ≤ vec_capacity out.old }
    ensures items { out.new.items ≡ out.old.items ++ bytes.now }
    ensures len { vec_len out.new ≡ vec_len out.old + length bytes.now }
    ensures capacity { vec_capacity out.old ≤ vec_capacity out.new }
{
    match out.extend_from_slice(bytes) {
        Ok(()) => {}
        Err(_) => unreachable!(),
    }
}

// The entries, one after another, where there is room for all.
fn write_entries<F: EntryForm>(entries: &[F::Entry], out: &mut Vec<u8>)
    requires entries { All F.is_entry entries.now }
    requires room { vec_len out.old + length entries.now * F.WIDTH ≤ vec_capacity out.old }
    ensures items { out.new.items ≡ out.old.items ++ flat_map F.form entries.now }
{
    for entry in entries {
        F::write(entry, out);
    }
}

// The number of the entries and each of them, where there is room for all.
fn put_counted<F: EntryForm>(entries: &[F::Entry], out: &mut Vec<u8>)
    requires entries { All F.is_entry entries.now }
    requires few { length entries.now < 2 ^ 32 }
    requires room { vec_len out.old + 4 + length entries.now * F.WIDTH ≤ vec_capacity out.old }
    ensures { out.new.items ≡ out.old.items ++ counted F.form entries.now }
{
    append(&(entries.len() as u32).to_be_bytes(), out);
    write_entries::<F>(entries, out);
}

// So many entries from bytes that are as long.
fn read_entries<F: EntryForm>(
    alloc: Global,
    n: usize,
    bytes: &[u8],
) -> Result<Vec<F::Entry>, OutOfMemory>
    requires { length bytes.now ≡ n * F.WIDTH }
    ensures form { IfOk result (λ entries. flat_map F.form entries.items ≡ bytes.now) }
    ensures len { IfOk result (λ entries. length entries.items ≡ n) }
    ensures entries { IfOk result (λ entries. All F.is_entry entries.items) }
{
    let mut entries = Vec::new(alloc);
    entries.reserve(n)?;
    let mut left = bytes;
    for _ in 0..n {
        let (entry, rest) = left.split_at(F::WIDTH);
        entries.push(F::read(entry))?;
        left = rest;
    }
    Ok(entries)
}

/// Reads the number of entries and each of them. `NotBody` comes exactly where the bytes are none such.
pub fn read_counted<F: EntryForm>(alloc: Global, bytes: &[u8]) -> Result<Vec<F::Entry>, BodyFault>
    ensures found { IfOk result (λ entries. bytes.now ≡ counted F.form entries.items) }
    ensures none { IfErr result (λ fault. fault ≡ NotBody → (es : List F.Entry) → All F.is_entry es → length es < 2 ^ 32 → bytes.now ≡ counted F.form es → ⊥) }
    ensures entries { IfOk result (λ entries. All F.is_entry entries.items × (length entries.items < 2 ^ 32)) }
{
    if bytes.len() < 4 {
        return Err(BodyFault::NotBody);
    }
    let (front, rest) = bytes.split_at(4);
    let n = u32::from_be_bytes([front[0], front[1], front[2], front[3]]) as usize;
    if rest.len() != n * F::WIDTH {
        return Err(BodyFault::NotBody);
    }
    Ok(read_entries::<F>(alloc, n, rest)?)
}

/// Appends the number of the entries and each of them. The bytes are as they were after a refusal.
pub fn write_counted<F: EntryForm>(
    entries: &[F::Entry],
    out: &mut Vec<u8>,
) -> Result<(), OutOfMemory>
    requires entries { All F.is_entry entries.now }
    requires few { length entries.now < 2 ^ 32 }
    ensures ok { OnOk result (out.new.items ≡ out.old.items ++ counted F.form entries.now) }
    ensures err { OnErr result (out.new.items ≡ out.old.items) }
{
    out.reserve(4 + entries.len() * F::WIDTH)?;
    put_counted::<F>(entries, out);
    Ok(())
}

/// Appends a head and the counted entries. The bytes are as they were after a refusal.
pub fn write_headed<F: EntryForm>(
    head: u64,
    entries: &[F::Entry],
    out: &mut Vec<u8>,
) -> Result<(), OutOfMemory>
    requires entries { All F.is_entry entries.now }
    requires few { length entries.now < 2 ^ 32 }
    ensures ok { OnOk result (out.new.items ≡ out.old.items ++ headed F.form head entries.now) }
    ensures err { OnErr result (out.new.items ≡ out.old.items) }
{
    out.reserve(12 + entries.len() * F::WIDTH)?;
    append(&head.to_be_bytes(), out);
    put_counted::<F>(entries, out);
    Ok(())
}

/// Reads a head and counted entries. `NotBody` comes exactly where the bytes are none such.
pub fn read_headed<F: EntryForm>(
    alloc: Global,
    bytes: &[u8],
) -> Result<(u64, Vec<F::Entry>), BodyFault>
    ensures found { IfOk result (λ read. bytes.now ≡ headed F.form read.0 read.1.items) }
    ensures head { IfOk result (λ read. read.0 < 2 ^ 64) }
    ensures entries { IfOk result (λ read. All F.is_entry read.1.items × (length read.1.items < 2 ^ 32)) }
    ensures none { IfErr result (λ fault. fault ≡ NotBody → (head : ℕ) (es : List F.Entry) → All F.is_entry es → length es < 2 ^ 32 → bytes.now ≡ headed F.form head es → ⊥) }
{
    if bytes.len() < 8 {
        return Err(BodyFault::NotBody);
    }
    let (front, rest) = bytes.split_at(8);
    let head = u64::from_be_bytes([
        front[0], front[1], front[2], front[3], front[4], front[5], front[6], front[7],
    ]);
    let entries = read_counted::<F>(alloc, rest)?;
    Ok((head, entries))
}

// The bytes of a key and a value.
fn number_bytes(key: &Key, value: u64) -> [u8; 12]
    requires { key.now.number < 2 ^ 16 }
    ensures { result ≡ number_entry (key.now, value) }
{
    let [n0, n1] = (key.number as u16).to_be_bytes();
    let [v0, v1, v2, v3, v4, v5, v6, v7] = value.to_be_bytes();
    [key.what, key.unit, n0, n1, v0, v1, v2, v3, v4, v5, v6, v7]
}

// The key and the value that have these bytes.
fn number_of(bytes: &[u8]) -> (Key, u64)
    requires { length bytes.now ≡ 12 }
    ensures form { number_entry result ≡ bytes.now }
    ensures entry { IsNumberEntry result }
{
    let number = u16::from_be_bytes([bytes[2], bytes[3]]);
    let value = u64::from_be_bytes([
        bytes[4], bytes[5], bytes[6], bytes[7], bytes[8], bytes[9], bytes[10], bytes[11],
    ]);
    let key = Key {
        what: bytes[0],
        unit: bytes[1],
        number: number as u32,
    };
    (key, value)
}

/// Entries of a tally: what (1 byte), unit (1), number (2), value (8).
pub struct Numbers;

impl EntryForm for Numbers {
    ghost use Rattle.ledger_law.specs.Forms.{number_entry, IsNumberEntry};
    ghost use Rattle.ledger_law.specs.OneForm.{number_wide, number_one};
    ghost use Rattle.std.proofs.Common.{lit<};

    type Entry = (Key, u64);

    ghost WIDTH = { 12 };

    ghost form = { number_entry };

    ghost is_entry = { IsNumberEntry };

    ghost wide = { number_wide };

    ghost narrow = { lit< tt };

    ghost one = { number_one };

    const WIDTH: usize = 12;

    fn write(entry: &(Key, u64), out: &mut Vec<u8>) {
        append(&number_bytes(&entry.0, entry.1), out);
    }

    fn read(bytes: &[u8]) -> (Key, u64) {
        number_of(bytes)
    }
}

/// Changes of a tally: as its entries, with the change in two's complement in place of the value.
pub struct Changes;

impl EntryForm for Changes {
    ghost use Rattle.ledger_law.specs.Forms.{change_entry, IsChangeEntry};
    ghost use Rattle.ledger_law.specs.OneForm.{change_wide, change_one};
    ghost use Rattle.std.proofs.Common.{lit<};

    type Entry = (Key, i64);

    ghost WIDTH = { 12 };

    ghost form = { change_entry };

    ghost is_entry = { IsChangeEntry };

    ghost wide = { change_wide };

    ghost narrow = { lit< tt };

    ghost one = { change_one };

    const WIDTH: usize = 12;

    fn write(entry: &(Key, i64), out: &mut Vec<u8>) {
        append(&number_bytes(&entry.0, entry.1.cast_unsigned()), out);
    }

    fn read(bytes: &[u8]) -> (Key, i64) {
        let (key, value) = number_of(bytes);
        (key, value.cast_signed())
    }
}
