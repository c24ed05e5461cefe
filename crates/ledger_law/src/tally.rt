ghost use Rattle.std.specs.Prelude.{◌≡◌, ◌↔◌, ◌+◌, ◌<◌, ◌≤◌, ◌^◌, ◌++◌, ◌∷◌, [], T, Bool, not, false, nat_eq, List, ℕ, length, vec_len, vec_capacity, OnOk, OnErr, IfOk, IfErr, IsOk, IsTrue, Ok, Err, All, unsigned_abs};
ghost use Rattle.std.specs.declared.cmp.Ordering.TheVariants.{Less};
ghost use Rattle.std.specs.FinMap.Entries.{where_key, is_sorted};
ghost use Rattle.std.specs.List.{AllByRecursion};
ghost use Rattle.fuxi_terms.specs.declared.Key.{Key};
ghost use Rattle.fuxi_terms.specs.Keys.{key_cmp};
ghost use Rattle.fuxi_terms.specs.Counts.{AreCounts, AreChanges, count, moved_within, change_one, change_all, is_no_change};
ghost use Rattle.fuxi_terms.specs.declared.answers.LedgerFault.TheVariants.{Below, TooGreat};
ghost use Rattle.ledger_law.specs.Applying.{Applies, IsRefusal};
ghost use Rattle.ledger_law.specs.Forms.{change_entry, change_form, headed, IsChangeEntry};
ghost use Rattle.ledger_law.specs.ReadForms.{Reads};
ghost use Rattle.ledger_law.specs.Shapes.{kept_under, AreChangesWithin, IsChange};

use crate::entries::{count_at, count_of, keys_rise, moved, place_of, set_entry};
use crate::forms::{Changes, EntryForm, Numbers, read_headed, write_headed};
use crate::ledger::{BodyFault, Key, Ledger, LedgerFault, OutOfMemory};
use smallvec::SmallVec;
use std::alloc::Global;
use std::marker::{Model, PhantomData};

/// Which keys a tally may have, each with its greatest number, and which of them go with a new head.
pub trait Shape {
    ghost use Rattle.std.specs.Prelude.{◌≡◌, ◌↔◌, ◌≤◌, ◌<◌, ℕ};
    ghost use Rattle.fuxi_terms.specs.declared.Key.{Key};
    ghost use Rattle.ledger_law.specs.Shapes.{IsWritable};

    ghost DROPPED: { ℕ };

    /// The greatest number of a key, 0 where the key is none.
    ghost greatest_of: { Key → ℕ };

    /// The kind of entry that goes when the head changes.
    const DROPPED: u8;

    /// The greatest number of a key, and 0 where the key is none.
    fn greatest(key: &Key) -> u64
        ensures { result ≡ greatest_of key.now };

    /// No number is above 10^12.
    ghost bounded: { (key : Key) → greatest_of key ≤ 1000000000000 };

    /// A key has a kind that is not 0, and a number of at most 65,535.
    ghost writable: { (key : Key) → 0 < greatest_of key → IsWritable key };
}

/// A head, and numbers by key. A number 0 has no entry.
#[derive(Drop)]
pub struct Tally<S: Shape> {
    head: u64,
    entries: Vec<(Key, u64)>,
    shape: PhantomData<S>,
}

impl<S: Shape> Model for Tally<S> {
    ghost use Rattle.fuxi_terms.specs.Tallies.{TallyRecord};
    ghost use Rattle.fuxi_terms.specs.Counts.{AreCounts};
    ghost use Rattle.fuxi_terms.specs.Keys.{key_cmp};

    ghost Value = { TallyRecord };

    ghost view = { λ t. record { head = t.head; entries = t.entries.items } };

    ghost invariant = { λ t. AreCounts key_cmp S.greatest_of t.entries.items };
}

/// A new head, and changes by key in the order of the keys. No change is 0.
#[derive(Drop)]
pub struct Change {
    head: u64,
    /// One entry, as most changes have, needs no memory of its own.
    entries: SmallVec<(Key, i64), 1>,
}

impl Model for Change {
    ghost use Rattle.fuxi_terms.specs.Tallies.{ChangeRecord};
    ghost use Rattle.fuxi_terms.specs.Counts.{AreChanges};
    ghost use Rattle.fuxi_terms.specs.Keys.{key_cmp};

    ghost Value = { ChangeRecord };

    ghost view = { λ c. record { head = c.head; entries = c.entries.items } };

    ghost invariant = { λ c. AreChanges key_cmp c.entries.items };
}

impl Change {
    /// A change to this head, with no entry.
    pub fn new(alloc: Global, head: u64) -> Change
        ensures { result ≡ record { head = head; entries = [] } }
    {
        Change {
            head,
            entries: SmallVec::new(alloc),
        }
    }

    /// One entry more, behind the others. Want of memory leaves the change as it was.
    pub fn put(&mut self, key: Key, change: i64) -> Result<(), OutOfMemory>
        requires real { is_no_change change ≡ false }
        requires rises { All (λ e. key_cmp e.0 key ≡ Less) self.old.entries }
        ensures ok { OnOk result (self.new ≡ record { head = self.old.head; entries = self.old.entries ++ (key, change) ∷ [] }) }
        ensures err { OnErr result (self.new ≡ self.old) }
    {
        match self.entries.push((key, change)) {
            Ok(()) => Ok(()),
            Err(_) => Err(OutOfMemory),
        }
    }

    /// The new head.
    pub fn head(&self) -> u64
        ensures { result ≡ self.now.head }
    {
        self.head
    }

    /// Whether it has a written form as a change of a tally of this shape: no change is greater than its key's
    /// greatest number. It takes no memory.
    pub fn has_form<S: Shape>(&self) -> bool
        ensures { IsTrue result ↔ IsChange S.greatest_of self.now }
    {
        // What is known of the head is known once it is read.
        let _head = self.head;
        are_changes::<S>(&self.entries)
    }

    /// The changes in the order of their keys.
    pub fn entries(&self) -> &[(Key, i64)]
        ensures entries { result.now ≡ self.now.entries }
        ensures changes { AreChanges key_cmp self.now.entries }
    {
        &self.entries
    }
}

impl<S: Shape> Tally<S> {
    /// The head.
    pub fn head(&self) -> u64
        ensures { result ≡ self.now.head }
    {
        self.head
    }

    /// The number at a key, and 0 where it has no entry.
    pub fn get(&self, key: &Key) -> u64
        ensures { result ≡ count key_cmp self.now.entries key.now }
    {
        count_of(&self.entries, key)
    }

    /// The entries in the order of their keys.
    pub fn entries(&self) -> &[(Key, u64)]
        ensures entries { result.now ≡ self.now.entries }
        ensures counts { AreCounts key_cmp S.greatest_of self.now.entries }
    {
        &self.entries
    }
}

// What a change makes of the number at its key.
fn moved_within<S: Shape>(key: &Key, kept: u64, change: i64) -> Result<u64, LedgerFault>
    requires { kept < 2 ^ 62 }
    ensures { result ≡ moved_within Below TooGreat S.greatest_of key.now kept change }
{
    let Some(n) = moved(kept, change) else {
        return Err(LedgerFault::Below {
            key: *key,
            kept,
            change,
        });
    };
    if n > S::greatest(key) {
        return Err(LedgerFault::TooGreat { key: *key });
    }
    Ok(n)
}

// The number at a key, once the entries of a kind are dropped.
fn kept_at(entries: &[(Key, u64)], same: bool, dropped: u8, key: &Key) -> u64
    requires { T (is_sorted key_cmp entries.now) }
    ensures { result ≡ count key_cmp (kept_under same dropped entries.now) key.now }
{
    if !same && key.what == dropped {
        0
    } else {
        count_of(entries, key)
    }
}

// Whether each of the changes can be made. Their keys differ, so each is tested against the same entries.
fn test_changes<S: Shape>(
    entries: &[(Key, u64)],
    same: bool,
    dropped: u8,
    changes: &[(Key, i64)],
) -> Result<(), LedgerFault>
    requires counts { AreCounts key_cmp S.greatest_of entries.now }
    requires sorted { T (is_sorted key_cmp changes.now) }
    ensures ok { OnOk result (IsOk (change_all key_cmp Below TooGreat S.greatest_of (kept_under same dropped entries.now) changes.now)) }
    ensures err { IfErr result (λ fault. change_all key_cmp Below TooGreat S.greatest_of (kept_under same dropped entries.now) changes.now ≡ Err fault) }
{
    for (key, change) in changes {
        let kept = kept_at(entries, same, dropped, key);
        moved_within::<S>(key, kept, *change)?;
    }
    Ok(())
}

// Drops the entries of a kind.
fn drop_kind(entries: &mut Vec<(Key, u64)>, dropped: u8)
    ensures items { entries.new.items ≡ kept_under false dropped entries.old.items }
    ensures counts { (greatest : Key → ℕ) → AreCounts key_cmp greatest entries.old.items → AreCounts key_cmp greatest entries.new.items }
    ensures len { vec_len entries.new ≤ vec_len entries.old }
    ensures capacity { vec_capacity entries.new ≡ vec_capacity entries.old }
{
    entries.retain(|entry| entry.0.what != dropped);
}

// Makes one change that can be made, where there is room for an entry.
fn make_change<S: Shape>(entries: &mut Vec<(Key, u64)>, key: Key, change: i64)
    requires counts { AreCounts key_cmp S.greatest_of entries.old.items }
    requires room { vec_len entries.old < vec_capacity entries.old }
    requires can { IsOk (change_one key_cmp Below TooGreat S.greatest_of entries.old.items key change) }
    ensures made { change_one key_cmp Below TooGreat S.greatest_of entries.old.items key change ≡ Ok entries.new.items }
    ensures counts { AreCounts key_cmp S.greatest_of entries.new.items }
    ensures len { vec_len entries.new ≤ vec_len entries.old + 1 }
    ensures capacity { vec_capacity entries.old ≤ vec_capacity entries.new }
{
    let place = place_of(entries, &key);
    let kept = count_at(entries, &key, place);
    match moved(kept, change) {
        Some(n) => set_entry(entries, place, key, n),
        None => unreachable!(),
    }
}

// Makes the changes in order, where each can be made and there is room for an entry more for each.
fn make_changes<S: Shape>(entries: &mut Vec<(Key, u64)>, changes: &[(Key, i64)])
    requires counts { AreCounts key_cmp S.greatest_of entries.old.items }
    requires room { vec_len entries.old + length changes.now ≤ vec_capacity entries.old }
    requires can { IsOk (change_all key_cmp Below TooGreat S.greatest_of entries.old.items changes.now) }
    ensures made { change_all key_cmp Below TooGreat S.greatest_of entries.old.items changes.now ≡ Ok entries.new.items }
    ensures counts { AreCounts key_cmp S.greatest_of entries.new.items }
{
    for (key, change) in changes {
        make_change::<S>(entries, *key, *change);
    }
}

// Whether each number is that of a key, and not 0.
fn are_within<S: Shape>(entries: &[(Key, u64)]) -> bool
    ensures yes { IsTrue result → AllByRecursion (λ e. (0 < e.1) × (e.1 ≤ S.greatest_of e.0)) entries.now }
    ensures no { result ≡ false → AllByRecursion (λ e. (0 < e.1) × (e.1 ≤ S.greatest_of e.0)) entries.now → ⊥ }
{
    for (key, n) in entries {
        if *n == 0 || *n > S::greatest(key) {
            return false;
        }
    }
    true
}

// Whether each change is of a key, not 0, and not above the key's greatest number.
fn are_changes_within<S: Shape>(entries: &[(Key, i64)]) -> bool
    ensures yes { IsTrue result → AllByRecursion (λ e. (is_no_change e.1 ≡ false) × (unsigned_abs e.1 ≤ S.greatest_of e.0)) entries.now }
    ensures no { result ≡ false → AllByRecursion (λ e. (is_no_change e.1 ≡ false) × (unsigned_abs e.1 ≤ S.greatest_of e.0)) entries.now → ⊥ }
{
    for (key, change) in entries {
        if *change == 0 || change.unsigned_abs() > S::greatest(key) {
            return false;
        }
    }
    true
}

// Whether the entries are those of a tally.
fn are_counts<S: Shape>(entries: &[(Key, u64)]) -> bool
    ensures yes { IsTrue result → AreCounts key_cmp S.greatest_of entries.now }
    ensures no { result ≡ false → AreCounts key_cmp S.greatest_of entries.now → ⊥ }
{
    keys_rise(entries) && are_within::<S>(entries)
}

// Whether the changes are those that have a written form.
fn are_changes<S: Shape>(entries: &[(Key, i64)]) -> bool
    ensures yes { IsTrue result → AreChangesWithin S.greatest_of entries.now }
    ensures no { result ≡ false → AreChangesWithin S.greatest_of entries.now → ⊥ }
{
    keys_rise(entries) && are_changes_within::<S>(entries)
}

// One change, where no entries are dropped: most have one entry, which is searched once then.
fn change_single<S: Shape>(
    entries: &mut Vec<(Key, u64)>,
    key: Key,
    change: i64,
) -> Result<(), LedgerFault>
    requires { AreCounts key_cmp S.greatest_of entries.old.items }
    ensures ok { OnOk result (change_one key_cmp Below TooGreat S.greatest_of entries.old.items key change ≡ Ok entries.new.items) }
    ensures err { OnErr result (entries.new.items ≡ entries.old.items) }
    ensures fault { IfErr result (IsRefusal (change_one key_cmp Below TooGreat S.greatest_of entries.old.items key change)) }
    ensures counts { AreCounts key_cmp S.greatest_of entries.new.items }
{
    let place = place_of(entries, &key);
    let kept = count_at(entries, &key, place);
    let n = moved_within::<S>(&key, kept, change)?;
    match entries.reserve(1) {
        Ok(()) => {}
        Err(_) => return Err(LedgerFault::OutOfMemory),
    }
    set_entry(entries, place, key, n);
    Ok(())
}

// The change's effect on the fields: all of it, or none.
fn change_all<S: Shape>(
    entries: &mut Vec<(Key, u64)>,
    same: bool,
    changes: &[(Key, i64)],
) -> Result<(), LedgerFault>
    requires counts { AreCounts key_cmp S.greatest_of entries.old.items }
    requires sorted { T (is_sorted key_cmp changes.now) }
    ensures ok { OnOk result (change_all key_cmp Below TooGreat S.greatest_of (kept_under same S.DROPPED entries.old.items) changes.now ≡ Ok entries.new.items) }
    ensures err { OnErr result (entries.new.items ≡ entries.old.items) }
    ensures fault { IfErr result (IsRefusal (change_all key_cmp Below TooGreat S.greatest_of (kept_under same S.DROPPED entries.old.items) changes.now)) }
    ensures counts { AreCounts key_cmp S.greatest_of entries.new.items }
{
    if let ([(key, change)], true) = (changes, same) {
        return change_single::<S>(entries, *key, *change);
    }
    let dropped = S::DROPPED;
    test_changes::<S>(entries, same, dropped, changes)?;
    match entries.reserve(changes.len()) {
        Ok(()) => {}
        Err(_) => return Err(LedgerFault::OutOfMemory),
    }
    if !same {
        drop_kind(entries, dropped);
    }
    make_changes::<S>(entries, changes);
    Ok(())
}

// Appends a head and the counted changes; one entry, as most changes have, in one piece. The bytes are as they
// were after a refusal.
fn write_change(head: u64, entries: &[(Key, i64)], out: &mut Vec<u8>) -> Result<(), OutOfMemory>
    requires entries { All IsChangeEntry entries.now }
    requires few { length entries.now < 2 ^ 32 }
    ensures ok { OnOk result (out.new.items ≡ out.old.items ++ headed change_entry head entries.now) }
    ensures err { OnErr result (out.new.items ≡ out.old.items) }
{
    let [(key, change)] = entries else {
        return write_headed::<Changes>(head, entries, out);
    };
    let [n0, n1] = (key.number as u16).to_be_bytes();
    let rows = [
        head.to_be_bytes(),
        [0, 0, 0, 1, key.what, key.unit, n0, n1],
        change.cast_unsigned().to_be_bytes(),
    ];
    out.extend_from_slice(rows.as_flattened())?;
    Ok(())
}

// The change that has these bytes, which are as many as one with a single entry takes. It takes no memory.
fn read_single<S: Shape>(alloc: Global, body: &[u8]) -> Result<Change, BodyFault>
    requires { length body.now ≡ 24 }
    ensures { Reads (IsChange S.greatest_of) change_form body.now result }
{
    let (front, rest) = body.split_at(8);
    let head = u64::from_be_bytes([
        front[0], front[1], front[2], front[3], front[4], front[5], front[6], front[7],
    ]);
    let (front, entry) = rest.split_at(4);
    if u32::from_be_bytes([front[0], front[1], front[2], front[3]]) != 1 {
        return Err(BodyFault::NotBody);
    }
    let (key, change) = Changes::read(entry);
    if change == 0 || change.unsigned_abs() > S::greatest(&key) {
        return Err(BodyFault::NotBody);
    }
    Ok(Change {
        head,
        entries: SmallVec::from_buf(alloc, [(key, change)]),
    })
}

impl<S: Shape> Ledger for Tally<S> {
    type Delta = Change;

    ghost use Rattle.fuxi_terms.specs.Tallies.{empty_tally, patched_tally, tally_difference};
    ghost use Rattle.fuxi_terms.specs.declared.answers.LedgerFault.TheVariants.{Below, TooGreat};
    ghost use Rattle.ledger_law.specs.Forms.{tally_form, change_form};
    ghost use Rattle.ledger_law.specs.Shapes.{IsTally, IsChange};
    ghost use Rattle.ledger_law.specs.OneForm.{tally_one, change_form_one};
    ghost use Rattle.ledger_law.specs.Differing.{AlwaysReaches, IsTallyChange, tally_by_difference};

    ghost nothing = { empty_tally };

    ghost patched = { patched_tally Below TooGreat S.greatest_of S.DROPPED };

    ghost is_change = { IsTallyChange };

    ghost difference = { tally_difference S.DROPPED };

    ghost reaches = { AlwaysReaches };

    ghost has_form = { IsTally S.greatest_of };

    ghost form = { tally_form };

    ghost has_delta_form = { IsChange S.greatest_of };

    ghost delta_form = { change_form };

    ghost by_difference = { tally_by_difference S.greatest_of S.DROPPED };

    ghost one_form = { tally_one S.greatest_of S.bounded S.writable };

    ghost one_delta_form = { change_form_one S.greatest_of S.bounded S.writable };

    fn empty(alloc: Global) -> Self {
        Tally {
            head: 0,
            entries: Vec::new(alloc),
            shape: PhantomData,
        }
    }

    fn apply(&mut self, _alloc: Global, change: &Change) -> Result<(), LedgerFault> {
        let same = change.head == self.head;
        change_all::<S>(&mut self.entries, same, &change.entries)?;
        self.head = change.head;
        Ok(())
    }

    fn copy(&self, alloc: Global) -> Result<Self, OutOfMemory> {
        Ok(Tally {
            head: self.head,
            entries: Vec::from_slice(alloc, &self.entries)?,
            shape: PhantomData,
        })
    }

    fn copy_delta(alloc: Global, change: &Change) -> Result<Change, OutOfMemory> {
        Ok(Change {
            head: change.head,
            entries: SmallVec::from_slice(alloc, &change.entries)?,
        })
    }

    fn write_full(&self, out: &mut Vec<u8>) -> Result<(), OutOfMemory> {
        write_headed::<Numbers>(self.head, &self.entries, out)
    }

    fn read_full(alloc: Global, body: &[u8]) -> Result<Self, BodyFault> {
        let (head, entries) = read_headed::<Numbers>(alloc, body)?;
        if !are_counts::<S>(&entries) {
            return Err(BodyFault::NotBody);
        }
        Ok(Tally {
            head,
            entries,
            shape: PhantomData,
        })
    }

    fn write_delta(change: &Change, out: &mut Vec<u8>) -> Result<(), OutOfMemory> {
        write_change(change.head, &change.entries, out)
    }

    fn read_delta(alloc: Global, body: &[u8]) -> Result<Change, BodyFault> {
        if body.len() == 24 {
            return read_single::<S>(alloc, body);
        }
        let (head, entries) = read_headed::<Changes>(alloc, body)?;
        if !are_changes::<S>(&entries) {
            return Err(BodyFault::NotBody);
        }
        Ok(Change {
            head,
            entries: SmallVec::from_vec(entries),
        })
    }
}
