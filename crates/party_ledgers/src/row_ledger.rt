//! The ledger of a machine's grants, and the changes to it.

ghost use Rattle.std.specs.Prelude.{◌≡◌, ◌↔◌, ◌≤◌, ◌<◌, ◌++◌, ◌∷◌, [], T, IsTrue, false, nat_eq, ℕ, List, length, unsigned_abs, IfOk, OnOk, OnErr, Some, slice_get};
ghost use Rattle.std.specs.declared.cmp.Ordering.TheVariants.{Less};
ghost use Rattle.std.specs.List.{All, AllByRecursion};
ghost use Rattle.fuxi_terms.specs.Keys.{RowKey as RowKeyRecord, row_cmp};
ghost use Rattle.fuxi_terms.specs.Limits.{greatest_count};
ghost use Rattle.fuxi_terms.specs.Counts.{AreCounts, count, is_no_change};
ghost use Rattle.fuxi_terms.specs.Rows.{IsRow, AreRowChanges, IsRowChange, is_row_key, row_key, greatest_row, row_total, patched_row};
ghost use Rattle.party_ledgers.specs.Weighing.{TotalsAfter};
ghost use Rattle.party_ledgers.specs.Entries.{entry_of};

use crate::row::{RowKey, change_all, greatest};
use crate::row_forms::{RowChanges, RowNumbers};
use crate::row_totals::total_after;
use fuxi_terms::limits::MOST_ENTRIES;
use ledger_law::entries::{count_of, keys_rise};
use ledger_law::forms::{read_counted, write_counted};
use ledger_law::{BodyFault, Ledger, LedgerFault, OutOfMemory};
use res_vector::{Res, Sum, add, times};
use schedule_unit::{AppNo, UnitNo};
use std::alloc::Global;
use std::marker::Model;

/// What is granted on one machine: for each job, unit and size the number of grants, 1 to 100,000, in the
/// order of these keys. At most 2,048 entries.
#[derive(Drop)]
pub struct RowLedger {
    entries: Vec<(RowKey, u64)>,
}

impl Model for RowLedger {
    ghost use Rattle.std.specs.Prelude.{ℕ, List};
    ghost use Rattle.fuxi_terms.specs.Keys.{RowKey};
    ghost use Rattle.fuxi_terms.specs.Rows.{IsRow};

    ghost Value = { List (RowKey × ℕ) };

    ghost view = { λ r. r.entries.items };

    ghost invariant = { λ r. IsRow r.entries.items };
}

/// Changes of a row, in the order of the keys. None is 0.
#[derive(Drop)]
pub struct RowChange {
    entries: Vec<(RowKey, i64)>,
}

impl Model for RowChange {
    ghost use Rattle.std.specs.Prelude.{ℤ, List};
    ghost use Rattle.fuxi_terms.specs.Keys.{RowKey};
    ghost use Rattle.fuxi_terms.specs.Rows.{AreRowChanges};

    ghost Value = { List (RowKey × ℤ) };

    ghost view = { λ c. c.entries.items };

    ghost invariant = { λ c. AreRowChanges c.entries.items };
}

/// One entry of a row.
#[derive(Clone, Copy, Debug, PartialEq, Eq)]
pub struct RowEntry {
    pub app: AppNo,
    pub unit: UnitNo,
    /// What one grant takes.
    pub size: Res,
    /// How many grants there are, 1 to 100,000.
    pub count: u32,
}

impl RowChange {
    /// No change.
    pub fn new(alloc: Global) -> RowChange
        ensures { result ≡ [] }
    {
        RowChange {
            entries: Vec::new(alloc),
        }
    }

    /// No change. Room for `n` entries is asked for at once.
    pub fn with_room(alloc: Global, n: usize) -> Result<RowChange, OutOfMemory>
        ensures { IfOk result (λ change. change ≡ []) }
    {
        Ok(RowChange {
            entries: Vec::with_capacity(alloc, n)?,
        })
    }

    /// One change more, behind the others. Want of memory leaves them as they were.
    pub fn put(
        &mut self,
        app: AppNo,
        unit: UnitNo,
        size: &Res,
        change: i32,
    ) -> Result<(), OutOfMemory>
        requires key { IsTrue (is_row_key (row_key app.0 unit.0 size.now.q)) }
        requires real { is_no_change change ≡ false }
        requires range { unsigned_abs change ≤ greatest_count }
        requires rises { All (λ c. row_cmp c.0 (row_key app.0 unit.0 size.now.q) ≡ Less) self.old }
        ensures ok { OnOk result (self.new ≡ self.old ++ (row_key app.0 unit.0 size.now.q, change) ∷ []) }
        ensures err { OnErr result (self.new ≡ self.old) }
    {
        let key = RowKey {
            job: app.0,
            unit: unit.0,
            size: size.q,
        };
        match self.entries.push((key, change as i64)) {
            Ok(()) => Ok(()),
            Err(_) => Err(OutOfMemory),
        }
    }

    /// How many changes there are.
    pub fn len(&self) -> usize
        ensures len { result ≡ length self.now }
        ensures changes { AreRowChanges self.now }
    {
        self.entries.len()
    }

    /// Whether there is no change.
    pub fn is_empty(&self) -> bool
        ensures { result ≡ nat_eq (length self.now) 0 }
    {
        self.entries.is_empty()
    }

    /// Whether the changes have a written form: there are not more of them than a row may have entries. It takes
    /// no memory.
    pub fn has_form(&self) -> bool
        ensures { IsTrue result ↔ IsRowChange self.now }
    {
        self.entries.len() <= MOST_ENTRIES
    }
}

// Each size as often as it is counted, all together.
fn total_of(entries: &[(RowKey, u64)]) -> Sum
    requires { IsRow entries.now }
    ensures { result.q ≡ row_total entries.now }
{
    let mut total = Sum { q: [0; 8] };
    for (key, count) in entries {
        let size = key.size;
        total = add(&total, &times(&Res { q: size }, *count as u32));
    }
    total
}

impl RowLedger {
    // The row of these entries.
    pub(crate) fn from_entries(entries: Vec<(RowKey, u64)>) -> RowLedger
        requires { IsRow entries.items }
        ensures { result ≡ entries.items }
    {
        RowLedger { entries }
    }

    // The entries in the order of their keys.
    pub(crate) fn entries(&self) -> &[(RowKey, u64)]
        ensures entries { result.now ≡ self.now }
        ensures row { IsRow self.now }
    {
        &self.entries
    }

    /// How many entries there are.
    pub fn len(&self) -> usize
        ensures len { result ≡ length self.now }
        ensures row { IsRow self.now }
    {
        self.entries.len()
    }

    /// Whether there is no entry.
    pub fn is_empty(&self) -> bool
        ensures { result ≡ nat_eq (length self.now) 0 }
    {
        self.entries.is_empty()
    }

    /// The entry at an index, in the order of the keys.
    pub fn at(&self, index: usize) -> RowEntry
        requires { index < length self.now }
        ensures entry { slice_get self.now index ≡ Some (entry_of result) }
        ensures row { IsRow self.now }
    {
        let (key, count) = self.entries[index];
        let size = key.size;
        RowEntry {
            app: AppNo(key.job),
            unit: UnitNo(key.unit),
            size: Res { q: size },
            count: count as u32,
        }
    }

    /// The number of grants of a unit with this size, and 0 where there is no entry.
    pub fn count(&self, app: AppNo, unit: UnitNo, size: &Res) -> u32
        ensures { result ≡ count row_cmp self.now (row_key app.0 unit.0 size.now.q) }
    {
        let key = RowKey {
            job: app.0,
            unit: unit.0,
            size: size.q,
        };
        count_of(&self.entries, &key) as u32
    }

    /// What all grants take together.
    pub fn total(&self) -> Sum
        ensures { result.q ≡ row_total self.now }
    {
        total_of(&self.entries)
    }

    /// What all grants of the row that a change makes take together, where the total is that of this row. It makes
    /// no change, takes no memory and looks at the entries of the change alone.
    ///
    /// The fault is the one with which the ledger refuses the change.
    pub fn total_after(&self, total: &Sum, change: &RowChange) -> Result<Sum, LedgerFault>
        requires { total.now.q ≡ row_total self.now }
        ensures { TotalsAfter (patched_row self.now change.now) result }
    {
        total_after(&self.entries, total, &change.entries)
    }
}

// Whether each number is that of a key, and not 0.
fn are_within(entries: &[(RowKey, u64)]) -> bool
    ensures yes { IsTrue result → AllByRecursion (λ e. (0 < e.1) × (e.1 ≤ greatest_row e.0)) entries.now }
    ensures no { result ≡ false → AllByRecursion (λ e. (0 < e.1) × (e.1 ≤ greatest_row e.0)) entries.now → ⊥ }
{
    for (key, n) in entries {
        if *n == 0 || *n > greatest(key) {
            return false;
        }
    }
    true
}

// Whether each change is of a key, not 0, and not above the key's greatest number.
fn are_changes_within(entries: &[(RowKey, i64)]) -> bool
    ensures yes { IsTrue result → AllByRecursion (λ e. (is_no_change e.1 ≡ false) × (unsigned_abs e.1 ≤ greatest_row e.0)) entries.now }
    ensures no { result ≡ false → AllByRecursion (λ e. (is_no_change e.1 ≡ false) × (unsigned_abs e.1 ≤ greatest_row e.0)) entries.now → ⊥ }
{
    for (key, change) in entries {
        if *change == 0 || change.unsigned_abs() > greatest(key) {
            return false;
        }
    }
    true
}

// Whether the entries are those of a row.
pub(crate) fn is_row(entries: &[(RowKey, u64)]) -> bool
    ensures yes { IsTrue result → IsRow entries.now }
    ensures no { result ≡ false → IsRow entries.now → ⊥ }
{
    entries.len() <= MOST_ENTRIES && keys_rise(entries) && are_within(entries)
}

// Whether the changes are those that have a written form.
fn is_row_change(entries: &[(RowKey, i64)]) -> bool
    ensures yes { IsTrue result → IsRowChange entries.now }
    ensures no { result ≡ false → IsRowChange entries.now → ⊥ }
{
    entries.len() <= MOST_ENTRIES && keys_rise(entries) && are_changes_within(entries)
}

impl Ledger for RowLedger {
    type Delta = RowChange;

    ghost use Rattle.std.specs.Prelude.{[]};
    ghost use Rattle.fuxi_terms.specs.Rows.{IsRow, IsRowChange, patched_row};
    ghost use Rattle.party_ledgers.specs.RowForms.{row_form, row_change_form};
    ghost use Rattle.party_ledgers.specs.RowOneForm.{row_form_one, row_change_form_one};
    ghost use Rattle.party_ledgers.specs.PartyDifferences.{row_difference, AreRowDifferences, AreFewTogether, row_by_difference};

    ghost nothing = { [] };

    ghost patched = { patched_row };

    ghost is_change = { AreRowDifferences };

    ghost difference = { row_difference };

    ghost reaches = { AreFewTogether };

    ghost has_form = { IsRow };

    ghost form = { row_form };

    ghost has_delta_form = { IsRowChange };

    ghost delta_form = { row_change_form };

    ghost by_difference = { row_by_difference };

    ghost one_form = { row_form_one };

    ghost one_delta_form = { row_change_form_one };

    fn empty(alloc: Global) -> Self {
        RowLedger {
            entries: Vec::new(alloc),
        }
    }

    fn apply(&mut self, _alloc: Global, change: &RowChange) -> Result<(), LedgerFault> {
        change_all(&mut self.entries, &change.entries)
    }

    fn copy(&self, alloc: Global) -> Result<Self, OutOfMemory> {
        Ok(RowLedger {
            entries: Vec::from_slice(alloc, &self.entries)?,
        })
    }

    fn copy_delta(alloc: Global, change: &RowChange) -> Result<RowChange, OutOfMemory> {
        Ok(RowChange {
            entries: Vec::from_slice(alloc, &change.entries)?,
        })
    }

    fn write_full(&self, out: &mut Vec<u8>) -> Result<(), OutOfMemory> {
        write_counted::<RowNumbers>(&self.entries, out)
    }

    fn read_full(alloc: Global, body: &[u8]) -> Result<Self, BodyFault> {
        let entries = read_counted::<RowNumbers>(alloc, body)?;
        if !is_row(&entries) {
            return Err(BodyFault::NotBody);
        }
        Ok(RowLedger::from_entries(entries))
    }

    fn write_delta(change: &RowChange, out: &mut Vec<u8>) -> Result<(), OutOfMemory> {
        write_counted::<RowChanges>(&change.entries, out)
    }

    fn read_delta(alloc: Global, body: &[u8]) -> Result<RowChange, BodyFault> {
        let entries = read_counted::<RowChanges>(alloc, body)?;
        if !is_row_change(&entries) {
            return Err(BodyFault::NotBody);
        }
        Ok(RowChange { entries })
    }
}
