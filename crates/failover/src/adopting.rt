//! What a master keeps of a report.

ghost use Rattle.std.specs.Prelude.{◌≡◌, ◌++◌, ◌∷◌, [], ℕ, true, false, IfOk, OnOk, Err};
ghost use Rattle.std.specs.List.{All};
ghost use Rattle.std.specs.declared.cmp.Ordering.TheVariants.{Less};
ghost use Rattle.fuxi_terms.specs.declared.vectors.Res.{Res as ResSeen};
ghost use Rattle.fuxi_terms.specs.declared.vectors.Sum.{Sum as SumSeen};
ghost use Rattle.fuxi_terms.specs.Keys.{row_cmp};
ghost use Rattle.fuxi_terms.specs.Rows.{IsRow, row_key, row_total};
ghost use Rattle.fuxi_terms.specs.Vectors.{fits};
ghost use Rattle.party_ledgers.specs.Entries.{entry_of};
ghost use Rattle.spec_roles.specs.MasterSteps.{is_kept};
ghost use Rattle.failover.specs.KeptReports.{kept_entries, kept_of};

use fuxi_terms::OutOfMemory;
use hard_state::Known;
use ledger_law::{Ledger, LedgerFault};
use party_ledgers::{RowChange, RowEntry, RowLedger};
use res_vector::{Res, Sum, add, fits, sum_fits, times};
use schedule_unit::MachineNo;
use std::alloc::Global;
use thiserror::Error;

/// Why a report is not adopted.
#[derive(Clone, Copy, Debug, Drop, Error, PartialEq, Eq)]
pub enum AdoptFault {
    /// The kept entries take more than the machine has.
    #[error("what is kept of the report exceeds the machine")]
    Exceeds { total: Sum, has: Res },
    /// Memory was refused.
    #[error("out of memory")]
    OutOfMemory,
}

/// Whether an entry of a report is kept: its job is known and has not ended, and has the unit with this size. It takes no memory.
pub fn is_kept(known: &Known, entry: &RowEntry) -> bool
    ensures { result ≡ is_kept known.now.jobs (row_key entry.now.app.0 entry.now.unit.0 entry.now.size.q) }
{
    let Some(job) = known.job(entry.app) else {
        return false;
    };
    if known.ended(entry.app) {
        return false;
    }
    if entry.unit.0 >= job.units() {
        return false;
    }
    let size = &job.unit(entry.unit).size;
    fits(size, &entry.size) && fits(&entry.size, size)
}

// One entry more, behind the others.
fn push(alloc: Global, kept: &mut RowLedger, entry: &RowEntry) -> Result<(), OutOfMemory>
    requires row { IsRow (kept.old ++ entry_of entry.now ∷ []) }
    ensures { OnOk result (kept.new ≡ kept.old ++ entry_of entry.now ∷ []) }
{
    let mut change = RowChange::new(alloc);
    change.put(entry.app, entry.unit, &entry.size, entry.count as i32)?;
    match kept.apply(alloc, &change) {
        Ok(()) => Ok(()),
        Err(fault) => {
            if fault == LedgerFault::OutOfMemory {
                return Err(OutOfMemory);
            }
            unreachable!()
        }
    }
}

// The entries of a report that are kept, in their order.
fn kept_entries(alloc: Global, report: &RowLedger, known: &Known) -> Result<RowLedger, OutOfMemory>
    ensures { IfOk result (λ kept. kept ≡ kept_entries known.now.jobs report.now) }
{
    let mut kept = RowLedger::empty(alloc);
    for index in 0..report.len() {
        let entry = report.at(index);
        if is_kept(known, &entry) {
            push(alloc, &mut kept, &entry)?;
        }
    }
    Ok(kept)
}

/// What the entries of a report that are kept take in all. It takes no memory.
pub fn kept_total(report: &RowLedger, known: &Known) -> Sum
    ensures { result.q ≡ row_total (kept_entries known.now.jobs report.now) }
{
    let mut total = Sum { q: [0; 8] };
    for index in 0..report.len() {
        let entry = report.at(index);
        if is_kept(known, &entry) {
            total = add(&total, &times(&entry.size, entry.count));
        }
    }
    total
}

/// What is kept of the first report of a machine in an epoch: the entries of jobs that are known and have not ended, of units that
/// these have with this size, in their order; none where the machine is banned. `Exceeds` comes exactly where these do not fit
/// what the machine has.
pub fn adopt(
    alloc: Global,
    report: &RowLedger,
    known: &Known,
    machine: MachineNo,
    has: &Res,
) -> Result<RowLedger, AdoptFault>
    ensures kept { IfOk result (λ kept. kept ≡ kept_of known.now machine.0 report.now) }
    ensures fits { IfOk result (λ kept. fits (row_total kept) has.now.q ≡ true) }
    ensures exceeds { (total : SumSeen) (h : ResSeen) → result ≡ Err (AdoptFault.Exceeds total h)
        → (total.q ≡ row_total (kept_of known.now machine.0 report.now)) × (h ≡ has.now) × (fits (row_total (kept_of known.now machine.0 report.now)) has.now.q ≡ false) }
{
    let kept = if known.banned(machine) {
        RowLedger::empty(alloc)
    } else {
        match kept_entries(alloc, report, known) {
            Ok(kept) => kept,
            Err(OutOfMemory) => return Err(AdoptFault::OutOfMemory),
        }
    };
    let total = kept.total();
    if sum_fits(&total, has) {
        return Ok(kept);
    }
    Err(AdoptFault::Exceeds { total, has: *has })
}
