ghost use Rattle.std.specs.Prelude.{◌≡◌, ◌≢◌, ◌<◌, ◌≤◌, ℕ, Err, None, OnErr, OnOk, IfOk, false, true};
ghost use Rattle.fuxi_io.specs.Causes.{Rose};
ghost use Rattle.fuxi_io.specs.Disks.{WhereTold};
ghost use Rattle.hard_state.specs.HardFiles.{IsDamagedAt, KeepsDamaged, Opens, SyncsAll};
ghost use Rattle.epoch_lease.specs.Files.{lease_of, LeavesStep, OpensLease};
ghost use Rattle.epoch_lease.specs.Leases.{becomes, holds, lease_step, IsGrant};
ghost use Rattle.epoch_lease.specs.declared.event.LeaseEvent.TheVariants.{Acquire, Renew, Release, Expire};

use crate::event::{LeaseEvent, LeaseFault, LeaseOut};
use fuxi_io::Disk;
use fuxi_terms::limits::MOST_RECORDS;
use hard_state::{Hard, HardFault};
use std::alloc::Global;
use std::marker::Model;

/// Who holds which epoch. An epoch is handed out once, to one holder, and is one more than the last one. The last one is the fence of a
/// checkpoint on a disk, which is written and synced before the epoch is answered; who holds is kept in memory alone, so behind a restart
/// nobody holds. All calls are to be given the same disk, which nobody else writes.
///
/// After `DiskFault` of a step the lease has to be opened again; after any other error it is as before, and so is the file.
pub struct Lease {
    hard: Hard,
    holder: Option<(u32, u64)>,
}

// Written out, so that who lets one go checks this call and not all of its parts.
impl Drop for Lease {
    fn drop(self) {
        let Lease { hard, holder } = self;
    }
}

impl Model for Lease {
    ghost use Rattle.epoch_lease.specs.Files.{KeptLease};

    ghost Value = { KeptLease };

    ghost view = { λ l. record { hard = l.hard; holder = l.holder } };
}

impl Lease {
    /// The lease of a checkpoint: nobody holds, and the last epoch is its fence. It begins with a sync; a file of at most one byte stands
    /// for a lease that granted nothing, and gets its closed gate.
    ///
    /// `NotCheckpoint` tells the offset of the first damaged record. Such a file is synced at most, whatever is answered.
    pub fn open<D: Disk>(alloc: Global, disk: &mut D) -> Result<Lease, LeaseFault>
        ensures free { IfOk result (λ lease. lease.holder ≡ None) }
        ensures opened { IfOk result (λ lease. WhereTold (OpensLease lease) (D.told disk.old) (D.told disk.new)) }
        ensures damaged { (offset : ℕ) → result ≡ Err (LeaseFault.NotCheckpoint offset) → WhereTold (IsDamagedAt offset) (D.told disk.old) (D.told disk.new) }
        ensures sound { IfOk result (λ lease. lease.hard.broken ≡ false) }
        ensures long { IfOk result (λ lease. lease.hard.gate < D.size disk.new) }
        ensures later { D.faults disk.old ≤ D.faults disk.new }
        ensures cause { result ≡ Err LeaseFault.DiskFault → Rose (D.faults disk.old) (D.faults disk.new) }
        ensures served { result ≢ Err LeaseFault.DiskFault → D.faults disk.new ≡ D.faults disk.old }
        // Where the file has no damaged record, at each moment from the first sync on a crash leaves a file that stands for the same.
        ensures told { WhereTold Opens (D.told disk.old) (D.told disk.new) }
        ensures keeps { KeepsDamaged (D.told disk.old) (D.told disk.new) }
        ensures untouched { (offset : ℕ) → result ≡ Err (LeaseFault.NotCheckpoint offset) → WhereTold SyncsAll (D.told disk.old) (D.told disk.new) }
    {
        match Hard::open(alloc, disk) {
            Ok(hard) => Ok(Lease { hard, holder: None }),
            Err(HardFault::NotCheckpoint { offset }) => Err(LeaseFault::NotCheckpoint { offset }),
            Err(HardFault::DiskFault) => Err(LeaseFault::DiskFault),
            Err(_) => Err(LeaseFault::OutOfMemory),
        }
    }

    /// Takes an event. Only an epoch that is granted is written, and it is answered once its record is synced. `DiskFault` and
    /// `OutOfMemory` come only in place of a grant; after `OutOfMemory` nothing was written.
    pub fn step<D: Disk>(
        &mut self,
        disk: &mut D,
        event: &LeaseEvent,
    ) -> Result<LeaseOut, LeaseFault>
        requires sound { self.old.hard.broken ≡ false }
        requires long { self.old.hard.gate < D.size disk.old }
        ensures steps { IfOk result (λ answer. lease_step (lease_of self.old) event.now ≡ becomes (lease_of self.new) answer) }
        ensures wants { OnErr result (IsGrant (lease_step (lease_of self.old) event.now).answer) }
        ensures own { (offset : ℕ) → result ≢ Err (LeaseFault.NotCheckpoint offset) }
        ensures sound { OnOk result (self.new.hard.broken ≡ false) }
        ensures unchanged { result ≡ Err LeaseFault.OutOfMemory → (self.new ≡ self.old) × (disk.new ≡ disk.old) }
        ensures broken { result ≡ Err LeaseFault.DiskFault → self.new ≡ record self.old { hard = record self.old.hard { broken = true } } }
        ensures long { result ≢ Err LeaseFault.DiskFault → self.new.hard.gate < D.size disk.new }
        ensures later { D.faults disk.old ≤ D.faults disk.new }
        ensures cause { result ≡ Err LeaseFault.DiskFault → Rose (D.faults disk.old) (D.faults disk.new) }
        ensures served { result ≢ Err LeaseFault.DiskFault → D.faults disk.new ≡ D.faults disk.old }
        ensures told { WhereTold (LeavesStep self.old self.new (lease_step (lease_of self.old) event.now).state result) (D.told disk.old) (D.told disk.new) }
        // Only a grant calls the disk, and it leaves the jobs and bans of the checkpoint.
        ensures idle { (IsGrant (lease_step (lease_of self.old) event.now).answer → ⊥) → disk.new ≡ disk.old }
        ensures kept { OnOk result ((self.new.hard.value.jobs ≡ self.old.hard.value.jobs) × (self.new.hard.value.bans ≡ self.old.hard.value.bans)) }
    {
        match event {
            LeaseEvent::Acquire(holder) => self.acquire(disk, *holder),
            LeaseEvent::Renew(holder, epoch) => Ok(self.renew(*holder, *epoch)),
            LeaseEvent::Release(holder, epoch) => Ok(self.release(*holder, *epoch)),
            LeaseEvent::Expire => Ok(self.expire()),
        }
    }

    // A holder asks for the next epoch.
    fn acquire<D: Disk>(&mut self, disk: &mut D, holder: u32) -> Result<LeaseOut, LeaseFault>
        requires sound { self.old.hard.broken ≡ false }
        requires long { self.old.hard.gate < D.size disk.old }
        ensures steps { IfOk result (λ answer. lease_step (lease_of self.old) (Acquire holder) ≡ becomes (lease_of self.new) answer) }
        ensures wants { OnErr result (IsGrant (lease_step (lease_of self.old) (Acquire holder)).answer) }
        ensures own { (offset : ℕ) → result ≢ Err (LeaseFault.NotCheckpoint offset) }
        ensures sound { OnOk result (self.new.hard.broken ≡ false) }
        ensures unchanged { result ≡ Err LeaseFault.OutOfMemory → (self.new ≡ self.old) × (disk.new ≡ disk.old) }
        ensures broken { result ≡ Err LeaseFault.DiskFault → self.new ≡ record self.old { hard = record self.old.hard { broken = true } } }
        ensures long { result ≢ Err LeaseFault.DiskFault → self.new.hard.gate < D.size disk.new }
        ensures later { D.faults disk.old ≤ D.faults disk.new }
        ensures cause { result ≡ Err LeaseFault.DiskFault → Rose (D.faults disk.old) (D.faults disk.new) }
        ensures served { result ≢ Err LeaseFault.DiskFault → D.faults disk.new ≡ D.faults disk.old }
        ensures told { WhereTold (LeavesStep self.old self.new (lease_step (lease_of self.old) (Acquire holder)).state result) (D.told disk.old) (D.told disk.new) }
        ensures idle { (IsGrant (lease_step (lease_of self.old) (Acquire holder)).answer → ⊥) → disk.new ≡ disk.old }
        ensures kept { OnOk result ((self.new.hard.value.jobs ≡ self.old.hard.value.jobs) × (self.new.hard.value.bans ≡ self.old.hard.value.bans)) }
    {
        if let Some((holder, epoch)) = self.holder {
            return Ok(LeaseOut::Held(holder, epoch));
        }
        let Some(epoch) = self.hard.fence().checked_add(1) else {
            return Ok(LeaseOut::NoEpoch);
        };
        if self.hard.records() as u64 >= MOST_RECORDS {
            return Ok(LeaseOut::HardFull(MOST_RECORDS as u32));
        }
        let fault = match self.hard.raise(disk, epoch) {
            Ok(()) => {
                self.holder = Some((holder, epoch));
                return Ok(LeaseOut::Granted(epoch));
            }
            Err(fault) => fault,
        };
        match fault {
            HardFault::DiskFault => Err(LeaseFault::DiskFault),
            // The refusals of a raise were tested before it.
            _ => Err(LeaseFault::OutOfMemory),
        }
    }

    // Whether it is this holder who holds, and this epoch.
    fn holds(&self, holder: u32, epoch: u64) -> bool
        ensures { result ≡ holds self.now.holder holder epoch }
    {
        match self.holder {
            Some((own, held)) => own == holder && held == epoch,
            None => false,
        }
    }

    // A holder goes on.
    fn renew(&self, holder: u32, epoch: u64) -> LeaseOut
        ensures { lease_step (lease_of self.now) (Renew holder epoch) ≡ becomes (lease_of self.now) result }
    {
        if self.holds(holder, epoch) {
            LeaseOut::Renewed(epoch)
        } else {
            LeaseOut::NotHolder(self.last())
        }
    }

    // A holder lets its epoch go.
    fn release(&mut self, holder: u32, epoch: u64) -> LeaseOut
        ensures steps { lease_step (lease_of self.old) (Release holder epoch) ≡ becomes (lease_of self.new) result }
        ensures hard { self.new.hard ≡ self.old.hard }
    {
        if self.holds(holder, epoch) {
            self.holder = None;
            LeaseOut::Released(epoch)
        } else {
            LeaseOut::NotHolder(self.last())
        }
    }

    // Whoever holds does so no longer.
    fn expire(&mut self) -> LeaseOut
        ensures steps { lease_step (lease_of self.old) Expire ≡ becomes (lease_of self.new) result }
        ensures hard { self.new.hard ≡ self.old.hard }
    {
        match self.holder.take() {
            Some((_, epoch)) => LeaseOut::Expired(epoch),
            None => LeaseOut::Free,
        }
    }

    /// Who holds, and which epoch; `None` where nobody holds.
    pub fn holder(&self) -> Option<(u32, u64)>
        ensures { result ≡ self.now.holder }
    {
        self.holder
    }

    /// The last epoch that was granted; 0 before the first.
    pub fn last(&self) -> u64
        ensures { result ≡ self.now.hard.value.fence }
    {
        self.hard.fence()
    }

    /// Whether a step answered `DiskFault`. Then the lease has to be opened again.
    pub fn broken(&self) -> bool
        ensures { result ≡ self.now.hard.broken }
    {
        self.hard.broken()
    }
}
