// Reading a checkpoint, and beginning one.
ghost use Rattle.std.specs.Prelude.{◌≡◌, ◌≢◌, ℕ, ◌*◌, ◌<◌, ◌≤◌, Some, Ok, Err, IfOk, IfErr, OnOk};
ghost use Rattle.fuxi_io.specs.Causes.{HasCause, Rose};
ghost use Rattle.fuxi_io.specs.Disks.{Told, WhereTold};
ghost use Rattle.fuxi_terms.specs.Limits.{most_records};
ghost use Rattle.hard_state.specs.HardFiles.{Begins, IsOpeningFault, Settles, SyncsAll, reads_as};

use crate::fault::HardFault;
use crate::gate::write_through;
use crate::law;
use crate::state::{Look, State};
use crate::window::Window;
use fuxi_io::{Disk, Failed};
use fuxi_terms::OutOfMemory;
use fuxi_terms::limits::MOST_RECORDS;
use std::alloc::Global;

// Brings all that was written onto the disk and answers its length.
pub fn settle<D: Disk>(disk: &mut D) -> Result<u64, Failed>
    ensures told { WhereTold Settles (D.told disk.old) (D.told disk.new) }
    ensures synced { OnOk result (WhereTold SyncsAll (D.told disk.old) (D.told disk.new)) }
    ensures size { IfOk result (λ len. len ≡ D.size disk.new) }
    ensures cause { HasCause (D.faults disk.old) (D.faults disk.new) result }
    ensures served { OnOk result (D.faults disk.new ≡ D.faults disk.old) }
{
    match disk.sync() {
        Ok(()) => {}
        Err(failed) => return Err(failed),
    }
    disk.len()
}

// Makes a file of at most one byte one of a closed gate.
pub fn begin<D: Disk>(disk: &mut D) -> Result<(), Failed>
    ensures told { WhereTold (Begins result) (D.told disk.old) (D.told disk.new) }
    ensures long { OnOk result (0 < D.size disk.new) }
    ensures cause { HasCause (D.faults disk.old) (D.faults disk.new) result }
    ensures served { OnOk result (D.faults disk.new ≡ D.faults disk.old) }
{
    write_through(disk, 0, &[0])
}

// Reads a file of this length from its first gate on: the state with the place of the closed gate, or the place of the first
// damaged record. It takes memory for one piece of the file at a time.
pub fn read<D: Disk>(alloc: Global, disk: &mut D, len: u64) -> Result<(State, u64), HardFault>
    requires size { len ≡ D.size disk.old }
    requires some { 0 < len }
    ensures told { D.told disk.new ≡ D.told disk.old }
    ensures size { D.size disk.new ≡ D.size disk.old }
    ensures opened { (t : Told) → D.told disk.old ≡ Some t → IfOk result (λ read. reads_as t.now.bytes ≡ Ok (record { value = read.0; gate = read.1 })) }
    ensures damaged { (t : Told) (offset : ℕ) → D.told disk.old ≡ Some t → result ≡ Err (HardFault.NotCheckpoint offset) → reads_as t.now.bytes ≡ Err offset }
    ensures within { IfOk result (λ read. read.1 < len) }
    ensures short { IfOk result (λ read. read.1 ≤ 568 * read.0.records) }
    ensures few { IfOk result (λ read. read.0.records ≤ most_records) }
    ensures faults { IfErr result IsOpeningFault }
    ensures later { D.faults disk.old ≤ D.faults disk.new }
    ensures cause { result ≡ Err HardFault.DiskFault → Rose (D.faults disk.old) (D.faults disk.new) }
    ensures served { result ≢ Err HardFault.DiskFault → D.faults disk.new ≡ D.faults disk.old }
{
    law::written_is_read();
    let mut state = match State::nothing(alloc) {
        Ok(state) => state,
        Err(OutOfMemory) => return Err(HardFault::OutOfMemory),
    };
    let mut window = match Window::new(alloc) {
        Ok(window) => window,
        Err(OutOfMemory) => return Err(HardFault::OutOfMemory),
    };
    let mut at = 0;
    for number in 0..MOST_RECORDS + 1 {
        match window.reach(disk, at, len) {
            Ok(()) => {}
            Err(Failed) => return Err(HardFault::DiskFault),
        }
        match state.look(alloc, window.rest(at)) {
            Look::Closed => return Ok((state, at)),
            Look::Damaged => return Err(HardFault::NotCheckpoint { offset: at }),
            Look::Whole(size) => at += size as u64,
            Look::OutOfMemory => return Err(HardFault::OutOfMemory),
        }
    }
    unreachable!()
}
