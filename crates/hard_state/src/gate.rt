// Bytes that are appended behind a closed gate, so that a crash leaves all of them or none.
ghost use Rattle.std.specs.Prelude.{◌≡◌, ℕ, ◌+◌, ◌^◌, ◌<◌, ◌≤◌, length, max, OnOk};
ghost use Rattle.fuxi_io.specs.Causes.{HasCause};
ghost use Rattle.fuxi_io.specs.Disks.{WhereTold};
ghost use Rattle.hard_state.specs.DiskCalls.{MakesCalls};
ghost use Rattle.hard_state.specs.Gates.{Appends, WritesThrough, appending_calls};

use fuxi_io::{Disk, Failed};

// Writes the bytes at this place and brings them onto the disk.
#[tactic(auto, using(crate::proofs::Runs::sync_ends))]
pub fn write_through<D: Disk>(disk: &mut D, at: u64, bytes: &[u8]) -> Result<(), Failed>
    requires begin { at ≤ D.size disk.old }
    requires end { at + length bytes.now < 2 ^ 63 }
    ensures size { OnOk result (D.size disk.new ≡ max (D.size disk.old) (at + length bytes.now)) }
    ensures told { WhereTold (WritesThrough at bytes.now result) (D.told disk.old) (D.told disk.new) }
    ensures cause { HasCause (D.faults disk.old) (D.faults disk.new) result }
    ensures served { OnOk result (D.faults disk.new ≡ D.faults disk.old) }
{
    match disk.write_at(at, bytes) {
        Ok(()) => {}
        Err(failed) => return Err(failed),
    }
    disk.sync()
}

// Writes the bytes behind the gate at this place, and opens the gate once they are on the disk.
pub fn append<D: Disk>(disk: &mut D, gate: u64, bytes: &[u8]) -> Result<(), Failed>
    requires gate { gate < D.size disk.old }
    requires end { gate + 1 + length bytes.now < 2 ^ 63 }
    ensures size { OnOk result (D.size disk.new ≡ max (D.size disk.old) (gate + 1 + length bytes.now)) }
    ensures told { WhereTold (Appends gate bytes.now result) (D.told disk.old) (D.told disk.new) }
    ensures calls { WhereTold (MakesCalls (appending_calls gate bytes.now) result) (D.told disk.old) (D.told disk.new) }
    ensures cause { HasCause (D.faults disk.old) (D.faults disk.new) result }
    ensures served { OnOk result (D.faults disk.new ≡ D.faults disk.old) }
{
    match write_through(disk, gate + 1, bytes) {
        Ok(()) => {}
        Err(failed) => return Err(failed),
    }
    write_through(disk, gate, &[1])
}
