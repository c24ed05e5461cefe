ghost use Rattle.std.specs.Prelude.{◌≡◌, ℕ, ◌+◌, ◌^◌, ◌<◌, ◌≤◌, List, length, take, drop, max, IfOk, IfSome, OnOk, OnErr, Option};
ghost use Rattle.fuxi_io.specs.Causes.{HasCause};
ghost use Rattle.fuxi_io.specs.Disks.{Told, Writes, Syncs, WhereTold};

use crate::outside::Failed;

/// A file on a disk, by places from 0 on. It counts its faults; the count never falls, stands still at
/// `u64::MAX`, and is left as it was by a call that is served. No call takes memory.
///
/// It may tell its moments: after each write and each sync, what a read gives and what a crash may leave.
/// Until the next sync a written range, and whatever lies past the end that was synced last, may hold any
/// bytes after a crash, and the file may have any length between. After a sync a crash leaves what a read gives.
pub trait Disk {
    ghost use Rattle.std.specs.Prelude.{ℕ, ◌≡◌, ◌+◌, ◌^◌, ◌<◌, ◌≤◌, List, length, take, drop, max, IfOk, IfSome, OnOk, OnErr};
    ghost use Rattle.std.specs.declared.option.Option.{Option};
    ghost use Rattle.fuxi_io.specs.Causes.{HasCause};
    ghost use Rattle.fuxi_io.specs.Disks.{Told, Writes, Syncs, WhereTold};

    /// Its length in bytes, as far as is known.
    ghost size: { Self → ℕ };

    /// Its moments so far, where it tells them.
    ghost told: { Self → Option Told };

    /// How often it has failed.
    ghost faults: { Self → ℕ };

    /// Its length in bytes.
    fn len(&mut self) -> Result<u64, Failed>
        ensures size { IfOk result (λ n. n ≡ size self.new) }
        ensures told { told self.new ≡ told self.old }
        ensures cause { HasCause (faults self.old) (faults self.new) result }
        ensures served { OnOk result (faults self.new ≡ faults self.old) };

    /// Reads the whole of `buf`, from the place `at` on. After `Failed` the buffer may hold anything.
    fn read_at(&mut self, at: u64, buf: &mut [u8]) -> Result<(), Failed>
        requires within { at + length buf.old ≤ size self.old }
        ensures bytes { OnOk result (IfSome (told self.old) (λ t. buf.new ≡ take (length buf.old) (drop at t.now.bytes))) }
        ensures size { size self.new ≡ size self.old }
        ensures told { told self.new ≡ told self.old }
        ensures cause { HasCause (faults self.old) (faults self.new) result }
        ensures served { OnOk result (faults self.new ≡ faults self.old) };

    /// Writes the bytes from the place `at` on, over what stands there and past the end.
    /// After `Failed` any bytes may stand from the place `at` on, no more than were handed in.
    fn write_at(&mut self, at: u64, bytes: &[u8]) -> Result<(), Failed>
        requires begin { at ≤ size self.old }
        requires end { at + length bytes.now < 2 ^ 63 }
        ensures size { OnOk result (size self.new ≡ max (size self.old) (at + length bytes.now)) }
        ensures told { WhereTold (Writes at bytes.now result) (told self.old) (told self.new) }
        ensures cause { HasCause (faults self.old) (faults self.new) result }
        ensures served { OnOk result (faults self.new ≡ faults self.old) };

    /// Brings all that was written onto the disk. After `Failed` nothing has changed.
    fn sync(&mut self) -> Result<(), Failed>
        ensures size { size self.new ≡ size self.old }
        ensures told { WhereTold (Syncs result) (told self.old) (told self.new) }
        ensures cause { HasCause (faults self.old) (faults self.new) result }
        ensures served { OnOk result (faults self.new ≡ faults self.old) };

    /// A disk that tells its bytes is as long as these.
    ghost measured: { (disk : Self) → IfSome (told disk) (λ t. size disk ≡ length t.now.bytes) };
}
