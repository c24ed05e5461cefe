ghost use Rattle.std.specs.Prelude.{◌≡◌, ℕ, ◌<◌, ◌≤◌, true, false, List, length, Option};
ghost use Rattle.std.specs.Io.{ReadsAtMost};
ghost use Rattle.fuxi_io.specs.Causes.{HasCause};
ghost use Rattle.fuxi_io.specs.Doors.{Told, Opens, Reads, Writes, Closes, WhereTold};

use crate::Failed;

/// Where connections come from, one at a time. It counts its faults; the count never falls, and stands still
/// at `u64::MAX`. No call takes memory.
///
/// It may tell the last address that it was handed and how many it was handed, and of each connection which bytes it gave and took,
/// whether a read on it answered 0, and in which order it was read, written to and closed.
pub trait Door {
    ghost use Rattle.std.specs.Prelude.{ℕ, ◌≡◌, ◌<◌, ◌≤◌, true, false, List, length};
    ghost use Rattle.std.specs.declared.option.Option.{Option};
    ghost use Rattle.std.specs.Io.{ReadsAtMost};
    ghost use Rattle.fuxi_io.specs.Causes.{HasCause};
    ghost use Rattle.fuxi_io.specs.Doors.{Told, Opens, Reads, Writes, Closes, WhereTold};

    /// What it has been through, where it tells it.
    ghost told: { Self → Option Told };

    /// How often it has failed.
    ghost faults: { Self → ℕ };

    /// Takes one connection at this address of 1 to 255 bytes, at which it listens from the first use on. An
    /// earlier connection is dropped. After `Failed` no connection was opened, and the address is told.
    fn accept(&mut self, addr: &[u8]) -> Result<(), Failed>
        requires some { 1 ≤ length addr.now }
        requires short { length addr.now ≤ 255 }
        ensures told { WhereTold (Opens true addr.now result) (told self.old) (told self.new) }
        ensures cause { HasCause (faults self.old) (faults self.new) result };

    /// Opens a connection to this address of 1 to 255 bytes. An earlier connection is dropped.
    /// After `Failed` no connection was opened, and the address is told.
    fn dial(&mut self, addr: &[u8]) -> Result<(), Failed>
        requires some { 1 ≤ length addr.now }
        requires short { length addr.now ≤ 255 }
        ensures told { WhereTold (Opens false addr.now result) (told self.old) (told self.new) }
        ensures cause { HasCause (faults self.old) (faults self.new) result };

    /// Reads bytes of the last connection into the front of `buf` and answers how many; 0 only at its end.
    /// After `Failed` nothing was read, which is told.
    fn read(&mut self, buf: &mut [u8]) -> Result<usize, Failed>
        requires { 0 < length buf.old }
        ensures bound { ReadsAtMost result buf.new }
        ensures told { WhereTold (Reads buf.new result) (told self.old) (told self.new) }
        ensures cause { HasCause (faults self.old) (faults self.new) result };

    /// Writes all of the bytes to the last connection. After `Failed`, which is told, it may have taken a part from the front.
    fn write(&mut self, bytes: &[u8]) -> Result<(), Failed>
        ensures told { WhereTold (Writes bytes.now result) (told self.old) (told self.new) }
        ensures cause { HasCause (faults self.old) (faults self.new) result };

    /// Closes the last connection. That is told, also after `Failed`.
    fn close(&mut self) -> Result<(), Failed>
        ensures told { WhereTold Closes (told self.old) (told self.new) }
        ensures cause { HasCause (faults self.old) (faults self.new) result };
}
