ghost use Rattle.std.specs.Prelude.{◌≡◌, ℕ, ◌+◌, ◌<◌, ◌≤◌, List, [], length, IfOk, OnErr, OnOk, Option, take, ◌++◌};
ghost use Rattle.std.specs.Io.KnownBytes.{Appends};
ghost use Rattle.fuxi_io.specs.Causes.{HasCause, TakesPart};

/// An object of the outside failed, and its count of faults rose.
#[derive(Clone, Copy, Debug, Drop, PartialEq, Eq)]
pub struct Failed;

/// Where bytes come from. It counts its faults; the count never falls, stands still at `u64::MAX`, and is
/// left as it was by a call that is served. It may tell the bytes that it has left. No call takes memory.
pub trait Source {
    ghost use Rattle.std.specs.Prelude.{◌≡◌, ℕ, ◌<◌, List, length, OnOk};
    ghost use Rattle.std.specs.declared.option.Option.{Option};
    ghost use Rattle.std.specs.Io.{ReadsAtMost};
    ghost use Rattle.std.specs.Io.KnownBytes.{ReadConsumes};
    ghost use Rattle.fuxi_io.specs.Causes.{HasCause};

    /// The bytes that are left, where they are known.
    ghost left: { Self → Option (List ℕ) };

    /// How often it has failed.
    ghost faults: { Self → ℕ };

    /// Reads bytes into the front of `buf` and answers how many; 0 only at the end.
    /// After `Failed` nothing was read, and the count of faults rose.
    fn read(&mut self, buf: &mut [u8]) -> Result<usize, Failed>
        requires { 0 < length buf.old }
        ensures bound { ReadsAtMost result buf.new }
        ensures bytes { ReadConsumes (left self.old) (left self.new) result buf.new }
        ensures cause { HasCause (faults self.old) (faults self.new) result }
        ensures served { OnOk result (faults self.new ≡ faults self.old) };
}

/// Where bytes go. It counts its faults as a `Source` does, and may tell the bytes that it took.
/// No call takes memory.
pub trait Sink {
    ghost use Rattle.std.specs.Prelude.{◌≡◌, ℕ, ◌<◌, ◌≤◌, List, length, IfOk, OnOk};
    ghost use Rattle.std.specs.declared.option.Option.{Option};
    ghost use Rattle.std.specs.Io.KnownBytes.{WriteAppends};
    ghost use Rattle.fuxi_io.specs.Causes.{HasCause};

    /// The bytes that it took, where they are known.
    ghost took: { Self → Option (List ℕ) };

    /// How often it has failed.
    ghost faults: { Self → ℕ };

    /// Takes bytes from the front of `bytes`, at least one, and answers how many.
    /// After `Failed` it took none, and the count of faults rose.
    fn write(&mut self, bytes: &[u8]) -> Result<usize, Failed>
        requires { 0 < length bytes.now }
        ensures some { IfOk result (λ n. 0 < n) }
        ensures bound { IfOk result (λ n. n ≤ length bytes.now) }
        ensures bytes { WriteAppends (took self.old) (took self.new) result bytes.now }
        ensures cause { HasCause (faults self.old) (faults self.new) result }
        ensures served { OnOk result (faults self.new ≡ faults self.old) };
}

/// A sink failed before it took all that it was handed.
#[derive(Clone, Copy, Debug, Drop, PartialEq, Eq)]
pub struct WriteFault;

/// Writes all of the bytes, in as many calls as the sink needs; with no bytes it makes no call.
/// After `WriteFault` a part from the front is out, and the sink's count of faults rose in this call.
pub fn write_all_of<O: Sink>(out: &mut O, bytes: &[u8]) -> Result<(), WriteFault>
    ensures ok { OnOk result (Appends (O.took out.old) (O.took out.new) bytes.now) }
    ensures err { OnErr result (TakesPart (O.took out.old) (O.took out.new) bytes.now) }
    ensures cause { HasCause (O.faults out.old) (O.faults out.new) result }
    ensures served { OnOk result (O.faults out.new ≡ O.faults out.old) }
    ensures none { bytes.now ≡ [] → (result ≡ Ok (record {})) × (out.new ≡ out.old) }
{
    let mut at = 0;
    while at < bytes.len() {
        match out.write(&bytes[at..]) {
            Ok(n) => at += n,
            Err(Failed) => return Err(WriteFault),
        }
    }
    Ok(())
}
