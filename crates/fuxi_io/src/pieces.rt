ghost use Rattle.std.specs.Prelude.{◌≡◌, ◌++◌, ◌+◌, ◌≤◌, OnOk, OnErr, List, ℕ, map};
ghost use Rattle.std.specs.List.{concat};
ghost use Rattle.std.specs.Io.KnownBytes.{Appends};
ghost use Rattle.fuxi_io.specs.Causes.{HasCause, TakesPart};

use crate::outside::{Sink, WriteFault, write_all_of};

/// Writes pieces one after another. After a fault a part of them all is out, from the front.
pub fn write_pieces<O: Sink>(out: &mut O, pieces: &[&[u8]]) -> Result<(), WriteFault>
    ensures ok { OnOk result (Appends (O.took out.old) (O.took out.new) (concat (map (λ piece. piece.now) pieces.now))) }
    ensures err { OnErr result (TakesPart (O.took out.old) (O.took out.new) (concat (map (λ piece. piece.now) pieces.now))) }
    ensures cause { HasCause (O.faults out.old) (O.faults out.new) result }
    ensures served { OnOk result (O.faults out.new ≡ O.faults out.old) }
{
    for piece in pieces {
        match write_all_of(out, piece) {
            Ok(()) => {}
            Err(fault) => return Err(fault),
        }
    }
    Ok(())
}
