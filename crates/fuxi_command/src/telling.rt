ghost use Rattle.std.specs.Prelude.{◌≡◌, OnOk, OnErr};
ghost use Rattle.std.specs.Io.KnownBytes.{Appends};
ghost use Rattle.fuxi_io.specs.Causes.{HasCause, TakesPart};
ghost use Rattle.fuxi_command.specs.CommandReports.{report_line};

use fuxi_io::{Sink, Status, WriteFault};

// The commands, as they are told where words are none.
const USAGE: &[u8] =
    b"usage: fuxi replay | storm SEED STEPS | node master EPOCH ADDR | node agent MACHINE BOOT ADDR | node app APP BOOT UNITS ADDR | lease | work\n";

/// Writes the line that tells of an outcome, in pieces; `Done` has none. It takes no memory.
pub fn report<E: Sink>(err: &mut E, status: &Status) -> Result<(), WriteFault>
    ensures ok { OnOk result (Appends (E.took err.old) (E.took err.new) (report_line status.now)) }
    ensures err { OnErr result (TakesPart (E.took err.old) (E.took err.new) (report_line status.now)) }
    ensures cause { HasCause (E.faults err.old) (E.faults err.new) result }
    ensures served { OnOk result (E.faults err.new ≡ E.faults err.old) }
{
    fuxi_io::report(err, USAGE, status)
}
