//! One line.

ghost use Rattle.std.specs.Prelude.{◌≡◌, [], ◌∷◌, OnOk};
ghost use Rattle.schedule_text.specs.Printing.{as_line};
ghost use Rattle.schedule_text.specs.Writing.{Begins};
ghost use Rattle.party_text.specs.Texts.{Shows};

use fuxi_terms::OutOfMemory;
use schedule_text::{Output, write_output};

/// Appends a line. A refusal leaves what was there, with or without a part of the line behind it.
pub fn write_line(line: &Output, out: &mut Vec<u8>) -> Result<(), OutOfMemory>
    ensures ok { OnOk result (Shows (as_line line.now ∷ []) out.old.items out.new.items) }
    ensures begins { Begins out.old.items out.new.items }
{
    match write_output(line, out) {
        Ok(()) => Ok(()),
        Err(OutOfMemory) => Err(OutOfMemory),
    }
}
