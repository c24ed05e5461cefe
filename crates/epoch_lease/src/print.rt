//! The lines that a lease prints, without memory.

ghost use Rattle.std.specs.Prelude.{◌≡◌, ◌++◌, OnOk, OnErr, codes, decimal};
ghost use Rattle.std.specs.Io.KnownBytes.{Appends};
ghost use Rattle.fuxi_io.specs.Causes.{HasCause, TakesPart};
ghost use Rattle.epoch_lease.specs.LeaseTexts.{answer_text};

use crate::LeaseOut;
use fuxi_io::{Sink, WriteFault, write_all_of, write_pieces};
use itoa::Buffer;

// Writes a line that ends with a number.
pub fn write_number<O: Sink>(out: &mut O, words: &[u8], number: u64) -> Result<(), WriteFault>
    ensures ok { OnOk result (Appends (O.took out.old) (O.took out.new) (words.now ++ decimal number ++ codes "\n")) }
    ensures err { OnErr result (TakesPart (O.took out.old) (O.took out.new) (words.now ++ decimal number ++ codes "\n")) }
    ensures cause { HasCause (O.faults out.old) (O.faults out.new) result }
    ensures served { OnOk result (O.faults out.new ≡ O.faults out.old) }
{
    let mut buffer = Buffer::new();
    write_pieces(out, &[words, buffer.format(number).as_bytes(), b"\n"])
}

// Writes a line that ends with two numbers.
fn write_numbers<O: Sink>(
    out: &mut O,
    words: &[u8],
    first: u32,
    second: u64,
) -> Result<(), WriteFault>
    ensures ok { OnOk result (Appends (O.took out.old) (O.took out.new) (words.now ++ decimal first ++ codes " " ++ decimal second ++ codes "\n")) }
    ensures err { OnErr result (TakesPart (O.took out.old) (O.took out.new) (words.now ++ decimal first ++ codes " " ++ decimal second ++ codes "\n")) }
    ensures cause { HasCause (O.faults out.old) (O.faults out.new) result }
    ensures served { OnOk result (O.faults out.new ≡ O.faults out.old) }
{
    let mut buffer = Buffer::new();
    let mut other = Buffer::new();
    write_pieces(
        out,
        &[
            words,
            buffer.format(first).as_bytes(),
            b" ",
            other.format(second).as_bytes(),
            b"\n",
        ],
    )
}

// Writes an answer. After a fault a part of it is out, from the front.
pub fn write_answer<O: Sink>(out: &mut O, answer: &LeaseOut) -> Result<(), WriteFault>
    ensures ok { OnOk result (Appends (O.took out.old) (O.took out.new) (answer_text answer.now)) }
    ensures err { OnErr result (TakesPart (O.took out.old) (O.took out.new) (answer_text answer.now)) }
    ensures cause { HasCause (O.faults out.old) (O.faults out.new) result }
    ensures served { OnOk result (O.faults out.new ≡ O.faults out.old) }
{
    match answer {
        LeaseOut::Granted(epoch) => write_number(out, b"granted ", *epoch),
        LeaseOut::Held(holder, epoch) => write_numbers(out, b"held ", *holder, *epoch),
        LeaseOut::NoEpoch => write_all_of(out, b"refused NoEpoch\n"),
        LeaseOut::HardFull(most) => write_number(out, b"refused HardFull ", u64::from(*most)),
        LeaseOut::Renewed(epoch) => write_number(out, b"renewed ", *epoch),
        LeaseOut::Released(epoch) => write_number(out, b"released ", *epoch),
        LeaseOut::Expired(epoch) => write_number(out, b"expired ", *epoch),
        LeaseOut::NotHolder(last) => write_number(out, b"refused NotHolder ", *last),
        LeaseOut::Free => write_all_of(out, b"refused Free\n"),
    }
}
