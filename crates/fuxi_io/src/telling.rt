ghost use Rattle.std.specs.Prelude.{◌≡◌, ◌++◌, OnOk, OnErr, codes, decimal};
ghost use Rattle.std.specs.Io.KnownBytes.{Appends};
ghost use Rattle.fuxi_io.specs.Causes.{HasCause, TakesPart};
ghost use Rattle.fuxi_io.specs.Reports.{fault_name, fault_value, limit_word, status_line};

use crate::outside::{Sink, WriteFault, write_all_of};
use crate::pieces::write_pieces;
use crate::status::{InputFault, LimitOf, Status};
use itoa::Buffer;

fn fault_name(fault: &InputFault) -> &'static str
    ensures { result.now ≡ fault_name fault.now }
{
    match fault {
        InputFault::UnknownWord => "UnknownWord",
        InputFault::WrongCount => "WrongCount",
        InputFault::BadNumber(_) => "BadNumber",
        InputFault::Range(_) => "Range",
        InputFault::LineTooLong => "LineTooLong",
        InputFault::NoCluster => "NoCluster",
        InputFault::NotJson => "NotJson",
        InputFault::WrongKind(_) => "WrongKind",
        InputFault::UnknownKey => "UnknownKey",
        InputFault::MissingKey(_) => "MissingKey",
        InputFault::Count(_) => "Count",
        InputFault::LengthDiffers => "LengthDiffers",
        InputFault::QuantityRange => "QuantityRange",
        InputFault::QuotaOverLimit(_) => "QuotaOverLimit",
        InputFault::NoMachine => "NoMachine",
    }
}

// The value behind a fault's name, which may be written into the buffer.
fn fault_value<'a>(fault: &InputFault, buffer: &'a mut Buffer) -> (&'static str, &'a str)
    ensures { result.0.now ++ result.1.now ≡ fault_value fault.now }
{
    match fault {
        InputFault::WrongKind(key) | InputFault::MissingKey(key) | InputFault::Count(key) => (
            " ",
            key.word(),
        ),
        InputFault::BadNumber(place) | InputFault::Range(place) => (" ", buffer.format(*place)),
        InputFault::QuotaOverLimit(group) => (" ", buffer.format(*group)),
        _ => ("", ""),
    }
}

fn limit_word(what: &LimitOf) -> &'static str
    ensures { result.now ≡ limit_word what.now }
{
    match what {
        LimitOf::Lines => "lines",
        LimitOf::Packets => "packets",
        LimitOf::Bytes => "bytes",
        LimitOf::Records => "records",
        LimitOf::Calls => "calls",
    }
}

// Writes a line that ends with a number.
fn write_number<E: Sink>(err: &mut E, words: &[u8], number: u64) -> Result<(), WriteFault>
    ensures ok { OnOk result (Appends (E.took err.old) (E.took err.new) (words.now ++ decimal number ++ codes "\n")) }
    ensures err { OnErr result (TakesPart (E.took err.old) (E.took err.new) (words.now ++ decimal number ++ codes "\n")) }
    ensures cause { HasCause (E.faults err.old) (E.faults err.new) result }
    ensures served { OnOk result (E.faults err.new ≡ E.faults err.old) }
{
    let mut buffer = Buffer::new();
    write_pieces(err, &[words, buffer.format(number).as_bytes(), b"\n"])
}

/// Writes the line that tells of an outcome, in pieces; `Done` has none. Where words are no command, that
/// is the line `usage`. It takes no memory.
pub fn report<E: Sink>(err: &mut E, usage: &[u8], status: &Status) -> Result<(), WriteFault>
    ensures ok { OnOk result (Appends (E.took err.old) (E.took err.new) (status_line usage.now status.now)) }
    ensures err { OnErr result (TakesPart (E.took err.old) (E.took err.new) (status_line usage.now status.now)) }
    ensures cause { HasCause (E.faults err.old) (E.faults err.new) result }
    ensures served { OnOk result (E.faults err.new ≡ E.faults err.old) }
{
    match status {
        Status::Done => Ok(()),
        Status::Usage => write_all_of(err, usage),
        Status::BadInput { line, fault } => {
            let mut number = Buffer::new();
            let mut buffer = Buffer::new();
            let (blank, value) = fault_value(fault, &mut buffer);
            write_pieces(
                err,
                &[
                    b"line ",
                    number.format(*line).as_bytes(),
                    b": ",
                    fault_name(fault).as_bytes(),
                    blank.as_bytes(),
                    value.as_bytes(),
                    b"\n",
                ],
            )
        }
        Status::ReadFault => write_all_of(err, b"read fault\n"),
        Status::WriteFault => write_all_of(err, b"write fault\n"),
        Status::Limit { what, kept } => {
            let word = limit_word(what);
            let mut number = Buffer::new();
            write_pieces(
                err,
                &[
                    b"limit ",
                    word.as_bytes(),
                    b" ",
                    number.format(*kept).as_bytes(),
                    b"\n",
                ],
            )
        }
        Status::OutOfMemory => write_all_of(err, b"out of memory\n"),
        Status::DiskFault => write_all_of(err, b"disk fault\n"),
        Status::StaleEpoch { fence } => write_number(err, b"stale epoch ", *fence),
        Status::DamagedCheckpoint { offset } => write_number(err, b"damaged checkpoint ", *offset),
    }
}
