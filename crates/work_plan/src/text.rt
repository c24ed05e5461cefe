//! The lines that events print.

ghost use Rattle.std.specs.Prelude.{◌≡◌, ◌++◌, ◌∷◌, [], ◌+◌, ◌≤◌, drop, length, map, OnOk};
ghost use Rattle.work_plan.specs.Ends.{packet_of};
ghost use Rattle.work_plan.specs.WorkPrinting.{as_line, as_why};
ghost use Rattle.work_plan.specs.WorkEvents.{numbered};
ghost use Rattle.work_plan.specs.WorkLines.{Sent, Refused, lines_text};
ghost use Rattle.work_plan.specs.WorkMoves.{heard_line};

use crate::{Heard, Kind, Output, Parcel, Why, write_line};
use full_sync::Note;
use fuxi_terms::OutOfMemory;

// The line of a packet that was sent as this one.
fn sent_line(number: u64, parcel: &Parcel) -> Output
    ensures { as_line result ≡ Sent number (packet_of parcel.now) }
{
    let from = parcel.from;
    let to = parcel.to;
    let (kind, inc, seq) = match &parcel.note {
        Note::Ack(place) => (Kind::Ack, place.inc, place.seq),
        Note::Full(seq, _) => (Kind::Full, from.inc, *seq),
        Note::Delta(seq, _) => (Kind::Delta, from.inc, *seq),
    };
    Output::Sent {
        number,
        from,
        to,
        kind,
        inc,
        seq,
    }
}

// Writes the lines of the packets from this one on, which are counted from 1.
pub fn write_sent(packets: &[Parcel], first: usize, out: &mut Vec<u8>) -> Result<(), OutOfMemory>
    requires { first ≤ length packets.now }
    ensures { OnOk result (out.new.items ≡ out.old.items ++ lines_text (numbered (first + 1) (drop first (map packet_of packets.now)))) }
{
    for index in first..packets.len() {
        write_line(&sent_line(index as u64 + 1, &packets[index]), out)?;
    }
    Ok(())
}

// Writes why an event is refused.
pub fn write_refused(why: Why, out: &mut Vec<u8>) -> Result<(), OutOfMemory>
    ensures { OnOk result (out.new.items ≡ out.old.items ++ lines_text (Refused (as_why why) ∷ [])) }
{
    write_line(&Output::Refused(why), out)
}

// Writes how a packet was heard, or that nobody runs whom it is for.
pub fn write_heard(number: u64, heard: Option<Heard>, out: &mut Vec<u8>) -> Result<(), OutOfMemory>
    ensures { OnOk result (out.new.items ≡ out.old.items ++ lines_text (heard_line number heard ∷ [])) }
{
    match heard {
        Some(heard) => write_line(&Output::Heard(number, heard.fresh, heard.what), out),
        None => write_line(&Output::Lost(number), out),
    }
}
