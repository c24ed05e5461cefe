//! What a node prints.

ghost use Rattle.std.specs.Prelude.{◌≡◌, ◌++◌, OnOk, OnErr};
ghost use Rattle.std.specs.Io.KnownBytes.{Appends};
ghost use Rattle.fuxi_io.specs.Causes.{HasCause, TakesPart};
ghost use Rattle.node_core.specs.Roles.{Role};
ghost use Rattle.node_core.specs.NodeTexts.{answer_text, as_answer, found_text, round_text, state_text};

use crate::RoundLine;
use crate::party::{Answer, Node};
use fuxi_io::{Sink, WriteFault, write_all_of, write_pieces};
use fuxi_terms::OutOfMemory;
use itoa::Buffer;
use schedule_text::{Output, write_output};

/// Appends the line of an answer, where it has one. Where memory is refused nothing is said of what stands in `out`.
pub fn push_answer(answer: &Answer, out: &mut Vec<u8>) -> Result<(), OutOfMemory>
    ensures { OnOk result (out.new.items ≡ out.old.items ++ answer_text (as_answer answer.now)) }
{
    match answer {
        Answer::Done => Ok(()),
        Answer::Refused(refusal) => write_output(&Output::Refused(*refusal), out),
        Answer::NotHere => Ok(out.extend_from_slice(b"refused NotHere\n")?),
    }
}

// The number that was found and a blank before it, which may be written into the buffer.
fn found_text<'a>(found: Option<u32>, buffer: &'a mut Buffer) -> (&'static str, &'a str)
    ensures { result.0.now ++ result.1.now ≡ found_text found }
{
    match found {
        Some(found) => (" ", buffer.format(found)),
        None => ("", ""),
    }
}

/// Writes the line of a round. It takes no memory, so a round that came to its end is told unless the sink fails.
/// Where it fails it has taken less than the line, from its front.
pub fn write_round<O: Sink>(out: &mut O, line: &RoundLine) -> Result<(), WriteFault>
    ensures ok { OnOk result (Appends (O.took out.old) (O.took out.new) (round_text line.now)) }
    ensures err { OnErr result (TakesPart (O.took out.old) (O.took out.new) (round_text line.now)) }
    ensures cause { HasCause (O.faults out.old) (O.faults out.new) result }
    ensures served { OnOk result (O.faults out.new ≡ O.faults out.old) }
{
    let mut first = Buffer::new();
    let mut second = Buffer::new();
    match line {
        RoundLine::Done(heard, sent) => write_pieces(
            out,
            &[
                b"round done ",
                first.format(*heard).as_bytes(),
                b" ",
                second.format(*sent).as_bytes(),
                b"\n",
            ],
        ),
        RoundLine::Fault => write_all_of(out, b"round fault\n"),
        RoundLine::Bad(at, fault) => {
            let (blank, found) = found_text(fault.found(), &mut second);
            write_pieces(
                out,
                &[
                    b"round bad ",
                    first.format(*at).as_bytes(),
                    b" ",
                    fault.name().as_bytes(),
                    blank.as_bytes(),
                    found.as_bytes(),
                    b"\n",
                ],
            )
        }
        RoundLine::Stranger(at) => write_pieces(
            out,
            &[b"round bad ", first.format(*at).as_bytes(), b" Stranger\n"],
        ),
        RoundLine::Long => write_all_of(out, b"round long\n"),
    }
}

/// Appends the state of a node that took so many events. Where memory is refused nothing is said of what stands in `out`.
pub fn push_state<C: Node>(events: u64, core: &C, out: &mut Vec<u8>) -> Result<(), OutOfMemory>
    ensures { OnOk result ((r : Role) → C.stands core.now r → out.new.items ≡ out.old.items ++ state_text events r) }
{
    write_output(&Output::State(events), out)?;
    core.write_state(out)
}
