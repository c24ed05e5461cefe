//! The lines that are printed.

ghost use Rattle.std.specs.Prelude.{◌≡◌, ◌++◌, ◌∷◌, map, OnOk, OnErr, decimal};
ghost use Rattle.schedule_text.specs.Writing.{blanked, spaced, Begins};
ghost use Rattle.work_plan.specs.WorkLines.{line_words, line_text, why_words};
ghost use Rattle.work_plan.specs.WorkPrinting.{as_why, as_line};

use fuxi_terms::{OutOfMemory, What};
use schedule_text::{
    Kind, push_blanked, push_heard, push_numbered, push_numbers, push_place, push_sent,
};
use schedule_unit::{AppNo, Party, UnitNo};

/// Why an event is refused.
#[derive(Clone, Copy, Debug, Drop, PartialEq, Eq)]
pub enum Why {
    /// The agent or the application never started.
    NotRunning,
    /// The boot is not above the last one, which is this.
    NotRising(u64),
    /// No packet has the number; so many were sent.
    NoPacket(u64),
}

/// A line that is printed. Packets count from 1, and a place is an incarnation and an index.
#[derive(Clone, Copy, Drop)]
pub enum Output {
    /// A packet of a turn.
    Sent {
        /// Its number, from 1 on.
        number: u64,
        /// Who sends it.
        from: Party,
        /// Whom it is for.
        to: Party,
        /// What it is.
        kind: Kind,
        /// The incarnation of its place.
        inc: u64,
        /// The index of its place.
        seq: u64,
    },
    /// A packet that was heard, whether its sender is a new incarnation, and as what.
    Heard(u64, bool, What),
    /// A packet that was delivered where nobody runs.
    Lost(u64),
    /// Why an event was refused.
    Refused(Why),
    /// The number of events.
    State(u64),
    /// The agent with its boot.
    Agent(u64),
    /// The agent's place in the plans of an application.
    Plan(AppNo, u64, u64),
    /// A worker that runs of a unit of an application.
    Work(AppNo, UnitNo, u32),
    /// An application with its boot and its place.
    App(AppNo, u64, u64, u64),
    /// A worker of which an application has heard that it runs.
    Seen(AppNo, UnitNo, u32),
    /// How many packets were sent.
    Packets(u64),
}

/// Appends the line and a newline. After want of memory a part of it may stand behind what was there.
pub fn write_line(line: &Output, out: &mut Vec<u8>) -> Result<(), OutOfMemory>
    ensures ok { OnOk result (out.new.items ≡ out.old.items ++ line_text (as_line line.now)) }
    ensures err { OnErr result (Begins out.old.items out.new.items) }
{
    push_line(line, out)?;
    Ok(out.push(b'\n')?)
}

fn push_line(line: &Output, out: &mut Vec<u8>) -> Result<(), OutOfMemory>
    ensures ok { OnOk result (out.new.items ≡ out.old.items ++ spaced (line_words (as_line line.now))) }
    ensures err { OnErr result (Begins out.old.items out.new.items) }
{
    match line {
        Output::Sent {
            number,
            from,
            to,
            kind,
            inc,
            seq,
        } => {
            push_numbered(out, b"sent", &[*number])?;
            push_sent(out, from, to, *kind, *inc, *seq)
        }
        Output::Heard(number, fresh, what) => {
            push_numbered(out, b"heard", &[*number])?;
            push_heard(out, *fresh, what)
        }
        Output::Lost(number) => {
            push_numbered(out, b"heard", &[*number])?;
            push_blanked(out, b"lost")
        }
        Output::Refused(why) => {
            push_numbered(out, b"refused", &[])?;
            push_why(out, why)
        }
        Output::State(events) => push_numbered(out, b"state", &[*events]),
        Output::Agent(boot) => push_numbered(out, b"agent", &[*boot]),
        Output::Plan(app, inc, seq) => {
            push_numbered(out, b"plan", &[app.0 as u64])?;
            push_place(out, *inc, *seq)
        }
        Output::Work(app, unit, worker) => push_numbered(
            out,
            b"work",
            &[app.0 as u64, unit.0 as u64, *worker as u64],
        ),
        Output::App(app, boot, inc, seq) => {
            push_numbered(out, b"app", &[app.0 as u64, *boot])?;
            push_place(out, *inc, *seq)
        }
        Output::Seen(app, unit, worker) => push_numbered(
            out,
            b"seen",
            &[app.0 as u64, unit.0 as u64, *worker as u64],
        ),
        Output::Packets(number) => push_numbered(out, b"packets", &[*number]),
    }
}

fn push_why(out: &mut Vec<u8>, why: &Why) -> Result<(), OutOfMemory>
    ensures ok { OnOk result (out.new.items ≡ out.old.items ++ blanked (why_words (as_why why.now))) }
    ensures err { OnErr result (Begins out.old.items out.new.items) }
{
    match why {
        Why::NotRunning => push_name(out, b"NotRunning", &[]),
        Why::NotRising(known) => push_name(out, b"NotRising", &[*known]),
        Why::NoPacket(sent) => push_name(out, b"NoPacket", &[*sent]),
    }
}

// A name and numbers, each with a blank before it.
fn push_name(out: &mut Vec<u8>, name: &[u8], numbers: &[u64]) -> Result<(), OutOfMemory>
    ensures ok { OnOk result (out.new.items ≡ out.old.items ++ blanked (name.now ∷ map decimal numbers.now)) }
    ensures err { OnErr result (Begins out.old.items out.new.items) }
{
    push_blanked(out, name)?;
    push_numbers(out, numbers)
}
