ghost use Rattle.std.specs.Prelude.{◌≡◌, ℕ, List, Ok, IfOk, IfErr, IfSome, Some, None, map, string_bytes};
ghost use Rattle.std.specs.Process.{exit_status};
ghost use Rattle.std.specs.Option.{option_map};
ghost use Rattle.std.specs.Io.KnownBytes.{Appends};
ghost use Rattle.fuxi_io.specs.Disks.{Told};
ghost use Rattle.fuxi_io.specs.Statuses.{code_of};
ghost use Rattle.hard_state.specs.HardFiles.{records_of};
ghost use Rattle.epoch_lease.specs.LeaseRuns.{text_of};
ghost use Rattle.work_plan.specs.WorkLineRuns.{text_of as work_text_of};
ghost use Rattle.spec_roles.specs.HardState.{HardState};
ghost use Rattle.schedule_replay.specs.Told.{IsText, Writes};
ghost use Rattle.fuxi_command.specs.CommandWords.{Lease, Replay, Work, command_of, file_of, HasWords, NoWords, WhyNoWords};
ghost use Rattle.fuxi_io.specs.Reports.{TakesReport};
ghost use Rattle.fuxi_command.specs.CommandReports.{report_line};
ghost use Rattle.fuxi_command.specs.Outcomes.{IsOutcome, seen};

use crate::telling::report;
use crate::top::fuxi;
use crate::words::{Command, command_of};
use fuxi_io::{Disk, Door, Sink, Source, Status};
use fuxi_node::NodeKind;
use std::alloc::Global;
use std::env::Args;
use std::io;
use std::io::ErrorKind;
use std::process::ExitCode;

// The status where the arguments of a program cannot be read: one that is no text is no command.
fn unread(kind: ErrorKind) -> Status
    ensures { NoWords kind result }
{
    if kind == ErrorKind::OutOfMemory {
        Status::OutOfMemory
    } else {
        Status::Usage
    }
}

/// The words of a program's arguments, which are those behind its name, or the status where they cannot be
/// had: `Usage` where a word is no text, and else `OutOfMemory`.
pub fn words_of(alloc: Global, args: io::Result<Args>) -> Result<Vec<String>, Status>
    ensures ok { IfOk result (λ words. HasWords args words.items) }
    ensures err { IfErr result (λ status. WhyNoWords args status) }
{
    let mut args = match args {
        Ok(args) => args,
        Err(error) => return Err(unread(error.kind())),
    };
    let _name = args.next();
    let mut words = Vec::new(alloc);
    while let Some(word) = args.next() {
        if words.push(word).is_err() {
            return Err(Status::OutOfMemory);
        }
    }
    Ok(words)
}

/// The name of the file that the command of the words has, in the folder that it is run in: `fuxi.state` of a master's node, and
/// `fuxi.lease` of a lease. No other command has one.
pub fn file_of(words: &Result<Vec<String>, Status>) -> Option<&'static str>
    ensures ok { IfOk words.now (λ words. option_map (λ name. name.now) result ≡ file_of (command_of (map string_bytes words.items))) }
    ensures err { IfErr words.now (λ status. result ≡ None) }
{
    match words {
        Ok(words) => name_of(words),
        Err(_) => None,
    }
}

fn name_of(words: &[String]) -> Option<&'static str>
    ensures { option_map (λ name. name.now) result ≡ file_of (command_of (map string_bytes words.now)) }
{
    match command_of(words) {
        Some(
            Command::Node {
                kind: NodeKind::Master { .. },
                ..
            },
        ) => Some("fuxi.state"),
        Some(Command::Lease) => Some("fuxi.lease"),
        _ => None,
    }
}

/// Runs the command of the words, or tells on the error stream why there are none.
pub fn run<S: Source, O: Sink, E: Sink, D: Disk, N: Door>(
    alloc: Global,
    words: Result<Vec<String>, Status>,
    input: &mut S,
    out: &mut O,
    err: &mut E,
    disk: &mut D,
    door: &mut N,
) -> Status
    // Without words the status is that of their want, and nothing was read or written but the line that tells it.
    ensures none { IfErr words (λ status. (result ≡ status) × (input.new ≡ input.old) × (out.new ≡ out.old) × (disk.new ≡ disk.old) × (door.new ≡ door.old)) }
    // With words it is what `fuxi` makes of them, all of it by one relation; for a replay, a lease and named workers also by their texts.
    ensures outcome { IfOk words (λ words. IsOutcome (map string_bytes words.items) result (input.new ≡ input.old) (out.new ≡ out.old) (disk.new ≡ disk.old) (door.new ≡ door.old)
        (seen (S.left input.old) (O.took out.old) (D.told disk.old) (N.told door.old) (S.faults input.old) (O.faults out.old) (D.faults disk.old) (N.faults door.old))
        (seen (S.left input.new) (O.took out.new) (D.told disk.new) (N.told door.new) (S.faults input.new) (O.faults out.new) (D.faults disk.new) (N.faults door.new))) }
    ensures text { IfOk words (λ words. command_of (map string_bytes words.items) ≡ Some Replay → result ≡ Status.Done → IfSome (S.left input.old) (λ bytes. Writes (IsText bytes) (O.took out.old) (O.took out.new))) }
    ensures lease_text { IfOk words (λ words. command_of (map string_bytes words.items) ≡ Some Lease → result ≡ Status.Done → (bytes : List ℕ) (t : Told) (value : HardState) → S.left input.old ≡ Some bytes → D.told disk.old ≡ Some t
        → records_of t.now.bytes ≡ Ok value → Appends (O.took out.old) (O.took out.new) (text_of value bytes)) }
    ensures work_plan { IfOk words (λ words. command_of (map string_bytes words.items) ≡ Some Work → result ≡ Status.Done → IfSome (S.left input.old) (λ bytes. Appends (O.took out.old) (O.took out.new) (work_text_of bytes))) }
    ensures report { TakesReport (report_line result) (E.took err.old) (E.took err.new) (E.faults err.old) (E.faults err.new) }
{
    match words {
        Ok(words) => fuxi(alloc, &words, input, out, err, disk, door),
        Err(status) => {
            let _told = report(err, &status);
            status
        }
    }
}

/// The number with which the program ends.
pub fn exit_of(status: &Status) -> ExitCode
    ensures { exit_status result ≡ code_of status.now }
{
    ExitCode::from(status.code())
}
