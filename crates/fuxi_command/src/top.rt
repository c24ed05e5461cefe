ghost use Rattle.std.specs.Prelude.{◌≡◌, ◌≢◌, ◌⊎◌, ◌↔◌, ℕ, List, [], Some, None, Ok, Err, IfSome, false, map, string_bytes, take};
ghost use Rattle.std.specs.List.{concat};
ghost use Rattle.std.specs.Io.KnownBytes.{Appends};
ghost use Rattle.fuxi_io.specs.Causes.{Rose};
ghost use Rattle.spec_progress.specs.CalmRounds.{CalmBringsQuiet};
ghost use Rattle.storm_run.specs.StormEnds.{EndsQuiet};
ghost use Rattle.spec_world.specs.Runs.{run};
ghost use Rattle.spec_world.specs.Safe.{AllFit, Views, AllAgree, AllSettled};
ghost use Rattle.spec_world.specs.Credits.{AllCreditedOnce};
ghost use Rattle.spec_world.specs.Judging.{AllJudge};
ghost use Rattle.spec_world.specs.Starts.{StartsWithNothing};
ghost use Rattle.spec_world.specs.EventSteps.{AllBare, AllGrow, AllLose};
ghost use Rattle.schedule_replay.specs.Inputs.{Input};
ghost use Rattle.input_lines.specs.LineRuns.{AtEnd, AtBadLine, AtLimit};
ghost use Rattle.schedule_replay.specs.ScheduleRuns.{run_of, read_from, pieces, ReadsWhole, StopsWithin, Ended};
ghost use Rattle.schedule_replay.specs.Told.{IsText, IsTextBefore, IsFrontText, Writes, LeadsTo};
ghost use Rattle.fuxi_command.specs.RunStates.{AllCountOnce, AllKeepGrants, AllTakeByQuota};
ghost use Rattle.storm_run.specs.StormRuns.{IsLimit};
ghost use Rattle.storm_run.specs.Summaries.{storm_of};
ghost use Rattle.fuxi_command.specs.StormTexts.{IsStorm, WritesPart};
ghost use Rattle.fuxi_command.specs.CommandWords.{Lease, Node, Replay, Storm, Work, command_of, has_file, is_command, is_node};
ghost use Rattle.fuxi_node.specs.declared.kind.NodeKind.{NodeKind};
ghost use Rattle.fuxi_node.specs.declared.kind.NodeKind.TheVariants.{Master};
ghost use Rattle.fuxi_node.specs.NodeInputs.{HasNoCluster, InputEnded, InputEndsBy, IsDiskless, LeavesDisk, MayStart, ending_of, status_at};
ghost use Rattle.fuxi_io.specs.Doors.{WhereTold};
ghost use Rattle.fuxi_io.specs.Disks.{Told as Moments};
ghost use Rattle.spec_roles.specs.HardState.{HardState};
ghost use Rattle.epoch_lease.specs.LeaseEnds.{LeaseEnded};
ghost use Rattle.epoch_lease.specs.LeaseRuns.{run_of as lease_run_of, text_of};
ghost use Rattle.work_plan.specs.AgentWithApps.{empty_world as empty_work};
ghost use Rattle.work_plan.specs.WorkLineRuns.{Ended as WorkEnded, run_from as work_run_from, run_of as work_run_of, text_of as work_text_of};
ghost use Rattle.work_plan.specs.WorkRunStates.{AllPlanned};
ghost use Rattle.fuxi_node.specs.MasterEnds.{RefusesEpoch};
ghost use Rattle.hard_state.specs.HardFiles.{KeepsDamaged, records_of};
ghost use Rattle.spec_roles.specs.Refusals.{NotRising, HardFull};
ghost use Rattle.fuxi_io.specs.Reports.{TakesReport};
ghost use Rattle.fuxi_command.specs.CommandReports.{report_line};
ghost use Rattle.fuxi_command.specs.Outcomes.{IsOutcome, TellsLease, seen};
ghost use Rattle.fuxi_terms.specs.Limits.{most_lines, most_records};

use crate::telling::report;
use crate::words::{Command, command_of};
use epoch_lease::run_lease;
use fuxi_io::{Disk, Door, InputFault, LimitOf, LineReader, Sink, Source, Status};
use fuxi_node::{NodeKind, run_input};
use schedule_replay::run_schedule;
use std::alloc::Global;
use storm_run::run_storm;
use work_plan::run_work;

// Runs the command of the words.
fn run_command<S: Source, O: Sink, D: Disk, N: Door>(
    alloc: Global,
    words: &[String],
    input: &mut S,
    out: &mut O,
    disk: &mut D,
    door: &mut N,
) -> Status
    ensures { IsOutcome (map string_bytes words.now) result (input.new ≡ input.old) (out.new ≡ out.old) (disk.new ≡ disk.old) (door.new ≡ door.old)
        (seen (S.left input.old) (O.took out.old) (D.told disk.old) (N.told door.old) (S.faults input.old) (O.faults out.old) (D.faults disk.old) (N.faults door.old))
        (seen (S.left input.new) (O.took out.new) (D.told disk.new) (N.told door.new) (S.faults input.new) (O.faults out.new) (D.faults disk.new) (N.faults door.new)) }
{
    match command_of(words) {
        None => Status::Usage,
        Some(Command::Replay) => match LineReader::new(alloc) {
            Ok(mut lines) => run_schedule(alloc, &mut lines, input, out),
            Err(_) => Status::OutOfMemory,
        },
        Some(Command::Storm { seed, steps }) => run_storm(alloc, seed, steps, out),
        Some(Command::Node { kind, addr }) => run_input(alloc, kind, addr, input, out, disk, door),
        Some(Command::Lease) => run_lease(alloc, input, out, disk),
        Some(Command::Work) => run_work(alloc, input, out),
    }
}

/// The program: runs the command of the words (those behind the program's name) over an input, an output
/// and an error stream, a disk and a door, and answers how it ended. The error stream takes the line that tells of it; a
/// failure of that stream changes nothing else.
///
/// `replay` runs the lines of the input and writes the text of each event after it, and at the end of the
/// input the state. `storm SEED STEPS` runs a storm and writes its summary; it reads nothing. `node` runs one party of a cluster over the lines
/// of the input, and meets its peers through the door: `node master EPOCH ADDR` is called at the address and keeps its hard state on the disk,
/// `node agent MACHINE BOOT ADDR` and `node app APP BOOT UNITS ADDR` dial it. `lease` hands out epochs by the lines of the input, and keeps the
/// last one on the disk. `work` runs named workers by the lines of the input. What is said of the output holds of an input and an output that tell their bytes, and of nodes of a door that does, and
/// of a disk that does.
#[tactic(auto, using(crate::proofs::RunStatesLemmas::all_count_once, crate::proofs::RunStatesLemmas::all_take_by_quota, crate::proofs::RunStatesLemmas::all_keep_grants))]
pub fn fuxi<S: Source, O: Sink, E: Sink, D: Disk, N: Door>(
    alloc: Global,
    words: &[String],
    input: &mut S,
    out: &mut O,
    err: &mut E,
    disk: &mut D,
    door: &mut N,
) -> Status
    // The words are no command, and nothing was read or written.
    ensures usage { result ≡ Status.Usage ↔ (is_command (map string_bytes words.now) ≡ false) }
    ensures unused { result ≡ Status.Usage → (out.new ≡ out.old) × (input.new ≡ input.old) }

    // Of `replay`. Done: the input is a cluster and events, and exactly their text was written, the lines of the events and then the state.
    ensures text { command_of (map string_bytes words.now) ≡ Some Replay → result ≡ Status.Done → IfSome (S.left input.old) (λ bytes. Writes (IsText bytes) (O.took out.old) (O.took out.new)) }

    // In every state of a run, behind each of its events: each agent's table fits its machine;
    ensures capacity { IfSome (S.left input.old) (λ bytes. (i : Input) → LeadsTo bytes i → (n : ℕ) → AllFit (run i.cluster (take n i.events))) }

    // what an application holds on a machine counts once, as part of one entry of what one master sent it, and together it fits the machine;
    ensures once { IfSome (S.left input.old) (λ bytes. (i : Input) → LeadsTo bytes i → (n : ℕ) → AllCountOnce (run i.cluster (take n i.events))) }

    // a receiver that has caught up with a sender has its present ledger;
    ensures views { IfSome (S.left input.old) (λ bytes. (i : Input) → LeadsTo bytes i → (n : ℕ) → Views (run i.cluster (take n i.events)).net) }

    // where a running master and its peers have nothing left to tell one another, all have the same numbers of each unit on each machine;
    ensures agreement { IfSome (S.left input.old) (λ bytes. (i : Input) → LeadsTo bytes i → (n : ℕ) → AllAgree (run i.cluster (take n i.events))) }

    // no allowed unit waits that fits;
    ensures settled { IfSome (S.left input.old) (λ bytes. (i : Input) → LeadsTo bytes i → (n : ℕ) → AllSettled (run i.cluster (take n i.events))) }

    // over all masters and epochs what was given back is credited at most once.
    ensures credited { IfSome (S.left input.old) (λ bytes. (i : Input) → LeadsTo bytes i → AllCreditedOnce i.cluster i.events) }

    // By one event a count on a machine that its master has as reported rises only where the master serves, the job is live, the machine is neither
    // banned nor avoided, and what is wanted and the group's limit allow it;
    ensures grows { IfSome (S.left input.old) (λ bytes. (i : Input) → LeadsTo bytes i → (n : ℕ) → AllGrow (run i.cluster (take n i.events))) }

    // a banned machine has no grant, and a ban that is not refused is the master's and the hard state's;
    ensures bare { IfSome (S.left input.old) (λ bytes. (i : Input) → LeadsTo bytes i → (n : ℕ) → AllBare (run i.cluster (take n i.events))) }

    // what is preempted is of a lower priority, or of a group that keeps its quota, for one that is within its own;
    ensures by_quota { IfSome (S.left input.old) (λ bytes. (i : Input) → LeadsTo bytes i → (n : ℕ) → AllTakeByQuota (run i.cluster (take n i.events))) }

    // what a machine reports to a new master is kept, and an agent's table stays until it takes a row;
    ensures keeps { IfSome (S.left input.old) (λ bytes. (i : Input) → LeadsTo bytes i → (n : ℕ) → AllKeepGrants (run i.cluster (take n i.events))) }

    // who starts has nothing;
    ensures starts { IfSome (S.left input.old) (λ bytes. (i : Input) → LeadsTo bytes i → (n : ℕ) → StartsWithNothing (run i.cluster (take n i.events))) }

    // grants are lost only by a ban, the end of their job, a preemption, and by what their job gives back;
    ensures loses { IfSome (S.left input.old) (λ bytes. (i : Input) → LeadsTo bytes i → (n : ℕ) → AllLose (run i.cluster (take n i.events))) }

    // a judgement bans exactly the machines that enough jobs mark, as far as its percentage allows;
    ensures judges { IfSome (S.left input.old) (λ bytes. (i : Input) → LeadsTo bytes i → (n : ℕ) → AllJudge (run i.cluster (take n i.events))) }

    // and where the master of the fence and all agents run, seven calm rounds and a last turn of that master bring the world to rest.
    ensures calms { IfSome (S.left input.old) (λ bytes. (i : Input) → LeadsTo bytes i → (n : ℕ) → CalmBringsQuiet i.cluster (take n i.events)) }

    // The input was read to its end, and the outputs of all its lines and the state were written.
    ensures done { command_of (map string_bytes words.now) ≡ Some Replay → result ≡ Status.Done → IfSome (S.left input.old) (λ bytes. (S.left input.new ≡ Some [])
        × ((run_of bytes).ending ≡ AtEnd) × Appends (O.took out.old) (O.took out.new) (concat (pieces (run_of bytes)))) }

    // This line is the first bad one, with this fault, and the outputs of the events before it were written.
    ensures bad { command_of (map string_bytes words.now) ≡ Some Replay → (line : ℕ) (fault : InputFault) → result ≡ Status.BadInput line fault → IfSome (S.left input.old) (λ bytes.
        ((run_of bytes).ending ≡ AtBadLine line fault) × Appends (O.took out.old) (O.took out.new) (concat (run_of bytes).outputs)) }
    ensures bad_text { command_of (map string_bytes words.now) ≡ Some Replay → (line : ℕ) (fault : InputFault) → result ≡ Status.BadInput line fault
        → IfSome (S.left input.old) (λ bytes. Writes (IsTextBefore bytes line fault) (O.took out.old) (O.took out.new)) }

    // A line begins after 1,000,000, or the event of the next line would pass a limit on packets, and the outputs of all lines before it were written.
    ensures limit { (kept : ℕ) → result ≡ Status.Limit LimitOf.Lines kept → kept ≡ most_lines }
    ensures limited { command_of (map string_bytes words.now) ≡ Some Replay → (what : LimitOf) (kept : ℕ) → result ≡ Status.Limit what kept → IfSome (S.left input.old) (λ bytes.
        ((run_of bytes).ending ≡ AtLimit what kept) × Appends (O.took out.old) (O.took out.new) (concat (run_of bytes).outputs)) }
    ensures limited_text { command_of (map string_bytes words.now) ≡ Some Replay → (what : LimitOf) (kept : ℕ) → result ≡ Status.Limit what kept
        → IfSome (S.left input.old) (λ bytes. Writes (IsFrontText bytes) (O.took out.old) (O.took out.new)) }

    // The input failed in this call, and the outputs of all whole lines that it gave before were written.
    ensures read { result ≡ Status.ReadFault → Rose (S.faults input.old) (S.faults input.new) }
    ensures read_so_far { command_of (map string_bytes words.now) ≡ Some Replay → result ≡ Status.ReadFault → IfSome (S.left input.old) (λ bytes. ReadsWhole (read_from 0) bytes (S.left input.new) (O.took out.old) (O.took out.new)) }

    // The output failed in this call: all outputs but the last of the lines taken are out whole, and of that a part.
    ensures write { result ≡ Status.WriteFault → Rose (O.faults out.old) (O.faults out.new) }
    ensures written_so_far { command_of (map string_bytes words.now) ≡ Some Replay → result ≡ Status.WriteFault → IfSome (S.left input.old) (λ bytes. StopsWithin (read_from 0) bytes (S.left input.new) (O.took out.old) (O.took out.new)) }

    // The same where memory was refused, which has no other cause.
    ensures memory { command_of (map string_bytes words.now) ≡ Some Replay → result ≡ Status.OutOfMemory → IfSome (S.left input.old) (λ bytes. StopsWithin (read_from 0) bytes (S.left input.new) (O.took out.old) (O.took out.new)) }

    // A call of the input, the output or the disk that failed is told as that: with every other status the count of its faults is as it was.
    ensures faults { (result ≢ Status.ReadFault → S.faults input.new ≡ S.faults input.old) × (result ≢ Status.WriteFault → O.faults out.new ≡ O.faults out.old) × (result ≢ Status.DiskFault → D.faults disk.new ≡ D.faults disk.old) }

    // All of this by the status, for callers.
    ensures ended { command_of (map string_bytes words.now) ≡ Some Replay → IfSome (S.left input.old) (λ bytes. Ended (read_from 0) bytes result (S.left input.new) (O.took out.old) (O.took out.new)) }

    // The error stream took the line of the status, or, where it failed in this call, a part of it.
    ensures report { TakesReport (report_line result) (E.took err.old) (E.took err.new) (E.faults err.old) (E.faults err.new) }

    // A replay of an input without a bad line, within the limits, with no fault of input or output, is done, but for want of memory.
    ensures complete { command_of (map string_bytes words.now) ≡ Some Replay → (bytes : List ℕ) → S.left input.old ≡ Some bytes → (run_of bytes).ending ≡ AtEnd
        → (Rose (S.faults input.old) (S.faults input.new) → ⊥) → (Rose (O.faults out.old) (O.faults out.new) → ⊥) → (result ≡ Status.Done) ⊎ (result ≡ Status.OutOfMemory) }

    // Of `storm`. The input is not read. Done: exactly the text of the storm was written;
    ensures storm_unused { (seed steps : ℕ) → command_of (map string_bytes words.now) ≡ Some (Storm seed steps) → input.new ≡ input.old }
    ensures storm_text { (seed steps : ℕ) → command_of (map string_bytes words.now) ≡ Some (Storm seed steps) → result ≡ Status.Done
        → Writes (IsStorm seed steps) (O.took out.old) (O.took out.new) }

    // its last line is `quiet yes`, whatever the seed;
    ensures storm_quiet { (seed steps : ℕ) → command_of (map string_bytes words.now) ≡ Some (Storm seed steps) → result ≡ Status.Done → Writes EndsQuiet (O.took out.old) (O.took out.new) }

    // where the output failed a part of it from its front, and where memory was refused nothing;
    ensures storm_so_far { (seed steps : ℕ) → command_of (map string_bytes words.now) ≡ Some (Storm seed steps) → result ≡ Status.WriteFault
        → WritesPart (IsStorm seed steps) (O.took out.old) (O.took out.new) }
    ensures storm_memory { (seed steps : ℕ) → command_of (map string_bytes words.now) ≡ Some (Storm seed steps) → result ≡ Status.OutOfMemory
        → O.took out.new ≡ O.took out.old }

    // and with a limit, which is the first that one of its events would pass, nothing.
    ensures storm_limited { (seed steps : ℕ) → command_of (map string_bytes words.now) ≡ Some (Storm seed steps) → (what : LimitOf) (kept : ℕ) → result ≡ Status.Limit what kept
        → IsLimit (storm_of seed steps) what kept × (O.took out.new ≡ O.took out.old) }

    // A storm that passes no limit, with no fault of the output, is done, but for want of memory.
    ensures storm_complete { (seed steps : ℕ) → command_of (map string_bytes words.now) ≡ Some (Storm seed steps) → (text : List ℕ) → IsStorm seed steps text
        → (Rose (O.faults out.old) (O.faults out.new) → ⊥) → (result ≡ Status.Done) ⊎ (result ≡ Status.OutOfMemory) }

    // Of `node`. What it did and wrote, and what a crash leaves of a master's file at its end, by the status: before the line of its cluster, at it, or behind it;
    ensures node { (kind : NodeKind) (addr : List ℕ) → command_of (map string_bytes words.now) ≡ Some (Node kind addr) → IfSome (S.left input.old) (λ bytes.
        WhereTold (InputEnded kind addr (D.told disk.old) (D.told disk.new) bytes result (S.left input.new) (O.took out.old) (O.took out.new) (N.faults door.old) (N.faults door.new)) (N.told door.old) (N.told door.new)) }

    // only a node meets anybody at the door, and only a master and a lease have a file.
    ensures no_door { is_node (command_of (map string_bytes words.now)) ≡ false → door.new ≡ door.old }
    ensures no_file { has_file (command_of (map string_bytes words.now)) ≡ false → disk.new ≡ disk.old }
    ensures diskless { has_file (command_of (map string_bytes words.now)) ≡ false → IsDiskless result }

    // The disk failed in this call, of a master or a lease.
    ensures disk { result ≡ Status.DiskFault → Rose (D.faults disk.old) (D.faults disk.new) }

    // A file with a damaged record is synced at most, whatever the status.
    ensures damaged_stays { KeepsDamaged (D.told disk.old) (D.told disk.new) }

    // Of a master: the fence in its file is at least the epoch, what stands at this offset of the file is no record, or it has 65,536 records.
    ensures stale { (epoch : ℕ) (addr : List ℕ) → command_of (map string_bytes words.now) ≡ Some (Node (Master epoch) addr) → (fence : ℕ) → result ≡ Status.StaleEpoch fence → IfSome (D.told disk.old) (RefusesEpoch epoch (NotRising fence)) }
    ensures damaged { (epoch : ℕ) (addr : List ℕ) → command_of (map string_bytes words.now) ≡ Some (Node (Master epoch) addr) → (offset : ℕ) → result ≡ Status.DamagedCheckpoint offset → IfSome (D.told disk.old) (λ t. records_of t.now.bytes ≡ Err offset) }
    ensures full { (epoch : ℕ) (addr : List ℕ) → command_of (map string_bytes words.now) ≡ Some (Node (Master epoch) addr) → (kept : ℕ) → result ≡ Status.Limit LimitOf.Records kept → (kept ≡ most_records) × IfSome (D.told disk.old) (RefusesEpoch epoch (HardFull most_records)) }

    // A master that did not get to its lines leaves a file with a damaged record as it was, and one that refuses its epoch for the same; one whose input describes no cluster has not opened it.
    ensures node_stays { (kind : NodeKind) (addr : List ℕ) → command_of (map string_bytes words.now) ≡ Some (Node kind addr) → LeavesDisk kind result (D.told disk.old) (D.told disk.new) }
    ensures node_unopened { (kind : NodeKind) (addr : List ℕ) → command_of (map string_bytes words.now) ≡ Some (Node kind addr) → (bytes : List ℕ) → S.left input.old ≡ Some bytes → HasNoCluster bytes → disk.new ≡ disk.old }

    // Of `lease`. What was read and written, and what a crash leaves of its file at its end, by the status;
    ensures lease { command_of (map string_bytes words.now) ≡ Some Lease → IfSome (S.left input.old) (λ bytes. LeaseEnded bytes result (S.left input.new) (O.took out.old) (O.took out.new) (D.told disk.old) (D.told disk.new)) }

    // done: the answers to all lines and the last epoch were written, from the fence and the records of the file;
    ensures lease_text { command_of (map string_bytes words.now) ≡ Some Lease → result ≡ Status.Done → (bytes : List ℕ) (t : Moments) (value : HardState) → S.left input.old ≡ Some bytes → D.told disk.old ≡ Some t
        → records_of t.now.bytes ≡ Ok value → Appends (O.took out.old) (O.took out.new) (text_of value bytes) }

    // what stands at this offset of the file is no record; no other status tells of the file, and the limit is that on lines.
    ensures lease_told { command_of (map string_bytes words.now) ≡ Some Lease → TellsLease result (D.told disk.old) }

    // A lease over lines that are all good, with a file without a damaged record, and with no fault of input, output and disk, is done, but for want of memory.
    ensures lease_complete { command_of (map string_bytes words.now) ≡ Some Lease → (bytes : List ℕ) (t : Moments) (value : HardState) → S.left input.old ≡ Some bytes → D.told disk.old ≡ Some t → records_of t.now.bytes ≡ Ok value
        → (lease_run_of value bytes).ending ≡ AtEnd → (Rose (S.faults input.old) (S.faults input.new) → ⊥) → (Rose (O.faults out.old) (O.faults out.new) → ⊥) → (Rose (D.faults disk.old) (D.faults disk.new) → ⊥)
        → (result ≡ Status.Done) ⊎ (result ≡ Status.OutOfMemory) }

    // Of `work`. What was read and written, by the status;
    ensures work { command_of (map string_bytes words.now) ≡ Some Work → IfSome (S.left input.old) (λ bytes. WorkEnded (work_run_from 0 empty_work) bytes result (S.left input.new) (O.took out.old) (O.took out.new)) }

    // done: the lines of the events and the state were written.
    ensures work_plan { command_of (map string_bytes words.now) ≡ Some Work → result ≡ Status.Done → IfSome (S.left input.old) (λ bytes. Appends (O.took out.old) (O.took out.new) (work_text_of bytes)) }

    // In every state of its run in which an agent runs, just the workers run that the plans in force and the counts allow.
    ensures work_planned { command_of (map string_bytes words.now) ≡ Some Work → IfSome (S.left input.old) (λ bytes. AllPlanned bytes) }

    // Named workers over lines that are all good, within the limits, with no fault of input and output, are done, but for want of memory.
    ensures work_complete { command_of (map string_bytes words.now) ≡ Some Work → (bytes : List ℕ) → S.left input.old ≡ Some bytes → (work_run_of bytes).ending ≡ AtEnd
        → (Rose (S.faults input.old) (S.faults input.new) → ⊥) → (Rose (O.faults out.old) (O.faults out.new) → ⊥) → (result ≡ Status.Done) ⊎ (result ≡ Status.OutOfMemory) }

    // All of this as one relation, for who calls the command.
    ensures outcome { IsOutcome (map string_bytes words.now) result (input.new ≡ input.old) (out.new ≡ out.old) (disk.new ≡ disk.old) (door.new ≡ door.old)
        (seen (S.left input.old) (O.took out.old) (D.told disk.old) (N.told door.old) (S.faults input.old) (O.faults out.old) (D.faults disk.old) (N.faults door.old))
        (seen (S.left input.new) (O.took out.new) (D.told disk.new) (N.told door.new) (S.faults input.new) (O.faults out.new) (D.faults disk.new) (N.faults door.new)) }

    // Where the lines of a node end, by the status. With a file that lets its epoch in, and with no fault of input, output and disk, it ends as they say, but for want of memory. It
    // is said over any door.
    ensures node_places { (kind : NodeKind) (addr : List ℕ) → command_of (map string_bytes words.now) ≡ Some (Node kind addr) → IfSome (S.left input.old) (λ bytes. InputEndsBy kind bytes result (S.left input.new)) }
    ensures node_complete { (kind : NodeKind) (addr : List ℕ) → command_of (map string_bytes words.now) ≡ Some (Node kind addr) → (bytes : List ℕ) → S.left input.old ≡ Some bytes → MayStart kind (D.told disk.old)
        → (Rose (S.faults input.old) (S.faults input.new) → ⊥) → (Rose (O.faults out.old) (O.faults out.new) → ⊥) → (Rose (D.faults disk.old) (D.faults disk.new) → ⊥)
        → (result ≡ status_at (ending_of kind bytes)) ⊎ (result ≡ Status.OutOfMemory) }
{
    // The laws of the states of a run, for the clauses on them.
    spec_world::law::always_safe();
    spec_world::law::give_backs_are_credited_once();
    spec_world::law::every_run_grows_as_allowed();
    spec_world::law::every_run_keeps_banned_machines_bare();
    spec_roles::law::preempts_by_quota();
    spec_world::law::a_failover_keeps_grants();
    spec_world::law::starts_with_nothing();
    spec_world::law::every_run_loses_only_what_is_credited();
    schedule_replay::law::inputs_are_given();
    work_plan::law::runs_go_as_planned();
    spec_world::law::every_judgement_bans_what_is_judged();
    spec_progress::law::calm_rounds_bring_quiet();
    storm_run::law::storms_end_quiet();
    // The law of what a run tells, for the clauses on texts.
    schedule_replay::law::runs_are_told();
    let status = run_command(alloc, words, input, out, disk, door);
    let _told = report(err, &status);
    status
}
