//! One line of a node.

ghost use Rattle.std.specs.Prelude.{◌≡◌, ◌+◌, ◌<◌, ◌≤◌, ◌≢◌, ℕ, length, Option, None, Ok, Err, IfOk, IfErr, OnErr, cond};
ghost use Rattle.fuxi_io.specs.Causes.{Rose};
ghost use Rattle.fuxi_io.specs.Disks.{Told as Moments};
ghost use Rattle.fuxi_terms.specs.Limits.{most_frames, most_steps};
ghost use Rattle.schedule_text.specs.Writing.{IsLineEvent};
ghost use Rattle.fuxi_io.specs.Doors.{WhereTold};
ghost use Rattle.node_core.specs.Roles.{Role, Keeps};
ghost use Rattle.node_core.specs.Rounds.{Rounds, Breaks};
ghost use Rattle.node_core.specs.declared.line.NodeLine.TheVariants.{Round, Serve, Show, Event as EventLine};
ghost use Rattle.node_core.specs.PartyEvents.{accepts};
ghost use Rattle.node_core.specs.NodeLines.{node_line};
ghost use Rattle.node_core.specs.NodeTexts.{answer_text, as_answer, state_text};
ghost use Rattle.fuxi_node.specs.NodeRuns.{Node as WrittenNode};
ghost use Rattle.fuxi_node.specs.NodeEnds.{FitsNow, FitsOneNow};
ghost use Rattle.fuxi_node.specs.NodeProgress.{WritesText, TakesQuietly, TakesLine, KeepsTold, IsLineStop, IsNone, IsSaid, IsWriteStop};

use fuxi_io::{Disk, Door, InputFault, Sink, Status, write_all_of};
use fuxi_terms::OutOfMemory;
use input_lines::event_status;
use node_core::{
    Answer, Node, NodeLine, RoundLine, law, push_answer, push_state, read_line, round, serve,
    write_round,
};
use party_commands::CommandError;
use schedule_text::Event;
use std::alloc::Global;

/// The disk of a node failed.
#[derive(Clone, Copy, Debug, Drop, PartialEq, Eq)]
pub struct DiskFailed;

// Why a node ends at a line.
#[derive(Clone, Copy)]
pub enum Stop {
    // With a status.
    Ends(Status),
    // Since its disk failed.
    Disk,
}

// Writes the line of an answer, where it has one.
fn write_answer<O: Sink>(alloc: Global, answer: &Answer, out: &mut O) -> Result<(), Status>
    ensures writes { WritesText (answer_text (as_answer answer.now)) result (O.took out.old) (O.took out.new) }
    ensures later { O.faults out.old ≤ O.faults out.new }
    ensures fault { result ≡ Err Status.WriteFault → Rose (O.faults out.old) (O.faults out.new) }
    ensures writes_served { result ≢ Err Status.WriteFault → O.faults out.new ≡ O.faults out.old }
    ensures ends { IfErr result IsWriteStop }
{
    let mut text = Vec::new(alloc);
    match push_answer(answer, &mut text) {
        Ok(()) => {}
        Err(OutOfMemory) => return Err(Status::OutOfMemory),
    }
    match write_all_of(out, &text) {
        Ok(()) => Ok(()),
        Err(_) => Err(Status::WriteFault),
    }
}

// Writes the state of a node that took so many events.
pub(crate) fn write_state<C: Node, O: Sink>(
    alloc: Global,
    core: &C,
    events: u64,
    out: &mut O,
) -> Result<(), Status>
    ensures writes { (r : Role) → C.stands core.now r → WritesText (state_text events r) result (O.took out.old) (O.took out.new) }
    ensures later { O.faults out.old ≤ O.faults out.new }
    ensures fault { result ≡ Err Status.WriteFault → Rose (O.faults out.old) (O.faults out.new) }
    ensures writes_served { result ≢ Err Status.WriteFault → O.faults out.new ≡ O.faults out.old }
    ensures ends { IfErr result IsWriteStop }
{
    let mut text = Vec::new(alloc);
    match push_state(events, core, &mut text) {
        Ok(()) => {}
        Err(OutOfMemory) => return Err(Status::OutOfMemory),
    }
    match write_all_of(out, &text) {
        Ok(()) => Ok(()),
        Err(_) => Err(Status::WriteFault),
    }
}

// Takes an event.
fn take_event<C: Node, O: Sink, D: Disk>(
    alloc: Global,
    core: C,
    event: &Event,
    out: &mut O,
    disk: &mut D,
) -> Result<C, Stop>
    requires line { IsLineEvent event.now }
    requires steps { C.steps core < most_steps }
    requires rests { C.rests core (D.size disk.old) None }
    ensures takes { (n : WrittenNode) → C.stands core n.role → TakesQuietly C.stands (FitsNow C.rests C.fits core (D.size disk.old) (D.told disk.old) (D.told disk.new)) (FitsOneNow C.rests C.fits C.halts core (D.size disk.old) (D.told disk.old) (D.told disk.new)) n (Ok (EventLine event.now)) result (O.took out.old) (O.took out.new) }
    ensures steps { IfOk result (λ after. C.steps after ≤ C.steps core + 1) }
    ensures later { O.faults out.old ≤ O.faults out.new }
    ensures fault { result ≡ Err (Stop.Ends Status.WriteFault) → Rose (O.faults out.old) (O.faults out.new) }
    ensures writes_served { result ≢ Err (Stop.Ends Status.WriteFault) → O.faults out.new ≡ O.faults out.old }
    ensures ends { IfErr result IsLineStop }
    ensures unsaid { (at : ℕ) (fault : InputFault) → result ≢ Err (Stop.Ends (Status.BadInput at fault)) }
    ensures rests { IfOk result (λ after. C.rests after (D.size disk.new) None) }
    ensures told { IfOk result (λ after. KeepsTold C.rests core (D.size disk.old) after (D.size disk.new) (D.told disk.old) (D.told disk.new)) }
    ensures disk { D.faults disk.old ≤ D.faults disk.new }
    ensures failed { result ≡ Err Stop.Disk → Rose (D.faults disk.old) (D.faults disk.new) }
    ensures disk_served { result ≢ Err Stop.Disk → D.faults disk.new ≡ D.faults disk.old }
{
    let (core, answer) = match core.command(alloc, event, disk) {
        Ok(both) => both,
        Err(CommandError::Disk) => return Err(Stop::Disk),
        Err(CommandError::Memory) => return Err(Stop::Ends(Status::OutOfMemory)),
    };
    match write_answer(alloc, &answer, out) {
        Ok(()) => Ok(core),
        Err(status) => Err(Stop::Ends(status)),
    }
}

// Prints the state, in which this line counts.
fn take_show<C: Node, O: Sink>(alloc: Global, core: C, events: u64, out: &mut O) -> Result<C, Stop>
    requires { events < 2000000 }
    ensures takes { (n : WrittenNode) (size : ℕ) (t : Option Moments) → C.stands core n.role → n.events ≡ events → TakesQuietly C.stands (FitsNow C.rests C.fits core size t t) (FitsOneNow C.rests C.fits C.halts core size t t) n (Ok Show) result (O.took out.old) (O.took out.new) }
    ensures steps { IfOk result (λ after. C.steps after ≡ C.steps core) }
    ensures later { O.faults out.old ≤ O.faults out.new }
    ensures fault { result ≡ Err (Stop.Ends Status.WriteFault) → Rose (O.faults out.old) (O.faults out.new) }
    ensures writes_served { result ≢ Err (Stop.Ends Status.WriteFault) → O.faults out.new ≡ O.faults out.old }
    ensures ends { IfErr result IsLineStop }
    ensures unsaid { (at : ℕ) (fault : InputFault) → result ≢ Err (Stop.Ends (Status.BadInput at fault)) }
    ensures rests { IfOk result (λ after. Keeps (C.rests core) (C.rests after)) }
    ensures disk { result ≢ Err Stop.Disk }
{
    match write_state(alloc, &core, events + 1, out) {
        Ok(()) => Ok(core),
        Err(status) => Err(Stop::Ends(status)),
    }
}

// Goes through a round: one that is called, or else one that dials.
fn meet<C: Node, N: Door>(
    alloc: Global,
    core: C,
    addr: &[u8],
    door: &mut N,
) -> Result<(C, RoundLine), OutOfMemory>
    requires some { 1 ≤ length addr.now }
    requires short { length addr.now ≤ 255 }
    requires steps { C.steps core + most_frames < most_steps }
    ensures rounds { IfOk result (λ a. (r : Role) → C.stands core r → WhereTold (Rounds (accepts r) most_frames addr.now (C.stands a.0) r a.1) (N.told door.old) (N.told door.new)) }
    ensures breaks { OnErr result ((r : Role) → C.stands core r → WhereTold (Breaks (accepts r) addr.now r) (N.told door.old) (N.told door.new)) }
    ensures later { N.faults door.old ≤ N.faults door.new }
    ensures cause { IfOk result (λ a. a.1 ≡ RoundLine.Fault → Rose (N.faults door.old) (N.faults door.new)) }
    ensures steps { IfOk result (λ a. C.steps a.0 ≤ C.steps core + most_frames + 1) }
    ensures rests { IfOk result (λ a. Keeps (C.rests core) (C.rests a.0)) }
{
    if core.accepts() {
        return serve(alloc, core, addr, door);
    }
    round(alloc, core, addr, door)
}

// Goes through a round, and writes its line.
fn take_round<C: Node, O: Sink, N: Door>(
    alloc: Global,
    core: C,
    addr: &[u8],
    out: &mut O,
    door: &mut N,
) -> Result<C, Stop>
    requires some { 1 ≤ length addr.now }
    requires short { length addr.now ≤ 255 }
    requires steps { C.steps core + most_frames < most_steps }
    ensures takes { (n : WrittenNode) (number size : ℕ) (t : Option Moments) → C.stands core n.role → WhereTold (TakesLine C.stands (FitsNow C.rests C.fits core size t t) (FitsOneNow C.rests C.fits C.halts core size t t) most_frames addr.now n (Ok (cond (accepts n.role) Serve Round)) number result (O.took out.old) (O.took out.new) (N.faults door.old) (N.faults door.new)) (N.told door.old) (N.told door.new) }
    ensures steps { IfOk result (λ after. C.steps after ≤ C.steps core + most_frames + 1) }
    ensures later { O.faults out.old ≤ O.faults out.new }
    ensures fault { result ≡ Err (Stop.Ends Status.WriteFault) → Rose (O.faults out.old) (O.faults out.new) }
    ensures writes_served { result ≢ Err (Stop.Ends Status.WriteFault) → O.faults out.new ≡ O.faults out.old }
    ensures ends { IfErr result IsLineStop }
    ensures unsaid { (at : ℕ) (fault : InputFault) → result ≢ Err (Stop.Ends (Status.BadInput at fault)) }
    ensures rests { IfOk result (λ after. Keeps (C.rests core) (C.rests after)) }
    ensures disk { result ≢ Err Stop.Disk }
{
    let (core, line) = match meet(alloc, core, addr, door) {
        Ok(both) => both,
        Err(OutOfMemory) => return Err(Stop::Ends(Status::OutOfMemory)),
    };
    match write_round(out, &line) {
        Ok(()) => Ok(core),
        Err(_) => Err(Stop::Ends(Status::WriteFault)),
    }
}

// Takes the line of a round, which is one of a node that is called or of one that is not.
fn take_meeting<C: Node, O: Sink, N: Door>(
    alloc: Global,
    core: C,
    addr: &[u8],
    serves: bool,
    out: &mut O,
    door: &mut N,
) -> Result<C, Stop>
    requires some { 1 ≤ length addr.now }
    requires short { length addr.now ≤ 255 }
    requires steps { C.steps core + most_frames < most_steps }
    ensures takes { (n : WrittenNode) (number size : ℕ) (t : Option Moments) → C.stands core n.role → WhereTold (TakesLine C.stands (FitsNow C.rests C.fits core size t t) (FitsOneNow C.rests C.fits C.halts core size t t) most_frames addr.now n (Ok (cond serves Serve Round)) number result (O.took out.old) (O.took out.new) (N.faults door.old) (N.faults door.new)) (N.told door.old) (N.told door.new) }
    ensures steps { IfOk result (λ after. C.steps after ≤ C.steps core + most_frames + 1) }
    ensures later { O.faults out.old ≤ O.faults out.new }
    ensures fault { result ≡ Err (Stop.Ends Status.WriteFault) → Rose (O.faults out.old) (O.faults out.new) }
    ensures writes_served { result ≢ Err (Stop.Ends Status.WriteFault) → O.faults out.new ≡ O.faults out.old }
    ensures ends { IfErr result IsLineStop }
    ensures unsaid { (at : ℕ) (fault : InputFault) → result ≢ Err (Stop.Ends (Status.BadInput at fault)) }
    ensures rests { IfOk result (λ after. Keeps (C.rests core) (C.rests after)) }
    ensures disk { result ≢ Err Stop.Disk }
{
    if core.accepts() == serves {
        return take_round(alloc, core, addr, out, door);
    }
    match write_answer(alloc, &Answer::NotHere, out) {
        Ok(()) => Ok(core),
        Err(status) => Err(Stop::Ends(status)),
    }
}

// Takes a line that is not skipped, of a node that took so many events.
pub(crate) fn take_line<C: Node, O: Sink, N: Door, D: Disk>(
    alloc: Global,
    core: C,
    addr: &[u8],
    line: &[u8],
    number: u64,
    events: u64,
    out: &mut O,
    door: &mut N,
    disk: &mut D,
) -> Result<C, Stop>
    requires some { 1 ≤ length addr.now }
    requires short { length addr.now ≤ 255 }
    requires events { events < 2000000 }
    requires steps { C.steps core + most_frames < most_steps }
    requires rests { C.rests core (D.size disk.old) None }
    ensures takes { (n : WrittenNode) → C.stands core n.role → n.events ≡ events → WhereTold (TakesLine C.stands (FitsNow C.rests C.fits core (D.size disk.old) (D.told disk.old) (D.told disk.new)) (FitsOneNow C.rests C.fits C.halts core (D.size disk.old) (D.told disk.old) (D.told disk.new)) most_frames addr.now n (node_line line.now) number result (O.took out.old) (O.took out.new) (N.faults door.old) (N.faults door.new)) (N.told door.old) (N.told door.new) }
    ensures steps { IfOk result (λ after. C.steps after ≤ C.steps core + most_frames + 1) }
    ensures later { O.faults out.old ≤ O.faults out.new }
    ensures fault { result ≡ Err (Stop.Ends Status.WriteFault) → Rose (O.faults out.old) (O.faults out.new) }
    ensures writes_served { result ≢ Err (Stop.Ends Status.WriteFault) → O.faults out.new ≡ O.faults out.old }
    ensures ends { IfErr result IsLineStop }
    // Whether it is the line of a node, whatever the door tells.
    ensures good { IfOk result (λ after. IsSaid (node_line line.now)) }
    ensures bad { (at : ℕ) (fault : InputFault) → result ≡ Err (Stop.Ends (Status.BadInput at fault)) → (at ≡ number) × IsNone (node_line line.now) fault }
    ensures rests { IfOk result (λ after. C.rests after (D.size disk.new) None) }
    ensures told { IfOk result (λ after. KeepsTold C.rests core (D.size disk.old) after (D.size disk.new) (D.told disk.old) (D.told disk.new)) }
    ensures disk { D.faults disk.old ≤ D.faults disk.new }
    ensures failed { result ≡ Err Stop.Disk → Rose (D.faults disk.old) (D.faults disk.new) }
    ensures disk_served { result ≢ Err Stop.Disk → D.faults disk.new ≡ D.faults disk.old }
{
    law::events_command_anywhere();
    match read_line(alloc, line) {
        Ok(NodeLine::Round) => take_meeting(alloc, core, addr, false, out, door),
        Ok(NodeLine::Serve) => take_meeting(alloc, core, addr, true, out, door),
        Ok(NodeLine::Show) => take_show(alloc, core, events, out),
        Ok(NodeLine::Event(event)) => take_event(alloc, core, &event, out, disk),
        Err(fault) => Err(Stop::Ends(event_status(fault, number))),
    }
}
