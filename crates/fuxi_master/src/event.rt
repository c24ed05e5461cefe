//! What a master is told, and what it answers.

use party_ledgers::{Heard, Packet, Packets};
use schedule_unit::{AppNo, Job, MachineNo, Party};

/// One thing that a master is told.
#[derive(Drop)]
pub enum MasterEvent {
    /// A packet came, which is formed and no End.
    Packet(Packet),
    /// A job was written to the hard state. It is not known yet.
    Admit(Job),
    /// The job, which is known, has ended.
    Finish(AppNo),
    /// The machine, at most 255, takes no grants any more.
    Ban(MachineNo),
    /// The machine, at most 255, takes grants again.
    Unban(MachineNo),
    /// It serves from now on, though machines are not reported.
    Begin,
    /// It makes room for a unit that waits.
    Preempt,
    /// What its next turn sends is asked for.
    Turn,
    /// The same for one peer.
    TurnTo(Party),
    /// What its peers have acknowledged is forgotten.
    Resync,
}

/// What a master answers.
#[derive(Drop)]
pub enum Outcome {
    /// It did what it was told.
    Done,
    /// It refused, and is as it was.
    Refused(MasterRefusal),
    /// What the turn sends.
    Sent(Packets),
    /// As what the packet was heard.
    Heard(Heard),
}

/// Why a master refuses.
#[derive(Clone, Copy, Debug, Drop, PartialEq, Eq)]
pub enum MasterRefusal {
    /// It serves already.
    AlreadyServing,
    /// It does not serve yet.
    NotServing,
    /// No unit that waits has victims.
    NothingToPreempt,
}
