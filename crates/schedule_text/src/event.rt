//! The events of a schedule.

use fuxi_terms::OutOfMemory;
use schedule_unit::{AppNo, Asks, GroupNo, MachineNo, RackNo, UnitNo};
use thiserror::Error;

/// One event line, with its numbers in the line's order. An epoch and a boot is at least 1.
pub enum Event {
    /// A master of this epoch starts.
    Master(u64),
    /// The master of this epoch stops.
    Stop(u64),
    /// An agent of this boot starts on the machine.
    Agent(MachineNo, u64),
    /// An application of this boot starts for the job.
    App(AppNo, u64),
    /// The master of this epoch is handed a job of this number and group, with these units.
    Submit(u64, AppNo, GroupNo, Asks),
    /// The master of this epoch ends the job.
    Finish(u64, AppNo),
    /// The master of this epoch bans the machine.
    Ban(u64, MachineNo),
    /// The master of this epoch lifts the ban of the machine.
    Unban(u64, MachineNo),
    /// The master of this epoch serves, though machines are not reported.
    Begin(u64),
    /// The master of this epoch takes grants for the first unit that has victims.
    Preempt(u64),
    /// The master of this epoch bans each machine with at least so many votes, 1 to 256, by more votes and then by its
    /// number, as long as no more than so many percent of all machines, 0 to 100, are banned.
    Judge(u64, u32, u32),
    /// The application wants so many grants of the unit in all.
    Want(AppNo, UnitNo, u64),
    /// The application wants so many grants of the unit on the machine.
    Near(AppNo, UnitNo, MachineNo, u64),
    /// The application wants so many grants of the unit in the rack.
    Rack(AppNo, UnitNo, RackNo, u64),
    /// The application refuses the machine for new grants of the unit, or does so no longer.
    Avoid(AppNo, UnitNo, MachineNo, bool),
    /// The application gives back so many grants of the unit on the machine.
    Back(AppNo, UnitNo, MachineNo, u64),
    /// The master of this epoch sends to each of its peers.
    TurnMaster(u64),
    /// The agent of the machine sends to its master.
    TurnAgent(MachineNo),
    /// The application of the job sends to its master.
    TurnApp(AppNo),
    /// The master of this epoch forgets what its peers acknowledged.
    ResyncMaster(u64),
    /// The agent of the machine forgets what its master acknowledged.
    ResyncAgent(MachineNo),
    /// The application of the job forgets what its master acknowledged.
    ResyncApp(AppNo),
    /// The packet of this number, from 1, is delivered.
    Deliver(u64),
    /// The packets from the first number to the second are delivered, in their order.
    DeliverRange(u64, u64),
    /// The packet of this number, from 1, is printed.
    Dump(u64),
    /// The state is printed.
    Show,
    /// The master that the event within names stops behind so many calls, 1 to 4, of its writing, and what is not synced
    /// then stands or does not. The event within is a start of a master, a submission, the end of a job, a ban or the
    /// end of a ban.
    Halt(u8, bool, Box<Event>),
}

// Written out, so that who lets one go checks this call and not all of its parts.
impl Drop for Event {
    fn drop(self) {
        match self {
            Event::Master(_) => {}
            Event::Stop(_) => {}
            Event::Agent(_, _) => {}
            Event::App(_, _) => {}
            Event::Submit(_, _, _, _) => {}
            Event::Finish(_, _) => {}
            Event::Ban(_, _) => {}
            Event::Unban(_, _) => {}
            Event::Begin(_) => {}
            Event::Preempt(_) => {}
            Event::Judge(_, _, _) => {}
            Event::Want(_, _, _) => {}
            Event::Near(_, _, _, _) => {}
            Event::Rack(_, _, _, _) => {}
            Event::Avoid(_, _, _, _) => {}
            Event::Back(_, _, _, _) => {}
            Event::TurnMaster(_) => {}
            Event::TurnAgent(_) => {}
            Event::TurnApp(_) => {}
            Event::ResyncMaster(_) => {}
            Event::ResyncAgent(_) => {}
            Event::ResyncApp(_) => {}
            Event::Deliver(_) => {}
            Event::DeliverRange(_, _) => {}
            Event::Dump(_) => {}
            Event::Show => {}
            Event::Halt(_, _, _) => {}
        }
    }
}

/// Why a line is no event: the first test that fails decides. Places count the words of the line from 0.
#[derive(Clone, Copy, Debug, Drop, Error, PartialEq, Eq)]
pub enum LineFault {
    /// The first word is none of an event, or the second where the first wants one.
    #[error("no event begins with this word")]
    UnknownWord,
    /// The line has too many words or too few.
    #[error("the event has another number of words")]
    WrongCount,
    /// The word at this place is no number.
    #[error("the word at place {0} is no number")]
    BadNumber(u64),
    /// The number at this place is out of its range.
    #[error("the number at place {0} is out of range")]
    Range(u64),
    /// Memory was refused.
    #[error("out of memory")]
    OutOfMemory,
}

impl From<OutOfMemory> for LineFault {
    ghost use Rattle.schedule_text.specs.declared.event.LineFault.TheVariants.{OutOfMemory as WantOfMemory};
    ghost use Rattle.std.specs.Prelude.{◌≡◌};

    ghost from_gives = { λ _ fault. fault ≡ WantOfMemory };

    fn from(_error: OutOfMemory) -> LineFault {
        LineFault::OutOfMemory
    }
}
