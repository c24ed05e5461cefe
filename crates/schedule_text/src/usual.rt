//! The lines that stand most in a schedule. Their words are read one by one, without the table.

ghost use Rattle.std.specs.Prelude.{◌∷◌, [], codes};
ghost use Rattle.schedule_text.specs.ReadEvents.{IsRead};

use crate::event::{Event, LineFault};
use crate::form::Place;
use crate::number::number_at;
use schedule_unit::{AppNo, MachineNo, UnitNo};

// The event of a delivery of this packet.
pub fn deliver_of(packet: &[u8]) -> Result<Event, LineFault>
    ensures { IsRead (codes "deliver" ∷ packet.now ∷ []) result }
{
    let packet = number_at(Place::Packet, 1, 0, packet)?;
    Ok(Event::Deliver(packet))
}

// That of the packets from the first to the last.
pub fn deliver_range_of(first: &[u8], last: &[u8]) -> Result<Event, LineFault>
    ensures { IsRead (codes "deliver" ∷ first.now ∷ last.now ∷ []) result }
{
    let first = number_at(Place::Packet, 1, 0, first)?;
    let last = number_at(Place::LastPacket, 2, first, last)?;
    Ok(Event::DeliverRange(first, last))
}

// That of a turn of this machine's agent.
pub fn turn_agent_of(machine: &[u8]) -> Result<Event, LineFault>
    ensures { IsRead (codes "turn" ∷ codes "agent" ∷ machine.now ∷ []) result }
{
    let machine = number_at(Place::Machine, 2, 0, machine)?;
    Ok(Event::TurnAgent(MachineNo(machine as u32)))
}

// That of a turn of this job's application.
pub fn turn_app_of(app: &[u8]) -> Result<Event, LineFault>
    ensures { IsRead (codes "turn" ∷ codes "app" ∷ app.now ∷ []) result }
{
    let app = number_at(Place::Job, 2, 0, app)?;
    Ok(Event::TurnApp(AppNo(app as u32)))
}

// That of what an application wants of a unit in all.
pub fn want_of(app: &[u8], unit: &[u8], count: &[u8]) -> Result<Event, LineFault>
    ensures { IsRead (codes "want" ∷ app.now ∷ unit.now ∷ count.now ∷ []) result }
{
    let app = number_at(Place::Job, 1, 0, app)?;
    let unit = number_at(Place::Unit, 2, app, unit)?;
    let count = number_at(Place::Count, 3, unit, count)?;
    Ok(Event::Want(AppNo(app as u32), UnitNo(unit as u8), count))
}

// That of what it wants of a unit on a machine.
pub fn near_of(app: &[u8], unit: &[u8], machine: &[u8], count: &[u8]) -> Result<Event, LineFault>
    ensures { IsRead (codes "near" ∷ app.now ∷ unit.now ∷ machine.now ∷ count.now ∷ []) result }
{
    let app = number_at(Place::Job, 1, 0, app)?;
    let unit = number_at(Place::Unit, 2, app, unit)?;
    let machine = number_at(Place::Machine, 3, unit, machine)?;
    let count = number_at(Place::Count, 4, machine, count)?;
    Ok(Event::Near(
        AppNo(app as u32),
        UnitNo(unit as u8),
        MachineNo(machine as u32),
        count,
    ))
}
