//! Packets are delivered.

ghost use Rattle.std.specs.Prelude.{◌≡◌, ◌<◌, ◌≤◌, ◌-◌, ℕ, IfOk, OnOk, length, slice_get};
ghost use Rattle.work_plan.specs.WorkEvents.{act, deliver};
ghost use Rattle.work_plan.specs.AgentWithApps.{World};
ghost use Rattle.work_plan.specs.declared.event.WorkEvent.TheVariants.{Deliver, DeliverRange};
ghost use Rattle.work_plan.specs.Ends.{Brought};
ghost use Rattle.work_plan.specs.WorkMoves.{HearsAtAgent, HearsAtApp, HearsOne};
ghost use Rattle.work_plan.specs.WorkSteps.{Acts};
ghost use Rattle.work_plan.specs.WorkWorlds.{AgentAt, AppsAt, IsBetween, IsHeldAgent, IsKept};

use crate::agent::hear_app;
use crate::parts::Agent;
use crate::places::has;
use crate::text::{write_heard, write_refused};
use crate::working::Working;
use crate::{Ends, Heard, Parcel, Why, hear};
use fuxi_terms::OutOfMemory;
use schedule_unit::Role;
use std::alloc::Global;

// The agent hears a packet, where one runs.
fn hear_at_agent(
    agent: &mut Option<Agent>,
    alloc: Global,
    parcel: &Parcel,
) -> Result<Option<Heard>, OutOfMemory>
    requires { IsHeldAgent agent.old }
    ensures { IfOk result (λ heard. HearsAtAgent parcel.now heard agent.old agent.new) }
{
    let Some(agent) = agent else {
        return Ok(None);
    };
    match hear_app(agent, alloc, parcel) {
        Ok(heard) => Ok(Some(heard)),
        Err(refusal) => Err(refusal),
    }
}

// The application that a packet is for hears it, where it runs.
fn hear_at_app(
    apps: &mut Vec<Option<Ends>>,
    alloc: Global,
    parcel: &Parcel,
) -> Result<Option<Heard>, OutOfMemory>
    ensures { IfOk result (λ heard. HearsAtApp parcel.now heard apps.old.items apps.new.items) }
{
    let number = parcel.to.number;
    if !has(apps, number) {
        return Ok(None);
    }
    match &mut apps[number as usize] {
        Some(ends) => match hear(ends, alloc, parcel) {
            Ok(heard) => Ok(Some(heard)),
            Err(refusal) => Err(refusal),
        },
        None => unreachable!(),
    }
}

// The party that a packet is for hears it, where it runs.
fn hear_one(
    agent: &mut Option<Agent>,
    apps: &mut Vec<Option<Ends>>,
    alloc: Global,
    parcel: &Parcel,
) -> Result<Option<Heard>, OutOfMemory>
    requires held { IsHeldAgent agent.old }
    requires between { IsBetween parcel.now }
    ensures { IfOk result (λ heard. (k : ℕ) (w : World) → AgentAt agent.old w → AppsAt apps.old.items w → Brought w.net.histories parcel.now → HearsOne parcel.now heard agent.old agent.new apps.old.items apps.new.items k w) }
{
    match parcel.to.role {
        Role::Agent => hear_at_agent(agent, alloc, parcel),
        Role::App => hear_at_app(apps, alloc, parcel),
        Role::Master => unreachable!(),
    }
}

// The packet of this number is delivered; none where fewer were sent.
fn deliver_one(
    working: &mut Working,
    alloc: Global,
    number: u64,
    out: &mut Vec<u8>,
) -> Result<(), OutOfMemory>
    requires first { 1 ≤ number }
    requires held { IsKept working.old }
    ensures acts { OnOk result (Acts (λ w. deliver w number (slice_get w.net.packets (number - 1))) working.old working.new out.old.items out.new.items) }
    ensures packets { OnOk result (working.new.packets ≡ working.old.packets) }
{
    let Some(parcel) = working.packets.get(number as usize - 1) else {
        return Ok(());
    };
    let heard = hear_one(&mut working.agent, &mut working.apps, alloc, parcel)?;
    write_heard(number, heard, out)
}

// The packet of this number is delivered, if so many were sent.
pub fn deliver(
    working: &mut Working,
    alloc: Global,
    number: u64,
    out: &mut Vec<u8>,
) -> Result<(), OutOfMemory>
    requires first { 1 ≤ number }
    requires held { IsKept working.old }
    ensures acts { OnOk result (Acts (λ w. act w (Deliver number)) working.old working.new out.old.items out.new.items) }
    ensures packets { OnOk result (working.new.packets ≡ working.old.packets) }
{
    let sent = working.packets.len() as u64;
    if number > sent {
        return write_refused(Why::NoPacket(sent), out);
    }
    deliver_one(working, alloc, number, out)
}

// The packets of these numbers are delivered, one after another, if so many were sent.
pub fn deliver_range(
    working: &mut Working,
    alloc: Global,
    first: u64,
    last: u64,
    out: &mut Vec<u8>,
) -> Result<(), OutOfMemory>
    requires first { 1 ≤ first }
    requires order { first ≤ last }
    requires held { IsKept working.old }
    ensures acts { OnOk result (Acts (λ w. act w (DeliverRange first last)) working.old working.new out.old.items out.new.items) }
    ensures packets { OnOk result (working.new.packets ≡ working.old.packets) }
{
    let sent = working.packets.len() as u64;
    if last > sent {
        return write_refused(Why::NoPacket(sent), out);
    }
    for number in first..last + 1 {
        deliver_one(working, alloc, number, out)?;
    }
    Ok(())
}
