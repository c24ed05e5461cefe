//! Turns: what the agent and the applications send.

ghost use Rattle.std.specs.Prelude.{◌≡◌, ◌≤◌, ◌++◌, ◌∷◌, [], ℕ, IfErr, OnOk, length};
ghost use Rattle.spec_net.specs.Net.{turn};
ghost use Rattle.work_plan.specs.WorkEvents.{act, agent_packets, app_packets};
ghost use Rattle.work_plan.specs.WorkLines.{NotRunning, Refused, lines_text};
ghost use Rattle.work_plan.specs.WorkRuns.{most_work_packets};
ghost use Rattle.work_plan.specs.AgentWithApps.{World, app_id, agent_party};
ghost use Rattle.work_plan.specs.declared.event.WorkEvent.TheVariants.{TurnAgent, TurnApp};
ghost use Rattle.work_plan.specs.WorkMoves.{Sends};
ghost use Rattle.work_plan.specs.WorkSteps.{Acts, Exceeds, Finishes, StopsAs};
ghost use Rattle.work_plan.specs.WorkWorlds.{AppsAt, IsAgent, IsAppOf, IsHeld, IsKept};

use crate::agent::ensure_peer;
use crate::parts::Agent;
use crate::places::has;
use crate::stop::WorkStop;
use crate::text::{write_refused, write_sent};
use crate::working::Working;
use crate::{Ends, Parcel, Why, turn};
use fuxi_terms::OutOfMemory;
use fuxi_terms::limits::MOST_JOBS;
use schedule_unit::{AppNo, Party, Role};
use std::alloc::Global;

/// The packets of a world, at most.
const MOST_PACKETS: usize = 10_000;

// How many packets were sent.
fn sent_so_far(packets: &[Parcel]) -> usize
    ensures { result ≡ length packets.now }
{
    packets.len()
}

// What one turn of the agent sends to an application.
fn send_to_app(
    agent: &mut Agent,
    alloc: Global,
    app: AppNo,
    packets: &mut Vec<Parcel>,
) -> Result<(), OutOfMemory>
    requires { IsHeld agent.old }
    ensures sends { OnOk result ((w : World) → IsAgent agent.old w → Sends packets.old.items packets.new.items w.net.histories (turn w.net (agent_party w) (app_id app.0))) }
    ensures agent { OnOk result ((w : World) → IsAgent agent.old w → IsAgent agent.new w) }
{
    ensure_peer(agent, alloc, app)?;
    let from = Party {
        role: Role::Agent,
        number: 0,
        inc: agent.boot,
    };
    match &agent.peers[app.0 as usize] {
        Some(peer) => {
            let to = Party {
                role: Role::App,
                number: app.0,
                inc: peer.ends.peer(),
            };
            turn(&peer.ends, alloc, from, to, packets)
        }
        None => unreachable!(),
    }
}

// What one turn of the agent sends to all applications that ever started.
fn send_to_all(
    agent: &mut Agent,
    alloc: Global,
    apps: &[Option<Ends>],
    packets: &mut Vec<Parcel>,
) -> Result<(), OutOfMemory>
    requires { IsHeld agent.old }
    ensures sends { OnOk result ((w : World) → IsAgent agent.old w → AppsAt apps.now w → Sends packets.old.items packets.new.items w.net.histories (agent_packets w)) }
    ensures agent { OnOk result ((w : World) → IsAgent agent.old w → IsAgent agent.new w) }
{
    for number in 0..MOST_JOBS {
        if !has(apps, number) {
            continue;
        }
        send_to_app(agent, alloc, AppNo(number), packets)?;
    }
    Ok(())
}

// Prints the packets behind those that were kept, if they are not too many.
fn finish(packets: &[Parcel], kept: usize, out: &mut Vec<u8>) -> Result<(), WorkStop>
    requires { kept ≤ length packets.now }
    ensures ok { OnOk result (Finishes packets.now kept out.old.items out.new.items) }
    ensures stops { IfErr result (Exceeds packets.now kept) }
{
    if packets.len() > MOST_PACKETS {
        return Err(WorkStop::TooManyPackets { kept: kept as u64 });
    }
    match write_sent(packets, kept, out) {
        Ok(()) => Ok(()),
        Err(_) => Err(WorkStop::OutOfMemory),
    }
}

// One turn of the agent.
pub fn turn_agent(working: &mut Working, alloc: Global, out: &mut Vec<u8>) -> Result<(), WorkStop>
    requires held { IsKept working.old }
    ensures acts { OnOk result (Acts (λ w. act w TurnAgent) working.old working.new out.old.items out.new.items) }
    ensures stops { IfErr result (StopsAs (λ w. act w TurnAgent) working.old) }
    ensures few { OnOk result (length working.old.packets.items ≤ most_work_packets → length working.new.packets.items ≤ most_work_packets) }
{
    let kept = sent_so_far(&working.packets);
    let Some(agent) = &mut working.agent else {
        return refuse(out);
    };
    let Ok(()) = send_to_all(agent, alloc, &working.apps, &mut working.packets) else {
        return Err(WorkStop::OutOfMemory);
    };
    finish(&working.packets, kept, out)
}

// Writes that nobody runs.
fn refuse(out: &mut Vec<u8>) -> Result<(), WorkStop>
    ensures ok { OnOk result (out.new.items ≡ out.old.items ++ lines_text (Refused NotRunning ∷ [])) }
    ensures stops { IfErr result (λ stop. stop ≡ WorkStop.OutOfMemory) }
{
    match write_refused(Why::NotRunning, out) {
        Ok(()) => Ok(()),
        Err(_) => Err(WorkStop::OutOfMemory),
    }
}

// What one turn of an application sends: nothing where it knows no agent.
fn send_to_agent(
    ends: &Ends,
    alloc: Global,
    app: AppNo,
    packets: &mut Vec<Parcel>,
) -> Result<(), OutOfMemory>
    ensures { OnOk result ((w : World) → IsAppOf ends.now w app.0 → Sends packets.old.items packets.new.items w.net.histories (app_packets w app.0)) }
{
    if ends.peer() == 0 {
        return Ok(());
    }
    let from = Party {
        role: Role::App,
        number: app.0,
        inc: ends.own(),
    };
    let to = Party {
        role: Role::Agent,
        number: 0,
        inc: ends.peer(),
    };
    turn(ends, alloc, from, to, packets)
}

// One turn of an application.
pub fn turn_app(
    working: &mut Working,
    alloc: Global,
    app: AppNo,
    out: &mut Vec<u8>,
) -> Result<(), WorkStop>
    requires held { IsKept working.old }
    ensures acts { OnOk result (Acts (λ w. act w (TurnApp app)) working.old working.new out.old.items out.new.items) }
    ensures stops { IfErr result (StopsAs (λ w. act w (TurnApp app)) working.old) }
    ensures few { OnOk result (length working.old.packets.items ≤ most_work_packets → length working.new.packets.items ≤ most_work_packets) }
{
    let kept = sent_so_far(&working.packets);
    if !has(&working.apps, app.0) {
        return refuse(out);
    }
    let Some(ends) = &working.apps[app.0 as usize] else {
        unreachable!()
    };
    let Ok(()) = send_to_agent(ends, alloc, app, &mut working.packets) else {
        return Err(WorkStop::OutOfMemory);
    };
    finish(&working.packets, kept, out)
}
