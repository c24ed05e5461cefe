//! An agent with no world around it: how a program of your own stands on a proved core. Each line of the input is a frame in
//! hexadecimal digits; what the agent makes of it is printed, and the frames of what it sends then.
#![tactic(auto)]

ghost use Rattle.std.specs.Prelude.{◌≡◌, ◌<◌, IfOk};
ghost use Rattle.std.specs.List.{AllByRecursion};
ghost use Rattle.fuxi_terms.specs.Limits.{most_steps};
ghost use Rattle.party_ledgers.specs.Packets.{IsFormed};
ghost use Rattle.peer_channel.specs.Parcels.{IsSent};
ghost use Rattle.agent_core.specs.Answering.{AnswersAlike, SendsAlike};

use agent_core::Agent;
use golden_lines::Stop;
use ledger_law::OutOfMemory;
use party_ledgers::{Heard, Kind, Packet, Packets, What};
use res_vector::Res;
use schedule_unit::MachineNo;
use std::alloc::Global;
use std::io::{BufRead, BufReader};
use std::process::ExitCode;
use wire_frames::{FrameFault, read_packet, write_packet};

// So many steps an agent may take.
const MOST_STEPS: u64 = 1 << 50;

// One exchange: the agent hears a packet, and answers with what its turn sends then. For every agent of the definitions that it stood
// for, the mark and the word are those of that agent, and what is sent is the turn of what that agent is then.
fn exchange(
    alloc: Global,
    agent: Agent,
    packet: &Packet,
) -> Result<(Agent, Heard, Packets), OutOfMemory>
    requires formed { IsFormed packet.now }
    requires no_end { packet.now.kind ≡ Kind.End → ⊥ }
    requires steps { agent.steps < most_steps }
    ensures hears { IfOk result (λ after. AnswersAlike packet.now agent after.0 after.1) }
    ensures sends { IfOk result (λ after. SendsAlike after.0 after.2) }
    ensures formed { IfOk result (λ after. AllByRecursion IsSent after.2) }
{
    let (agent, heard) = agent.on_packet(alloc, packet)?;
    let packets = agent.turn(alloc)?;
    Ok((agent, heard, packets))
}

fn word_of(what: &What) -> &'static str {
    match what {
        What::Stranger => "stranger",
        What::Stale => "stale",
        What::Ack => "ack",
        What::NotMine => "not-mine",
        What::Old => "old",
        What::Gap => "gap",
        What::Taken => "taken",
        What::Ledger(_) => "ledger",
        What::Exceeds { .. } => "exceeds",
    }
}

// Prints what was heard, how many entries the table has then, and the frames of the answer.
fn tell<P: Print>(
    rt: &P,
    alloc: Global,
    agent: &Agent,
    heard: &Heard,
    packets: &Packets,
) -> Result<(), Stop> {
    let new = if heard.fresh { "new " } else { "" };
    println!(rt;
        "heard {new}{}, {} entries",
        word_of(&heard.what),
        agent.table().len()
    )?;
    for packet in packets.as_slice() {
        let mut frame = Vec::new(alloc);
        if packet.formed() {
            write_packet(packet, &mut frame)?;
        }
        println!(rt; "sends {}", hex::encode(alloc, &frame)?)?;
    }
    Ok(())
}

// Hears the frame that stands in a line, and answers the agent after it. What is no frame, or one that ends a round, changes nothing.
fn hear_line<P: Print>(rt: &P, alloc: Global, agent: Agent, line: &str) -> Result<Agent, Stop> {
    let Ok(bytes) = hex::decode(alloc, line) else {
        println!(rt; "no digits")?;
        return Ok(agent);
    };
    let packet = match read_packet(alloc, &bytes) {
        Ok((packet, _)) => packet,
        Err(FrameFault::OutOfMemory) => return Err(Stop::OutOfMemory),
        Err(fault) => {
            println!(rt; "refused {}", fault.name())?;
            return Ok(agent);
        }
    };
    if !packet.formed() || matches!(packet.kind, Kind::End) || agent.steps() >= MOST_STEPS {
        println!(rt; "not heard")?;
        return Ok(agent);
    }
    let (agent, heard, packets) = exchange(alloc, agent, &packet)?;
    tell(rt, alloc, &agent, &heard, &packets)?;
    Ok(agent)
}

fn run(rt: &HostRuntime) -> Result<(), Stop> {
    let alloc = rt.alloc();
    let has = Res {
        q: [400, 1000, 0, 0, 0, 0, 0, 0],
    };
    let mut agent = Agent::start(alloc, MachineNo(0), has, 1)?;
    for line in BufReader::new(alloc, rt.reader())?.lines(alloc) {
        agent = hear_line(rt, alloc, agent, &line?)?;
    }
    Ok(())
}

// An agent for which memory was refused is gone: whoever runs it starts it again with its next boot, and its master tells it its row.
fn main(rt: HostRuntime) -> ExitCode {
    match run(&rt) {
        Ok(()) => ExitCode::SUCCESS,
        Err(Stop::OutOfMemory) => ExitCode::from(7),
        Err(Stop::Io(_)) => ExitCode::from(4),
    }
}
