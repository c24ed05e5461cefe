//! The lines of the agents.

ghost use Rattle.std.specs.Prelude.{◌≡◌, length, T, OnOk};
ghost use Rattle.std.specs.Ordering.{nat_cmp};
ghost use Rattle.std.specs.FinMap.Entries.{is_sorted};
ghost use Rattle.spec_world.specs.World.{World};
ghost use Rattle.spec_world.specs.Good.{Good};
ghost use Rattle.schedule_text.specs.Writing.{Begins};
ghost use Rattle.party_text.specs.Texts.{Shows};
ghost use Rattle.running_parties.specs.Peers.{AreAgentsOf};
ghost use Rattle.schedule_replay.specs.Parts.{AreOnMachines, machine_lines, show_agents};

use agent_core::Agent;
use fuxi_terms::OutOfMemory;
use party_text::write_agent;
use running_parties::Slots;
use schedule_unit::MachineNo;

// The agent of a machine, where one runs.
fn write_agent_of(
    agents: &Slots<Agent>,
    machine: MachineNo,
    out: &mut Vec<u8>,
) -> Result<(), OutOfMemory>
    requires { AreOnMachines agents.now }
    ensures ok { OnOk result ((w : World) → AreAgentsOf w agents.now → Shows (machine_lines w machine.0) out.old.items out.new.items) }
    ensures begins { Begins out.old.items out.new.items }
{
    // What a world prints of an agent is what that one prints by itself.
    spec_refinement::law::states_are_alone();
    running_parties::law::parties_run();
    match agents.get(machine.0 as u64) {
        Some(agent) => match write_agent(agent, machine, out) {
            Ok(()) => Ok(()),
            Err(refusal) => Err(refusal),
        },
        None => Ok(()),
    }
}

// The agents, machine by machine.
#[tactic(auto, using(spec_refinement::proofs::ShowsLemmas::begins_then))]
pub(crate) fn write_agents(
    agents: &Slots<Agent>,
    machines: u32,
    out: &mut Vec<u8>,
) -> Result<(), OutOfMemory>
    requires { AreOnMachines agents.now }
    ensures ok { OnOk result ((w : World) → Good w → AreAgentsOf w agents.now → T (is_sorted nat_cmp w.agents) → machines ≡ length w.cluster.machines
        → Shows (show_agents w) out.old.items out.new.items) }
    ensures begins { Begins out.old.items out.new.items }
{
    for number in 0..machines {
        match write_agent_of(agents, MachineNo(number), out) {
            Ok(()) => {}
            Err(refusal) => return Err(refusal),
        }
    }
    Ok(())
}
