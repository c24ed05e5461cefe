//! The events of agents.

ghost use Rattle.std.specs.Prelude.{◌≡◌, ◌<◌};
ghost use Rattle.spec_world.specs.Events.{start_agent};
ghost use Rattle.schedule_replay.specs.Moves.{Acts, CanMove};

use crate::law;
use crate::running::Running;
use crate::stop::WorldStop;
use crate::text::write_refusal;
use schedule_text::Refusal;
use schedule_unit::MachineNo;
use std::alloc::Global;

// An agent starts in a boot, on a machine.
pub(crate) fn start_agent(
    running: &mut Running,
    alloc: Global,
    machine: MachineNo,
    boot: u64,
    out: &mut Vec<u8>,
) -> Result<(), WorldStop>
    requires boot { 0 < boot }
    requires can { CanMove running.old }
    ensures { Acts (λ w. start_agent w machine.0 boot) running.old running.new out.old.items out.new.items result }
{
    law::agents_act();
    if machine.0 >= running.cluster.machines() {
        return write_refusal(Some(Refusal::NoMachine), out);
    }
    let known = running.agents.boot(machine.0 as u64);
    if boot <= known {
        return write_refusal(Some(Refusal::NotRising(known)), out);
    }
    let has = running.cluster.machine(machine).has;
    match running_parties::start_agent(&mut running.agents, alloc, machine, has, boot) {
        Ok(()) => Ok(()),
        Err(_) => Err(WorldStop::OutOfMemory),
    }
}
