//! The event that prints the state.

ghost use Rattle.std.specs.Prelude.{◌≡◌};
ghost use Rattle.spec_world.specs.Events.{show_state};
ghost use Rattle.schedule_replay.specs.Moves.{Acts, CanMove};

use crate::running::Running;
use crate::stop::WorldStop;
use crate::write_state;

// The state is printed.
pub(crate) fn show(running: &Running, out: &mut Vec<u8>) -> Result<(), WorldStop>
    requires { CanMove running.now }
    ensures { Acts show_state running.now running.now out.old.items out.new.items result }
{
    let packets = running.pool.len();
    match write_state(
        &running.cluster,
        running.checkpoint.hard(),
        &running.masters,
        &running.agents,
        &running.apps,
        running.events,
        packets,
        out,
    ) {
        Ok(()) => Ok(()),
        Err(_) => Err(WorldStop::OutOfMemory),
    }
}
