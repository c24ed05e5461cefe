//! What is promised of the cores that run, and not only of the written world: each contract here is a law.

ghost use Rattle.std.specs.Prelude.{◌≡◌, true, Some};
ghost use Rattle.spec_world.specs.World.{World as WrittenWorld};
ghost use Rattle.spec_world.specs.Quiet.{is_quiet};
ghost use Rattle.fuxi_master.specs.Cores.{MasterRecord};
ghost use Rattle.running_parties.specs.Slots.{slot_at};
ghost use Rattle.schedule_replay.specs.Worlds.{IsWorld, StandsFor as WorldStandsFor};
ghost use Rattle.schedule_replay.specs.Promises.{TablesFit, AllHeldOnce, AllFollow, AllAgree, AllSettled, AreOfGoodWorld, Agree};

use crate::world::World;

/// Of all that runs in a schedule, whatever happened to it, masters that failed over, packets that were lost, repeated or reordered: each
/// agent's table fits its machine (`capacity`). What an application holds on a machine fits it, and each number is part of one entry of
/// what one master sent it (`once`). Who has come to the last index of what another that runs sent it has what that one shows now
/// (`views`). Where the world is quiet for a master, it, each agent, and each application of a job that it knows have the same numbers of
/// each unit on each machine (`agreement`). In no master a unit waits that may be granted (`settled`). And the cores are those of a good
/// world (`good`).
pub fn cores_are_safe(world: &World)
    ensures capacity { TablesFit world.now }
    ensures once { AllHeldOnce world.now }
    ensures views { AllFollow world.now }
    ensures agreement { AllAgree world.now }
    ensures settled { AllSettled world.now }
    ensures good { AreOfGoodWorld world.now }
{
    world.is_reached();
    running_parties::law::parties_run();
    spec_world::law::every_event_keeps_good();
}

/// The answer of `World::quiet` for the master of an epoch (`answer`). Where it is true, that master, the agents, and the applications of the
/// jobs that it knows have the same numbers (`agree`).
pub fn quiet_parties_agree(world: &World, epoch: u64) -> bool
    ensures answer { (w : WrittenWorld) → IsWorld w → WorldStandsFor world.now w → result ≡ is_quiet w epoch }
    ensures agree { result ≡ true → (M : MasterRecord) → slot_at world.now.masters epoch ≡ Some M → Agree world.now M.core }
{
    cores_are_safe(world);
    world.quiet(epoch)
}
