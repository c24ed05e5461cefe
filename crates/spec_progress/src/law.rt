//! The laws. Each function does nothing; its contract is a law of the definitions.

ghost use Rattle.std.specs.Prelude.{List};
ghost use Rattle.fuxi_terms.specs.Cluster.{ClusterRecord};
ghost use Rattle.spec_world.specs.Events.{Event};
ghost use Rattle.spec_world.specs.EventRanges.{IsInput};
ghost use Rattle.spec_world.specs.Runs.{run};
ghost use Rattle.spec_progress.specs.Reached.{TurnsBringForward};
ghost use Rattle.spec_progress.specs.CalmStates.{CanProgress};
ghost use Rattle.spec_progress.specs.CalmRounds.{CalmBringsQuiet, CalmKeeps};

/// One turn of one channel that is delivered whole and in order, whatever was lost before. The receiver knows the sender then. Where the
/// sender knows the receiver's running incarnation, the receiver has come to the last entry, or behind changes, of which at most 256 were
/// open, 64 entries further than what was acknowledged; and it counts as acknowledged all that the sender had received of it.
pub fn a_turn_brings_forward()
    ensures { TurnsBringForward }
{}

/// In every state what a party counts as acknowledged was reached: the peer that it knows has come to that index, or does not know this
/// incarnation yet, and then it is 0. Who never ran knows nobody. A running master counts from 1, has nothing left to do, and has as
/// reported each machine of whose agent it took a report; running agents and applications count from 1.
pub fn every_run_can_progress()
    ensures { (c : ClusterRecord) (events : List Event) → CanProgress (run c events) }
{}

/// From every state to which an input leads and in which the master of the fence and every machine's agent run: behind seven calm rounds or
/// more, and one more turn of that master with its delivery, the world is quiet for it, it serves, and the world is safe, so that all
/// parties have the same numbers and no allowed unit waits that fits (`quiet`). Other masters may run, and applications may run or not; nothing is assumed of what was sent before. Calm rounds leave
/// the cluster and the hard state as they were (`keeps`).
pub fn calm_rounds_bring_quiet()
    ensures quiet { (c : ClusterRecord) (events : List Event) → IsInput c events → CalmBringsQuiet c events }
    ensures keeps { (c : ClusterRecord) (events : List Event) → IsInput c events → CalmKeeps c events }
{
    spec_world::law::worlds_in_order();
}
