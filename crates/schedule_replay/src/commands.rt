//! The start and the stop of masters, and what they judge.
//!
//! Each call answers why the event is refused, or `None` where it is done. A refused one has changed nothing that the world sees. The hard
//! state is written before a master starts. After `OutOfMemory` what was lent is not to be used.

ghost use Rattle.std.specs.Prelude.{◌≡◌, ◌<◌, ◌≤◌, IfOk, OnOk, is_some};
ghost use Rattle.std.specs.Ordering.{nat_cmp};
ghost use Rattle.std.specs.FinMap.Entries.{find};
ghost use Rattle.spec_world.specs.World.{World};
ghost use Rattle.spec_world.specs.Events.{start_master, stop_master};
ghost use Rattle.running_parties.specs.RunningMasters.{AreMastersOf};
ghost use Rattle.schedule_replay.specs.MasterCommands.{AreGoverned, Decides, GovernsMasters, GovernsOn, IsGoverning, StartsIn, TakesStep, governing};

use crate::checkpoint::Checkpoint;
use bad_nodes::Votes;
use cluster_desc::Cluster;
use fuxi_master::Master;
use fuxi_terms::OutOfMemory;
use fuxi_terms::limits::{MOST_MASTERS, MOST_RECORDS};
use party_commands::{Writing, written_refusal};
use running_parties::Slots;
use schedule_text::Refusal;
use schedule_unit::MachineNo;
use std::alloc::Global;

/// The tests of a start before its writing.
pub(crate) fn start_tests(
    checkpoint: &Checkpoint,
    masters: &Slots<Master>,
    epoch: u64,
) -> Result<(), Refusal>
    ensures world { (w : World) → IsGoverning w (governing checkpoint.now masters.now) → StartsIn w epoch result }
    ensures above { OnOk result (checkpoint.now.hard.value.fence < epoch) }
{
    running_parties::law::epochs_alike();
    let fence = checkpoint.hard().fence();
    if epoch <= fence {
        return Err(Refusal::NotRising(fence));
    }
    if masters.len() >= MOST_MASTERS {
        return Err(Refusal::TooManyMasters(MOST_MASTERS as u64));
    }
    Ok(())
}

/// A master starts in an epoch above the fence.
pub(crate) fn start_master(
    alloc: Global,
    cluster: &Cluster,
    checkpoint: &mut Checkpoint,
    masters: &mut Slots<Master>,
    epoch: u64,
) -> Result<Option<Refusal>, OutOfMemory>
    requires governed { AreGoverned (governing checkpoint.old masters.old) }
    ensures world { IfOk result (GovernsOn cluster.now (λ w. start_master w epoch) (governing checkpoint.old masters.old) (governing checkpoint.new masters.new)) }
    ensures steps { IfOk result (λ answer. TakesStep masters.old masters.new) }
{
    match start_tests(checkpoint, masters, epoch) {
        Ok(()) => {}
        Err(refusal) => return Ok(Some(refusal)),
    }
    match checkpoint.write(epoch, &Writing::Raise) {
        Ok(()) => {}
        Err(fault) => match written_refusal(fault) {
            Ok(refusal) => return Ok(Some(refusal)),
            Err(_) => return Err(OutOfMemory),
        },
    }
    match running_parties::start_master(masters, alloc, cluster, epoch, checkpoint.hard()) {
        Ok(()) => Ok(None),
        Err(OutOfMemory) => Err(OutOfMemory),
    }
}

/// The master of an epoch stops.
pub(crate) fn stop_master(masters: &mut Slots<Master>, epoch: u64) -> Option<Refusal>
    ensures world { GovernsMasters (λ w. stop_master w epoch) masters.old masters.new result }
    ensures steps { TakesStep masters.old masters.new }
{
    if running_parties::stop_master(masters, epoch) {
        None
    } else {
        Some(Refusal::NotRunning)
    }
}

/// The machines that a judgement bans, in its order, with the votes that were counted.
#[derive(Drop)]
pub(crate) struct Judgement {
    pub(crate) votes: Votes,
    pub(crate) machines: Vec<MachineNo>,
}

/// The judgement of the master of an epoch, or why it is refused. Nothing changes.
pub(crate) fn judged(
    alloc: Global,
    checkpoint: &Checkpoint,
    masters: &Slots<Master>,
    epoch: u64,
    least: u32,
    percent: u32,
) -> Result<Result<Judgement, Refusal>, OutOfMemory>
    requires { percent ≤ 100 }
    ensures { IfOk result (Decides epoch least percent (governing checkpoint.now masters.now)) }
{
    spec_roles::law::judges();
    running_parties::law::parties_run();
    let Some(master) = masters.get(epoch) else {
        return Ok(Err(Refusal::NotRunning));
    };
    let hard = checkpoint.hard();
    let fence = hard.fence();
    if epoch < fence {
        return Ok(Err(Refusal::Fenced(fence)));
    }
    let votes = master.votes(alloc)?;
    let machines = votes.judge(alloc, least, percent)?;
    let left = MOST_RECORDS - hard.records() as u64;
    if machines.len() as u64 > left {
        return Ok(Err(Refusal::HardFull(MOST_RECORDS)));
    }
    Ok(Ok(Judgement { votes, machines }))
}

/// Whether the master of an epoch runs.
pub(crate) fn runs(masters: &Slots<Master>, epoch: u64) -> bool
    ensures { (w : World) → AreMastersOf w masters.now → result ≡ is_some (find nat_cmp epoch w.masters) }
{
    running_parties::law::parties_run();
    masters.get(epoch).is_some()
}
