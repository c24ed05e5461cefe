//! Turns and resyncs: what parties send, and what they forget.

ghost use Rattle.std.specs.Prelude.{◌≡◌, ◌+◌, ◌++◌, List, Some, None, cond, length, map, IfErr, OnOk};
ghost use Rattle.std.specs.List.{AllByRecursion};
ghost use Rattle.peer_channel.specs.Parcels.{parcel_is, IsSent};
ghost use Rattle.spec_net.specs.Net.{Net, Packet as WrittenPacket};
ghost use Rattle.spec_net.specs.Ledgers.{Ledger};
ghost use Rattle.spec_refinement.specs.SeenWorlds.{parcel_of};
ghost use Rattle.spec_world.specs.Outputs.{sent_lines};
ghost use Rattle.schedule_text.specs.declared.refusal.Refusal.{Refusal};
ghost use Rattle.schedule_replay.specs.PacketPools.{Stored};
ghost use Rattle.spec_refinement.specs.SeenParties.{turn_of, resync_of};
ghost use Rattle.running_parties.specs.Slots.{MayStep, slot_at};
ghost use Rattle.schedule_replay.specs.ReplayTexts.{lines_text};
ghost use Rattle.party_commands.specs.CommandedParties.{kind_named};
ghost use Rattle.schedule_replay.specs.Moves.{Acts, ActsAsPart, CanMove, KeepsMore, StopsAs, StopsFor, WantsMemory, refusal_lines, told_of};

use crate::running::Running;
use crate::stop::WorldStop;
use crate::text::{write_all_sent, write_refusal};
use crate::{PacketPool, PoolFault, law};
use party_ledgers::Packet;
use running_parties::{Party, Slots};
use schedule_text::Refusal;
use schedule_unit::Role;
use std::alloc::Global;

// Why packets are not kept, as the reason of the world.
fn stop_of(fault: PoolFault) -> WorldStop
    ensures { StopsAs fault result }
{
    match fault {
        PoolFault::TooManyPackets { kept } => WorldStop::TooManyPackets { kept },
        PoolFault::PoolBytes { kept } => WorldStop::PoolBytes { kept },
        PoolFault::OutOfMemory => WorldStop::OutOfMemory,
    }
}

// Keeps the packets of a turn, and prints them.
fn send(pool: &mut PacketPool, packets: &[Packet], out: &mut Vec<u8>) -> Result<(), WorldStop>
    requires { AllByRecursion IsSent packets.now }
    ensures keeps { OnOk result (KeepsMore pool.old pool.new packets.now) }
    ensures text { OnOk result ((net : Net Ledger) (xs : List WrittenPacket) → map parcel_is packets.now ≡ map (parcel_of net) xs
        → out.new.items ≡ out.old.items ++ lines_text (sent_lines net (length pool.old.frames + 1) xs)) }
    ensures stops { IfErr result (StopsFor pool.old packets.now) }
{
    let first = pool.len() + 1;
    match pool.add(packets) {
        Ok(()) => {}
        Err(fault) => return Err(stop_of(fault)),
    }
    let _few = pool.len();
    write_all_sent(packets, first, out)
}

// The refusal, where none ran.
fn write_whether(ran: bool, out: &mut Vec<u8>) -> Result<(), WorldStop>
    ensures ok { OnOk result (out.new.items ≡ out.old.items ++ lines_text (refusal_lines (cond ran None (Some Refusal.NotRunning)))) }
    ensures err { IfErr result WantsMemory }
{
    if ran {
        write_refusal(None, out)
    } else {
        write_refusal(Some(Refusal::NotRunning), out)
    }
}

/// What a party is told that it does by itself.
#[derive(Clone, Copy)]
pub(crate) enum Told {
    /// It sends what its peers lack.
    Turn,
    /// It forgets what its peers have acknowledged.
    Resync,
}

// One turn of the party of a number.
fn turn<P: Party>(
    parties: &mut Slots<P>,
    pool: &mut PacketPool,
    alloc: Global,
    number: u64,
    out: &mut Vec<u8>,
) -> Result<(), WorldStop>
    requires { MayStep P.steps (slot_at parties.old number) }
    ensures { ActsAsPart turn_of P.stands P.steps number parties.old parties.new pool.old pool.new out.old.items out.new.items result }
{
    law::written_frame_lengths();
    let Ok(answer) = parties.turn(alloc, number) else {
        return Err(WorldStop::OutOfMemory);
    };
    let Some(packets) = answer else {
        return write_refusal(Some(Refusal::NotRunning), out);
    };
    send(pool, packets.as_slice(), out)
}

// The party of a number forgets what its peers have acknowledged.
fn resync<P: Party>(
    parties: &mut Slots<P>,
    alloc: Global,
    number: u64,
    out: &mut Vec<u8>,
) -> Result<(), WorldStop>
    requires { MayStep P.steps (slot_at parties.old number) }
    ensures { (pool : Stored) → ActsAsPart resync_of P.stands P.steps number parties.old parties.new pool pool out.old.items out.new.items result }
{
    let Ok(ran) = parties.resync(alloc, number) else {
        return Err(WorldStop::OutOfMemory);
    };
    write_whether(ran, out)
}

// The party of a number does what it is told.
fn tell_one<P: Party>(
    parties: &mut Slots<P>,
    pool: &mut PacketPool,
    alloc: Global,
    number: u64,
    told: Told,
    out: &mut Vec<u8>,
) -> Result<(), WorldStop>
    requires { MayStep P.steps (slot_at parties.old number) }
    ensures { ActsAsPart (told_of told) P.stands P.steps number parties.old parties.new pool.old pool.new out.old.items out.new.items result }
{
    match told {
        Told::Turn => turn(parties, pool, alloc, number, out),
        Told::Resync => resync(parties, alloc, number, out),
    }
}

// The party of a role and number does what it is told.
pub(crate) fn tell(
    running: &mut Running,
    alloc: Global,
    role: Role,
    number: u64,
    told: Told,
    out: &mut Vec<u8>,
) -> Result<(), WorldStop>
    requires { CanMove running.old }
    ensures { Acts (λ w. told_of told w (kind_named role) number) running.old running.new out.old.items out.new.items result }
{
    law::cores_may_step();
    match role {
        Role::Master => {
            law::masters_act();
            tell_one(
                &mut running.masters,
                &mut running.pool,
                alloc,
                number,
                told,
                out,
            )
        }
        Role::Agent => {
            law::agents_act();
            tell_one(
                &mut running.agents,
                &mut running.pool,
                alloc,
                number,
                told,
                out,
            )
        }
        Role::App => {
            law::apps_act();
            tell_one(
                &mut running.apps,
                &mut running.pool,
                alloc,
                number,
                told,
                out,
            )
        }
    }
}
