//! What the frames of a pool are read as.

ghost use Rattle.std.specs.Prelude.{◌≡◌, ℕ, List, Result, Some, slice_get, length, ◌≤◌, ◌+◌, true, ◌<◌};
ghost use Rattle.std.specs.Option.{option_map};
ghost use Rattle.party_ledgers.specs.PacketHeaders.{header_of};
ghost use Rattle.party_ledgers.specs.declared.packets.Packet.{Packet};
ghost use Rattle.wire_frames.specs.Frames.{IsFrame};
ghost use Rattle.wire_frames.specs.Fronts.{IsFront};
ghost use Rattle.wire_frames.specs.ReadFrames.{Reads};
ghost use Rattle.wire_frames.specs.declared.fault.FrameFault.{FrameFault};
ghost use Rattle.wire_frames.specs.declared.read.Front.{Front};
ghost use Rattle.schedule_replay.specs.PacketPools.{Stored, Keeps, IsReadAs};
ghost use Rattle.schedule_text.specs.Halting.{anywhere};
ghost use Rattle.schedule_text.specs.Writing.{IsLineEvent};
ghost use Rattle.schedule_text.specs.declared.event.Event.{Event};
ghost use Rattle.spec_world.specs.EventRanges.{is_from_line, IsInput};
ghost use Rattle.schedule_replay.specs.LineEvents.{event_as};
ghost use Rattle.spec_net.specs.Ledgers.{body_length};
ghost use Rattle.peer_channel.specs.Parcels.{content_of};
ghost use Rattle.spec_world.specs.World.{World};
ghost use Rattle.schedule_replay.specs.Held.{Held, IsOpen};
ghost use Rattle.fuxi_master.specs.Cores.{MasterRecord};
ghost use Rattle.running_parties.specs.Slots.{SlotsRecord, MayStep, slot_at};
ghost use Rattle.running_parties.specs.Peers.{agent_steps, app_steps};
ghost use Rattle.running_parties.specs.RunningMasters.{AreMastersOf, master_steps};
ghost use Rattle.schedule_replay.specs.Worlds.{WorldRecord, StandsFor, AreWithin};
ghost use Rattle.schedule_replay.specs.Moves.{AgentsPart, AppsPart, CanMove, Leaves, MastersPart};
ghost use Rattle.spec_roles.specs.Apps.{AppRole, held_by};
ghost use Rattle.app_master.specs.AppCores.{AppCore, StandsFor as IsAppCore};
ghost use Rattle.schedule_replay.specs.CoreReads.{held_now};
ghost use Rattle.std.specs.List.{concat};
ghost use Rattle.fuxi_io.specs.declared.status.InputFault.{InputFault};
ghost use Rattle.input_lines.specs.LineRuns.{AtEnd, AtBadLine};
ghost use Rattle.schedule_replay.specs.ScheduleRuns.{run_of, pieces};
ghost use Rattle.schedule_replay.specs.Told.{IsText, IsTextBefore, IsFrontText, LeadsTo};
ghost use Rattle.schedule_replay.specs.Inputs.{Input};

use agent_core::Agent;
use app_master::AppMaster;
use fuxi_master::Master;

/// The stored frame of a packet that was added is read as that packet and ends with it, unless memory lacks: so it is
/// for a frame by itself, and for the frames of a pool, each by its place. What is read in front of one stands on that packet. It does
/// nothing; its contract is this law.
pub fn stored_is_read()
    ensures frame { (x : Packet) (bytes : List ℕ) (r : Result (Packet × ℕ) FrameFault) → IsFrame x bytes → Reads bytes r → IsReadAs (Some x) (length bytes) r }
    ensures place { (p : Stored) (xs : List Packet) (i : ℕ) (bytes : List ℕ) (r : Result (Packet × ℕ) FrameFault) → Keeps p xs → slice_get p.frames i ≡ Some bytes → Reads bytes r → IsReadAs (slice_get xs i) (length bytes) r }
    ensures front { (p : Stored) (xs : List Packet) (i : ℕ) (bytes : List ℕ) (front : Front) → Keeps p xs → slice_get p.frames i ≡ Some bytes → IsFront bytes front → option_map header_of (slice_get xs i) ≡ Some front.header }
{
    wire_frames::law::one_reading();
    wire_frames::law::one_header();
}

// Where an agent acted, what runs with the agents and the packets then stands for the world after it.
pub(crate) fn agents_act()
    ensures { AgentsPart }
{
    running_parties::law::others_stay::<Master>();
    running_parties::law::others_stay::<AppMaster>();
}

// Where an application acted, what runs with the applications and the packets then stands for the world after it.
pub(crate) fn apps_act()
    ensures { AppsPart }
{
    running_parties::law::others_stay::<Master>();
    running_parties::law::others_stay::<Agent>();
}

// Where a master acted, what runs with the masters and the packets then stands for the world after it; and where one was given an order,
// started or stopped, with the hard state.
pub(crate) fn masters_act()
    ensures acts { MastersPart }
    ensures orders { (w w' : World) (old : WorldRecord) (held : Held) (masters : SlotsRecord MasterRecord)
        → StandsFor old w → Leaves w w' → AreMastersOf w' masters → held.hard.value ≡ w'.hard → IsOpen held → StandsFor (record old { checkpoint = held; masters = masters }) w' }
{
    running_parties::law::others_stay::<Agent>();
    running_parties::law::others_stay::<AppMaster>();
}

// Where each core may take a step, each of each kind may. A core that took fewer steps took at most as many as a greater number.
pub(crate) fn cores_may_step()
    ensures agents { (r : WorldRecord) (m : ℕ) → CanMove r → MayStep agent_steps (slot_at r.agents m) }
    ensures apps { (r : WorldRecord) (a : ℕ) → CanMove r → MayStep app_steps (slot_at r.apps a) }
    ensures masters { (r : WorldRecord) (e : ℕ) → CanMove r → MayStep master_steps (slot_at r.masters e) }
    ensures wider { (n l : ℕ) (r : WorldRecord) → AreWithin n r → n ≤ l → AreWithin l r }
{
    running_parties::law::steps_left::<Agent>();
    running_parties::law::steps_left::<AppMaster>();
    running_parties::law::steps_left::<Master>();
}

// A frame is as long as the written net says of what the packet holds.
pub(crate) fn written_frame_lengths()
    ensures { (x : Packet) (bytes : List ℕ) → IsFrame x bytes → length bytes ≡ 48 + body_length (content_of x.body) }
{
    wire_frames::law::frame_lengths();
}

/// An event that a line can give is one of an input.
pub fn events_are_inputs()
    ensures { (e : Event) → IsLineEvent e → is_from_line (event_as e) ≡ true }
{}

/// Where the event within a stop stands in memory says nothing of it.
pub fn events_stand_anywhere()
    ensures { (e : Event) → event_as (anywhere e) ≡ event_as e }
{}

/// What `AppMaster::held` answers is `held_now`, the number that is read of the core here: both are what each application for which the
/// core stands holds.
pub fn held_is_answered()
    ensures { (a : AppCore) (r : AppRole) (u m : ℕ) → IsAppCore a r → u < a.units → m < a.machines → held_now a u m ≡ held_by r u m }
{}

/// A run to the end of an input is that of its cluster and its events, with the state behind it (`whole`). One that
/// ends at a bad line has told what the lines before it print, and it is the first bad one (`bad`). And whatever a
/// run ended at, it has told what some lines at the front print, and nothing else (`front`).
pub fn runs_are_told()
    ensures whole { (bytes : List ℕ) → (run_of bytes).ending ≡ AtEnd → IsText bytes (concat (pieces (run_of bytes))) }
    ensures bad { (bytes : List ℕ) (line : ℕ) (fault : InputFault) → (run_of bytes).ending ≡ AtBadLine line fault → IsTextBefore bytes line fault (concat (run_of bytes).outputs) }
    ensures front { (bytes : List ℕ) → IsFrontText bytes (concat (run_of bytes).outputs) }
{}

/// The cluster of an input is valid, and each of its events is one that a line can give.
pub fn inputs_are_given()
    ensures { (bytes : List ℕ) (i : Input) → LeadsTo bytes i → IsInput i.cluster i.events }
{
    cluster_desc::law::cluster_lines_are_valid();
    schedule_text::law::events_of_lines();
    crate::law::events_are_inputs();
}
