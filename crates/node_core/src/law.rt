//! What is said of every event of a node.

ghost use Rattle.std.specs.Prelude.{◌≡◌, ℕ, List};
ghost use Rattle.schedule_text.specs.Halting.{anywhere};
ghost use Rattle.schedule_text.specs.declared.event.Event.{Event};
ghost use Rattle.node_core.specs.Roles.{Role};
ghost use Rattle.node_core.specs.PartyEvents.{commanded};
ghost use Rattle.node_core.specs.HeardPackets.{Came, Gives, hear_all};

/// What an event commands does not depend on where it stands in memory. It does nothing: its contract is the law.
pub fn events_command_anywhere()
    ensures { (r : Role) (e : Event) → commanded r (anywhere e) ≡ commanded r e }
{}

/// The bytes of a connection say what is heard of it, however they are taken for packets and a rest. It does nothing;
/// its contract is this law.
pub fn one_hearing()
    ensures { (most : ℕ) (r : Role) (bytes : List ℕ) (came other : Came) → Gives bytes came.packets (hear_all most r came).how → Gives bytes other.packets (hear_all most r other).how → hear_all most r came ≡ hear_all most r other }
{
    wire_frames::law::one_frame();
    wire_frames::law::one_reading();
}
