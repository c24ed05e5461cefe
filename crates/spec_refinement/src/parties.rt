//! The laws. Each function does nothing; its contract is a law of the definitions.

ghost use Rattle.std.specs.Prelude.{◌≡◌, ◌<◌, ℕ, Some, slice_get};
ghost use Rattle.spec_net.specs.Net.{Packet};
ghost use Rattle.spec_net.specs.Channels.{agent_id, app_id};
ghost use Rattle.spec_roles.specs.Apps.{AppCommand};
ghost use Rattle.spec_roles.specs.HardState.{HardState};
ghost use Rattle.spec_roles.specs.MasterSteps.{MasterCommand};
ghost use Rattle.spec_world.specs.World.{World};
ghost use Rattle.spec_world.specs.Good.{Good};
ghost use Rattle.spec_refinement.specs.Leading.{AllLead};
ghost use Rattle.spec_refinement.specs.SeenParties.{Kind, Masters, Apps, seen, IsFor, ComesTo, TakesTurn, Resyncs, Asks, Governs, AgentStarts, AppStarts, MasterStarts};

/// A packet that comes to a party, its turn and its resync, of all kinds at once; a command of an application and of a master; and a
/// start of each kind.
pub fn parties_join()
    ensures hears { (w : World) (k : Kind) (n which : ℕ) (x : Packet) → Good w → AllLead w → slice_get w.net.packets which ≡ Some x → IsFor x k n → ComesTo w k n x (seen w k n) }
    ensures turns { (w : World) (k : Kind) (n : ℕ) → Good w → TakesTurn w k n (seen w k n) }
    ensures resyncs { (w : World) (k : Kind) (n : ℕ) → Good w → Resyncs w k n (seen w k n) }
    ensures asks { (w : World) (a : ℕ) (x : AppCommand) → Good w → Asks w a x (seen w Apps a) }
    ensures governs { (w : World) (e : ℕ) (x : MasterCommand) → Good w → Governs w e x (seen w Masters e) }
    ensures agents_start { (w : World) (m b : ℕ) → Good w → w.boots (agent_id m) < b → AgentStarts w m b }
    ensures apps_start { (w : World) (a b : ℕ) → Good w → w.boots (app_id a) < b → AppStarts w a b }
    ensures masters_start { (w : World) (h : HardState) (e : ℕ) → Good w → w.hard.fence < e → MasterStarts w h e }
{
    crate::law::agents_join();
    crate::law::apps_join();
    crate::law::masters_join();
    crate::law::kept_reports_lead();
}
