//! When parties stand in a world that another one changed, and who runs there.

ghost use Rattle.std.specs.Prelude.{◌≡◌, ◌<◌, ◌≤◌, ℕ, T};
ghost use Rattle.std.specs.List.Sorted.{IsStrictlySortedBy};
ghost use Rattle.std.specs.Map.{keys_of};
ghost use Rattle.std.specs.Ordering.{nat_cmp};
ghost use Rattle.std.specs.FinMap.Entries.{is_sorted};
ghost use Rattle.fuxi_terms.specs.Limits.{most_steps};
ghost use Rattle.agent_core.specs.AgentCores.{AgentCore};
ghost use Rattle.app_master.specs.AppCores.{AppCore};
ghost use Rattle.fuxi_master.specs.Cores.{MasterRecord};
ghost use Rattle.spec_world.specs.World.{World};
ghost use Rattle.spec_refinement.specs.SeenParties.{Kind};
ghost use Rattle.running_parties.specs.Slots.{SlotsRecord, AreOf, AreWithin, MayStep, Stays, slot_at};
ghost use Rattle.running_parties.specs.Peers.{AgentAt, AppAt, AreAgentsOf, AreAppsOf};
ghost use Rattle.running_parties.specs.RunningMasters.{AreMastersOf, MasterAt, epochs_of};

use crate::party::Party;

/// Where a world changes, and what the parties of a kind see of it stays, they stand in it too.
pub fn others_stay<P: Party>()
    ensures { (w w' : World) (k : Kind) (x : SlotsRecord P) → Stays w w' k → AreOf P.stands k w x → AreOf P.stands k w' x }
{}

/// Parties that took fewer steps than they may take have one left, and a greater bound holds of them too.
pub fn steps_left<P: Party>()
    ensures one { (n : ℕ) (x : SlotsRecord P) (m : ℕ) → AreWithin P.steps n x → n < most_steps → MayStep P.steps (slot_at x m) }
    ensures wider { (n l : ℕ) (x : SlotsRecord P) → AreWithin P.steps n x → n ≤ l → AreWithin P.steps l x }
{}

/// Who runs in a world in which agents, applications and masters stand: for whom there is a core, and no other.
pub fn parties_run()
    ensures agents { (w : World) (x : SlotsRecord AgentCore) → AreAgentsOf w x → (m : ℕ) → AgentAt w m (slot_at x m) }
    ensures apps { (w : World) (x : SlotsRecord AppCore) → AreAppsOf w x → (a : ℕ) → AppAt w a (slot_at x a) }
    ensures masters { (w : World) (x : SlotsRecord MasterRecord) → AreMastersOf w x → (e : ℕ) → MasterAt w e (slot_at x e) }
{}

/// The masters that run have the epochs of those of a world that stand in order, in that order.
pub fn epochs_alike()
    ensures { (w : World) (x : SlotsRecord MasterRecord) → T (is_sorted nat_cmp w.masters) → IsStrictlySortedBy nat_cmp (keys_of x.slots) → AreMastersOf w x → epochs_of w.masters ≡ keys_of x.slots }
{}
