//! The laws. Each function does nothing; its contract is a law of the definitions.

ghost use Rattle.std.specs.Prelude.{◌≡◌, ℕ, List, Option, Some, true, [], ◌∷◌, length, slice_get};
ghost use Rattle.std.specs.Ordering.{nat_cmp};
ghost use Rattle.std.specs.FinMap.Entries.{find};
ghost use Rattle.fuxi_terms.specs.declared.vectors.Res.{Res};
ghost use Rattle.fuxi_terms.specs.declared.vectors.Sum.{Sum};
ghost use Rattle.spec_net.specs.Net.{Party, Id, Packet};
ghost use Rattle.spec_net.specs.Ledgers.{Ledger};
ghost use Rattle.spec_net.specs.Channels.{master_id, agent_id, app_id, party, shape, HasJoined};
ghost use Rattle.spec_net.specs.Sound.{Sound};
ghost use Rattle.spec_roles.specs.HardState.{HardState};
ghost use Rattle.spec_roles.specs.Masters.{Master};
ghost use Rattle.spec_roles.specs.MasterSteps.{master_party, talks, peers, MasterCommand};
ghost use Rattle.spec_roles.specs.Agents.{row_excess, agent_turn, agent_resynced};
ghost use Rattle.spec_roles.specs.Apps.{AppCommand, no_excess, commands_alone, app_turn, app_resynced};
ghost use Rattle.spec_roles.specs.MasterRoles.{master_turn, master_resynced, master_commanded, report_excess as kept_excess};
ghost use Rattle.spec_world.specs.World.{World, Agent, App};
ghost use Rattle.spec_world.specs.Show.{show_agent, show_app};
ghost use Rattle.spec_world.specs.Events.{asks, commanded, turned, turn_to_master, resynced};
ghost use Rattle.spec_refinement.specs.SeenWorlds.{has_of, agent_seen, app_seen, master_seen};
ghost use Rattle.spec_refinement.specs.PartyJoins.{AgentActs, AppActs, MasterActs, AgentHearsAlike, AppHearsAlike, MasterHearsAlike, AgentStarts, AppStarts, MasterStarts, AppCommanded, MasterCommanded, Leads};
ghost use Rattle.spec_refinement.specs.Leading.{RowsLead, TalliesLead, ReportsFit, AllLead, report_excess};
ghost use Rattle.spec_refinement.specs.States.{agent_lines, app_lines};
ghost use Rattle.fuxi_terms.specs.Cluster.{ClusterRecord, is_valid_cluster};
ghost use Rattle.fuxi_terms.specs.Lists.{below};
ghost use Rattle.spec_world.specs.Good.{Good};
ghost use Rattle.spec_world.specs.Events.{Event};
ghost use Rattle.spec_world.specs.EventRanges.{IsInput};
ghost use Rattle.spec_world.specs.Runs.{run};

/// An agent, in a sound net: it hears each packet, also of a stranger or an earlier master, as the agent by itself
/// hears it with what it holds (`hears`); it sends what that sends (`turns`); a resync (`resyncs`); a start (`starts`).
pub fn agents_join()
    ensures hears { (w : World) (m : ℕ) (g : Agent) (which : ℕ) (x : Packet) → slice_get w.net.packets which ≡ Some x → Sound shape w.net → HasJoined w.net (party (agent_id m) g.boot)
        → (x.from.id ≡ master_id → Leads (row_excess (has_of w m)) x.from.id x.to.id (w.net.histories x.from x.to.id)) → AgentHearsAlike w m g x }
    ensures turns { (w : World) (m : ℕ) (g : Agent) → Sound shape w.net → AgentActs w (turn_to_master w (party (agent_id m) g.boot)).world m g (agent_seen w m g) (agent_turn (agent_seen w m g)) }
    ensures resyncs { (w : World) (m : ℕ) (g : Agent) → Sound shape w.net → AgentActs w (resynced w (party (agent_id m) g.boot) (master_id ∷ [])).world m g (agent_resynced (agent_seen w m g)) [] }
    ensures starts { (w : World) (m b : ℕ) → Sound shape w.net → ((q : Id) → w.net.histories (party (agent_id m) b) q ≡ []) → AgentStarts w m b }
{}

/// The same of an application; each of its commands makes the demand, or is refused, as by itself (`asks`).
pub fn apps_join()
    ensures hears { (w : World) (a : ℕ) (g : App) (which : ℕ) (x : Packet) → slice_get w.net.packets which ≡ Some x → Sound shape w.net → HasJoined w.net (party (app_id a) g.boot)
        → (x.from.id ≡ master_id → Leads no_excess x.from.id x.to.id (w.net.histories x.from x.to.id)) → AppHearsAlike w a g x }
    ensures asks { (w : World) (a : ℕ) (g : App) (x : AppCommand) → Sound shape w.net → find nat_cmp a w.apps ≡ Some g → AppCommanded w a g (asks w a x) (commands_alone (app_seen w a g) x) }
    ensures turns { (w : World) (a : ℕ) (g : App) → Sound shape w.net → AppActs w (turn_to_master w (party (app_id a) g.boot)).world a g g (app_seen w a g) (app_turn (app_seen w a g)) }
    ensures resyncs { (w : World) (a : ℕ) (g : App) → Sound shape w.net → AppActs w (resynced w (party (app_id a) g.boot) (master_id ∷ [])).world a g g (app_resynced (app_seen w a g)) [] }
    ensures starts { (w : World) (a b : ℕ) → Sound shape w.net → ((q : Id) → w.net.histories (party (app_id a) b) q ≡ []) → AppStarts w a b }
{}

/// The same of a master, whatever it finds too much (`hears`); each of its commands writes the hard state and changes
/// the master, or is refused, as by itself (`commands`).
pub fn masters_join()
    ensures hears { (excess : Id → Ledger → Option (Sum × Res)) (w : World) (M : Master) (which : ℕ) (x : Packet) → slice_get w.net.packets which ≡ Some x → Sound shape w.net → x.to.id ≡ master_id
        → (talks w.cluster M x.from.id ≡ true → Leads (excess x.from.id) x.from.id x.to.id (w.net.histories x.from x.to.id)) → MasterHearsAlike excess w M x }
    ensures commands { (w : World) (e : ℕ) (M : Master) (x : MasterCommand) → Sound shape w.net → find nat_cmp e w.masters ≡ Some M → MasterCommanded w M (commanded w e x) (master_commanded (master_seen w M) w.hard x) }
    ensures turns { (w : World) (M : Master) → Sound shape w.net → MasterActs w (turned w (master_party M) (peers w.cluster M)).world M M (master_seen w M) (master_turn (master_seen w M)) }
    ensures resyncs { (w : World) (M : Master) → Sound shape w.net → MasterActs w (resynced w (master_party M) (peers w.cluster M)).world M M (master_resynced (master_seen w M)) [] }
    ensures starts { (w : World) (h : HardState) (ran : List Party) (e : ℕ) → Sound shape w.net → ((q : Id) → w.net.histories (party master_id e) q ≡ []) → MasterStarts w h ran e }
{}

/// When each entry of a history follows on the one before by the change between them, and none is too much: of rows,
/// grants, demands and reports.
pub fn histories_lead()
    ensures rows { (has : List ℕ) (m : ℕ) (h : List Ledger) → RowsLead has h → Leads (row_excess has) master_id (agent_id m) h }
    ensures grants { (a : ℕ) (h : List Ledger) → TalliesLead master_id h → Leads no_excess master_id (app_id a) h }
    ensures demands { (a : ℕ) (excess : Ledger → Option (Sum × Res)) (h : List Ledger) → TalliesLead (app_id a) h → ReportsFit (app_id a) excess h → Leads excess (app_id a) master_id h }
    ensures reports { (m : ℕ) (excess : Ledger → Option (Sum × Res)) (h : List Ledger) → ReportsFit (agent_id m) excess h → Leads excess (agent_id m) master_id h }
{}

/// What a master itself finds too much is of the entries that it would keep, and only of a report that it adopts. Where no
/// whole report of a history is too much, that never is either.
pub fn kept_reports_lead()
    ensures { (c : ClusterRecord) (M : Master) (from to : Id) (h : List Ledger) → Leads (report_excess c from) from to h → Leads (kept_excess c M from) from to h }
{}

/// In a good world of a valid cluster each entry of each history follows on the one before by the change between them, and
/// none is too much: of rows, grants, demands and reports, of every epoch and boot that ever ran, also of those that have
/// stopped (`good`). So it is in every state to which event lines lead (`always`): no change is ever refused, and nothing
/// ever exceeds.
pub fn every_change_is_taken()
    ensures good { (w : World) → is_valid_cluster w.cluster ≡ true → Good w → AllLead w }
    ensures always { (c : ClusterRecord) (events : List Event) → IsInput c events → AllLead (run c events) }
{}

/// What the world prints of the state of an agent or of an application is what that one prints by itself: who runs one party
/// alone has no world to ask.
pub fn states_are_alone()
    ensures agent { (w : World) (m : ℕ) (g : Agent) → show_agent w.net m g ≡ agent_lines (agent_seen w m g) }
    ensures app { (w : World) (a : ℕ) (g : App) → show_app w.net (below (length w.cluster.machines)) a g ≡ app_lines (app_seen w a g) }
{}
