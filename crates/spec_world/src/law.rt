//! The laws. Each function does nothing; its contract is a law of the definitions.

ghost use Rattle.std.specs.Prelude.{◌≡◌, ℕ, Bool, true, List};
ghost use Rattle.fuxi_terms.specs.declared.Key.{Key};
ghost use Rattle.fuxi_terms.specs.Cluster.{ClusterRecord, is_valid_cluster};
ghost use Rattle.fuxi_terms.specs.Keys.{key_cmp, RowKey, row_cmp, Spot, spot_cmp};
ghost use Rattle.spec_roles.specs.Masters.{Master};
ghost use Rattle.spec_roles.specs.Refusals.{Refusal};
ghost use Rattle.fuxi_terms.specs.Patching.{PatchedByDifference, TalliesByDifference};
ghost use Rattle.spec_net.specs.Net.{Net, Move, move};
ghost use Rattle.spec_net.specs.Ledgers.{Ledger};
ghost use Rattle.spec_net.specs.Sound.{Bounded, Sound, Allowed};
ghost use Rattle.spec_world.specs.World.{World, empty_world};
ghost use Rattle.spec_world.specs.GivesBack.{AllGiveBack};
ghost use Rattle.spec_world.specs.Good.{Good};
ghost use Rattle.spec_world.specs.HeedsDemands.{AllHeed};
ghost use Rattle.spec_world.specs.Judging.{AllJudge};
ghost use Rattle.spec_world.specs.KeepsGrants.{AllAdopt, AllReport, AllStay};
ghost use Rattle.spec_net.specs.Channels.{shape};
ghost use Rattle.spec_world.specs.ShownLast.{AllShown, AllCredited, AllGiveBacks};
ghost use Rattle.spec_world.specs.Credits.{AllCreditedOnce};
ghost use Rattle.spec_world.specs.Safe.{Safe};
ghost use Rattle.spec_world.specs.Starts.{StaysStopped, StartsWithNothing};
ghost use Rattle.spec_world.specs.EventSteps.{AllGrow, AllBare, AllServe, AllLose, IsDone};
ghost use Rattle.spec_world.specs.Events.{Event, is_writing, world_step};
ghost use Rattle.spec_world.specs.Halts.{Halts, StopsNobody};
ghost use Rattle.spec_world.specs.EventRanges.{IsInput, is_from_line};
ghost use Rattle.spec_world.specs.Orders.{IsInOrder};
ghost use Rattle.spec_world.specs.Runs.{run};
ghost use Rattle.spec_world.specs.SentTurns.{AllTurn};

/// Patching with the difference gives the second value, and only the difference does: for entries by key,
/// for rows, for tables, and for tallies with a head and a kind of entry that a new head drops.
pub fn patched_by_difference()
    ensures entries { (greatest : Key → ℕ) → PatchedByDifference key_cmp greatest }
    ensures rows { (greatest : RowKey → ℕ) → PatchedByDifference row_cmp greatest }
    ensures tables { (greatest : Spot → ℕ) → PatchedByDifference spot_cmp greatest }
    ensures tallies { (greatest : Key → ℕ) (dropped : ℕ) → TalliesByDifference greatest dropped }
{}

/// In every state, whatever masters have failed over, whatever was lost, repeated or reordered, and whatever was
/// preempted: each agent's table fits its machine (`capacity`). What an application holds on a machine counts once,
/// as part of one entry of what one master sent it, and together it fits the machine (`once`). A receiver that has
/// caught up has the sender's present ledger (`views`). Where a running master and its peers have nothing left to
/// tell one another, the master, each agent and each application of a job that it knows have the same numbers of
/// each unit on each machine (`agreement`). And no allowed unit waits that fits (`settled`).
pub fn always_safe()
    ensures { (c : ClusterRecord) (events : List Event) → Safe (run c events) }
{}

/// Whatever the parties do, lose, repeat and reorder: no place, no acknowledged index and no packet is past
/// the end of the history that it names.
pub fn nothing_is_past_its_end()
    ensures { (c : ClusterRecord) (events : List Event) → Bounded (run c events).net }
{}

/// The empty world is good.
pub fn good_at_start()
    ensures { (c : ClusterRecord) → Good (empty_world c) }
{}

/// Good is the invariant: each event that a line can give keeps it, on a valid cluster (`kept`), so it holds in every
/// state to which an input leads (`always`), and whatever is good is safe (`safe`).
pub fn every_event_keeps_good()
    ensures kept { (w : World) (e : Event) → is_valid_cluster w.cluster ≡ true → is_from_line e ≡ true → Good w → Good (world_step w e).world }
    ensures always { (c : ClusterRecord) (events : List Event) → IsInput c events → Good (run c events) }
    ensures safe { (w : World) → Good w → Safe w }
{}

/// In every state the net is sound: each place, acknowledged index and packet names an entry that is there, made
/// for the incarnation of the receiver that is meant, and heads never fall. And what a running master would have
/// each of its peers hold is the last entry that it sent there; the last that an agent or an application sent has
/// the epoch that it knows.
pub fn channels_hold()
    ensures sound { (c : ClusterRecord) (events : List Event) → Sound shape (run c events).net }
    ensures shown { (c : ClusterRecord) (events : List Event) → AllShown (run c events) }
{}

/// In every state what a running master has credited to an application that has not ended is exactly what is given
/// back at its place in that application's demands. So no give-back is credited twice under one epoch.
pub fn credited_is_given_back()
    ensures { (c : ClusterRecord) (events : List Event) → AllCredited (run c events) }
{}

/// A give-back is credited at most once, over all masters and epochs, also where one has stopped: what masters of
/// several epochs credited, each at a moment of the run, is together at most what the application gave back
/// (`once`). And of all that any application ever sent: no number given back falls among demands for one epoch, and a
/// demand for another epoch than the one before gives nothing back (`demands`).
pub fn give_backs_are_credited_once()
    ensures once { (c : ClusterRecord) (events : List Event) → AllCreditedOnce c events }
    ensures demands { (c : ClusterRecord) (events : List Event) → AllGiveBacks (run c events).net }
{}

/// A stopped master stays so: behind a stop that is not refused no master of its epoch ever runs. And behind a start
/// that is not refused, what runs of that machine or job has a greater boot than what it replaced.
pub fn a_stopped_master_stays_so()
    ensures { (c : ClusterRecord) (before after : List Event) → StaysStopped c before after }
{}

/// Right behind its start an agent enforces nothing, and an application holds and carries nothing.
pub fn starts_with_nothing()
    ensures { (c : ClusterRecord) (events : List Event) → StartsWithNothing (run c events) }
{}

/// By one event a count of a unit on a machine that its master has as reported rises only where then the master
/// serves, the job is live and has the unit, the machine is neither banned nor avoided, what the unit holds is at most
/// what it wants, and the group's usage is within its limit in every resource. On another machine a count rises only
/// where its report is adopted.
pub fn every_run_grows_as_allowed()
    ensures { (c : ClusterRecord) (events : List Event) → AllGrow (run c events) }
{}

/// No running master has a grant on a machine that it has banned, and a ban that is not refused is then among its bans
/// and those of the hard state.
pub fn every_run_keeps_banned_machines_bare()
    ensures { (c : ClusterRecord) (events : List Event) → AllBare (run c events) }
{}

/// By a demand of a job that is delivered, its counts fall at most by what is credited more, from 0 for a new boot. By
/// other events a count falls only at the ban of its machine, at the end of its job, and by a preemption.
pub fn every_run_loses_only_what_is_credited()
    ensures { (c : ClusterRecord) (events : List Event) → AllLose (run c events) }
{}

/// A serving master has adopted a report of every machine of the cluster, or was told to begin while it ran.
pub fn every_master_serves_when_told_of_all()
    ensures { (c : ClusterRecord) (events : List Event) → AllServe c events }
{}

/// A failover keeps grants. What an adopted report says of a live job, of a unit that it has, with its size, on a
/// machine that is not banned, is at most what the master then holds (`adopts`). An agent that hears of a greater epoch
/// has as its report that epoch and exactly the table that it had before (`reports`). And its table stays until it
/// takes a row, or is started anew (`stays`).
pub fn a_failover_keeps_grants()
    ensures adopts { (c : ClusterRecord) (events : List Event) → AllAdopt (run c events) }
    ensures reports { (c : ClusterRecord) (events : List Event) → AllReport (run c events) }
    ensures stays { (c : ClusterRecord) (events : List Event) → AllStay (run c events) }
{}

/// A give-back that is not refused takes exactly its number from what the application holds of that unit on that
/// machine, and nothing of others: in every run, and in every good world.
pub fn gives_back_what_is_held()
    ensures always { (c : ClusterRecord) (events : List Event) → AllGiveBack (run c events) }
    ensures good { (w : World) → Good w → AllGiveBack w }
{}

/// Demands are heeded. A running master's wishes of a live job are the entries, of units, machines and racks that are
/// there, of the demand at its place of that application in the boot that it knows. At index 0 there are none, so none
/// behind a new boot until a demand of it is taken.
pub fn demands_are_heeded()
    ensures { (c : ClusterRecord) (events : List Event) → AllHeed (run c events) }
{}

/// A master's turn goes to the agents of its cluster and to the applications of all jobs that it knows, ended ones too
/// (`ended`), and sends what each turn to a peer is (`sends`). Where a peer is known, has acknowledged an entry, and 1 to
/// 256 entries stand behind that, a turn to it has no whole ledger: it is the changes to the next entries in order, all
/// of them or the first 64, and an acknowledgement (`changes`).
pub fn turns_go_as_changes()
    ensures { (c : ClusterRecord) (events : List Event) → AllTurn (run c events) }
{}

/// A judgement that is not refused bans exactly the machines that it judges: the bans behind it are those before and the
/// judged ones, and no others. A machine with at least the least votes stays unbanned only where as many machines as
/// the percentage allows are banned. One that judges no machine changes nothing but the number of events.
pub fn every_judgement_bans_what_is_judged()
    ensures { (c : ClusterRecord) (events : List Event) → IsInput c events → AllJudge (run c events) }
{}

/// A stop within a writing that would not be refused prints that it came, and whether behind the writing or before it; the
/// hard state is then the one behind or the one before, the master does not run, and nothing else changes. Behind the
/// stop of a submission, the end of a job, a ban or the end of a ban its master never runs again; one that stopped
/// before its start was written may be started.
pub fn every_halt_stops_its_master()
    ensures { (c : ClusterRecord) (before after : List Event) (calls : ℕ) (all : Bool) (x : Event) → is_writing x ≡ true → IsDone (run c before) x → Halts c before after calls all x }
{}

/// A stop within the writing of a line that is refused prints the refusal, and nothing changes but the number of events.
pub fn a_refused_line_stops_nobody()
    ensures { (w : World) (x : Event) (r : Refusal) → StopsNobody w x r }
{}

/// The parties of the empty world stand in the order of their numbers, as the bans do, and on a valid cluster each event
/// that a line can give keeps it so. Nothing else of the definitions rests on it: what is printed in that order does.
pub fn worlds_in_order()
    ensures start { (c : ClusterRecord) → IsInOrder (empty_world c) }
    ensures kept { (w : World) (e : Event) → is_valid_cluster w.cluster ≡ true → is_from_line e ≡ true → IsInOrder w → IsInOrder (world_step w e).world }
{}
