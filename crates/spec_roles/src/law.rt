//! The laws. Each function does nothing; its contract is a law of the definitions.

ghost use Rattle.std.specs.Prelude.{◌≡◌, ◌≢◌, ◌⊎◌, ℕ, ◌+◌, ◌-◌, ◌<◌, ◌≤◌, Bool, true, false, List, [], length, take, filter, All, AllPairs, IsPermutation, Some, Ok, T};
ghost use Rattle.fuxi_terms.specs.Cluster.{ClusterRecord};
ghost use Rattle.fuxi_terms.specs.Jobs.{KnownJob};
ghost use Rattle.fuxi_terms.specs.Keys.{key_cmp, Spot, spot_cmp};
ghost use Rattle.fuxi_terms.specs.Lists.{below};
ghost use Rattle.fuxi_terms.specs.Numbers.{has_number};
ghost use Rattle.fuxi_terms.specs.Tables.{held_on};
ghost use Rattle.spec_net.specs.Channels.{is_agent};
ghost use Rattle.spec_net.specs.Ledgers.{Ledger};
ghost use Rattle.spec_net.specs.Net.{Id};
ghost use Rattle.spec_net.specs.Sides.{Side};
ghost use Rattle.spec_roles.specs.MasterRoles.{publish_alone, offers_alone, side_after};
ghost use Rattle.spec_roles.specs.HardState.{HardState};
ghost use Rattle.spec_roles.specs.Masters.{Master};
ghost use Rattle.spec_roles.specs.MasterSteps.{talks, said, told_of, ready, new_master, MasterChange, Begins, Changed, change_of};
ghost use Rattle.spec_roles.specs.Placing.{settled, first_placeable};
ghost use Rattle.std.specs.FinMap.Entries.{is_sorted};
ghost use Rattle.spec_roles.specs.Preemption.{Plan, plan_of};
ghost use Rattle.spec_roles.specs.Losses.{IsLoss, LeavesRoom, IsNeeded, KeepsQuotas};
ghost use Rattle.spec_roles.specs.PlacedInOrder.{AreValid, IsPlacedInOrder};
ghost use Rattle.spec_roles.specs.ServedInOrder.{AreOrdered, AreTriedInOrder, AreWalkedInOrder};
ghost use Rattle.spec_roles.specs.Settling.{NothingPlaceable, Picks, IsWithin, IsFirst};
ghost use Rattle.spec_roles.specs.TakenByQuota.{AreTakenByQuota};
ghost use Rattle.spec_roles.specs.Votes.{VotesRecord, GoesBefore, IsMark, IsNotBehind, cap, is_marked, is_shut, judged, marks, most_votes, number_shut, votes_of};
ghost use Rattle.spec_roles.specs.Transitions.{IsOrderly, GrowsAsAllowed, IsBare, HasAllReports, MayLose, LosesOnlyCredited};

/// Settling ends, and leaves nothing placeable; whoever grants the placeable pair of least rank until there
/// is none has settled; settling keeps each machine's grants within what the machine has; and the pair that is placed
/// has the least rank of all placeable pairs of the line (`first`).
pub fn settling()
    ensures ends { (c : ClusterRecord) (M : Master) → NothingPlaceable c (settled c M) }
    ensures runs { (c : ClusterRecord) (picks : List Spot) (M N : Master) → Picks c M picks N → N ≡ settled c M }
    ensures fits { (c : ClusterRecord) (M : Master) → IsWithin c M → IsWithin c (settled c M) }
    ensures first { (c : ClusterRecord) (M : Master) (s : Spot) → first_placeable c M ≡ Some s → IsFirst c M s }
{}

/// The losers of a plan are single grants of the table, all on the machine that is served, and with what they
/// leave there is room for one more of what is served. Each of them is needed: without it the others are not enough
/// (`needed`). A group that loses some and is not the one that is served keeps its quota in each resource (`spared`).
pub fn preempting()
    ensures grants { (c : ClusterRecord) (M : Master) (p : Plan) → T (is_sorted spot_cmp M.table) → plan_of c M ≡ Some p → IsLoss c M p.served p.losers }
    ensures room { (c : ClusterRecord) (M : Master) (p : Plan) → T (is_sorted spot_cmp M.table) → plan_of c M ≡ Some p → LeavesRoom c M p.served p.losers }
    ensures needed { (c : ClusterRecord) (M : Master) (p : Plan) → plan_of c M ≡ Some p → IsNeeded c M p.served p.losers }
    ensures spared { (c : ClusterRecord) (M : Master) (p : Plan) → plan_of c M ≡ Some p → KeepsQuotas c M p.served p.losers }
{}

/// The end of a master's step, said of each peer: one with whom it talks has what it should hold appended where that
/// is due, and all others stay.
pub fn step_ends()
    ensures { (c : ClusterRecord) (sides : Id → Side) (M : Master) (even_if_equal : List Id) (q : Id) → publish_alone sides (offers_alone c sides M even_if_equal) q ≡ side_after c sides M even_if_equal q }
{}

/// The pair that is placed is a placeable pair of the line, and each other placeable pair of the line has a lower
/// priority, or the same and a greater level, or the same and a later place in the line, or the same and a machine
/// that is not smaller. Of every master whose jobs are valid.
pub fn placed_in_order()
    ensures { (c : ClusterRecord) (M : Master) (s : Spot) → AreValid M.jobs → first_placeable c M ≡ Some s → IsPlacedInOrder c M s }
{}

/// Losers of the group that is served have a lower priority. Each other group that loses keeps at least its quota in
/// every resource without all that it loses, and loses only where what the served group used before, and one more of
/// the unit, are within its quota in every resource. What the served group uses without its losers, and one more, are
/// within its limit.
pub fn preempts_by_quota()
    ensures { (c : ClusterRecord) (M : Master) (p : Plan) → plan_of c M ≡ Some p → AreTakenByQuota c M p.served p.losers }
{}

/// Candidates of a preemption are the pairs of a unit of the line and a machine that is reported, neither banned nor
/// avoided, and where the unit has fewer grants than its greatest number; they are tried by greater priority, then
/// place in the line, then smaller machine (`tried`). The grants of a machine are walked one at a time by lower
/// priority, then greater job, then greater unit (`walked`).
pub fn served_in_order()
    ensures tried { (c : ClusterRecord) (M : Master) → AreValid M.jobs → AreTriedInOrder c M }
    ensures walked { (M : Master) (m : ℕ) → T (is_sorted spot_cmp M.table) → AreWalkedInOrder M m }
{}

/// From one step of a master to the next, a count on a machine that is reported before rises only where then the master
/// serves, the job is live and has the unit, the machine is neither banned nor avoided, what the unit holds is at most
/// what it wants, and the group's usage is within its limit in every resource; on another machine it rises only where
/// that is reported then. By each change of the master (`changes`) and whatever it hears (`hearing`).
pub fn grows_as_allowed()
    ensures changes { (c : ClusterRecord) (M : Master) (x : MasterChange) (d : Changed) → IsOrderly M → change_of c M x ≡ Ok d → GrowsAsAllowed c M (ready c d.state) }
    ensures hearing { (c : ClusterRecord) (M : Master) (fresh taken : Bool) (from : Id) (l : Ledger) → IsOrderly M → GrowsAsAllowed c M (ready c (told_of M fresh taken from (said c M from l))) }
{}

/// The table has nothing on a machine that the master has banned: a new master is so, and each step keeps it.
pub fn banned_machines_are_bare()
    ensures starts { (c : ClusterRecord) (h : HardState) (e : ℕ) → IsBare (ready c (new_master h e)) }
    ensures changes { (c : ClusterRecord) (M : Master) (x : MasterChange) (d : Changed) → IsBare M → change_of c M x ≡ Ok d → IsBare (ready c d.state) }
    ensures hearing { (c : ClusterRecord) (M : Master) (fresh taken : Bool) (from : Id) (l : Ledger) → IsBare M → IsBare (ready c (told_of M fresh taken from (said c M from l))) }
{}

/// A master that did not serve does so behind a step only where a report of every machine of the cluster is adopted, or
/// where it is told to begin; and no report that is adopted is forgotten (`stays`).
pub fn serves_when_told_of_all()
    ensures changes { (c : ClusterRecord) (M : Master) (x : MasterChange) (d : Changed) → change_of c M x ≡ Ok d → M.serving ≡ false → (ready c d.state).serving ≡ true → HasAllReports c (ready c d.state) ⊎ (x ≡ Begins) }
    ensures hearing { (c : ClusterRecord) (M : Master) (fresh taken : Bool) (from : Id) (l : Ledger) → M.serving ≡ false → (ready c (told_of M fresh taken from (said c M from l))).serving ≡ true → HasAllReports c (ready c (told_of M fresh taken from (said c M from l))) }
    ensures stays { (c : ClusterRecord) (M : Master) (fresh taken : Bool) (from : Id) (l : Ledger) (m : ℕ) → has_number m M.reported ≡ true → has_number m (ready c (told_of M fresh taken from (said c M from l))).reported ≡ true }
{}

/// By a change of its own a master's counts fall only on the machine that it bans, of the job that ends, and where it
/// makes room (`changes`). By what it hears of an application, counts of that job alone fall, each at most by what is
/// credited more, from 0 for a new boot (`hearing`).
pub fn loses_only_what_is_credited()
    ensures changes { (c : ClusterRecord) (M : Master) (x : MasterChange) (d : Changed) → change_of c M x ≡ Ok d → (a u m : ℕ) → held_on (ready c d.state).table a u m < held_on M.table a u m → MayLose x a u m }
    ensures hearing { (c : ClusterRecord) (M : Master) (fresh taken : Bool) (from : Id) (l : Ledger) → IsOrderly M → (is_agent from ≡ false → T (is_sorted key_cmp l.entries)) → talks c M from ≡ true → LosesOnlyCredited fresh from M (ready c (told_of M fresh taken from (said c M from l))) }
{}

/// A job marks a machine where it has not ended, wants grants of one unit at least, and every unit of which it wants
/// grants avoids the machine (`only`), and it marks each such machine (`each`).
pub fn marks_where_all_avoid()
    ensures only { (M : Master) (j : KnownJob) (m : ℕ) → marks M j m ≡ true → IsMark M j m }
    ensures each { (M : Master) (j : KnownJob) (m : ℕ) → IsMark M j m → marks M j m ≡ true }
{}

/// Of any votes: no machine is judged twice, and each is there. Each has at least the least votes and is not shut. They
/// stand by more votes and then by the smaller number. A machine that is not shut, has the votes and is not
/// judged remains only where the judged and the shut together are at least the cap. A least number above
/// every vote judges none. And whoever puts the machines that may be judged into that order and cuts them at what
/// the cap leaves has the judged ones.
pub fn judges()
    ensures distinct { (v : VotesRecord) (least percent : ℕ) → AllPairs (λ m n. m ≢ n) (judged v least percent) }
    ensures there { (v : VotesRecord) (least percent : ℕ) → All (λ m. m < length v.votes) (judged v least percent) }
    ensures sound { (v : VotesRecord) (least percent : ℕ) → All (λ m. (least ≤ votes_of v m) × (is_shut v m ≡ false)) (judged v least percent) }
    ensures ordered { (v : VotesRecord) (least percent : ℕ) → AllPairs (GoesBefore v) (judged v least percent) }
    ensures complete { (v : VotesRecord) (least percent m : ℕ) → m < length v.votes → votes_of v m ≤ most_votes → is_shut v m ≡ false → least ≤ votes_of v m → has_number m (judged v least percent) ≡ false → cap v percent ≤ length (judged v least percent) + number_shut v }
    ensures none { (v : VotesRecord) (least percent : ℕ) → All (λ n. n < least) v.votes → judged v least percent ≡ [] }
    ensures sorted { (v : VotesRecord) (least percent : ℕ) (ms : List ℕ) → All (λ n. n ≤ most_votes) v.votes → IsPermutation (filter (is_marked v least) (below (length v.votes))) ms → AreOrdered (IsNotBehind v) ms → judged v least percent ≡ take (cap v percent - number_shut v) ms }
{}
