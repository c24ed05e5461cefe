//! Worked runs: schedules of events with the text that they print, each computed from the definitions of
//! the written world. A run stands in `specs/`, as its cluster, its events, its lines and its last state;
//! here the check says that the definitions give that text, line by line.
#![tactic(auto)]

ghost use Rattle.worked_runs.specs.RunWords.{Computes};
ghost use Rattle.worked_runs.specs.FirstGrants.{a_cluster_alone_run, at_most_two_on_a_machine_run, four_fit_and_one_waits_run, level_goes_before_the_line_run, near_goes_first_run, one_resource_is_too_small_run};
ghost use Rattle.worked_runs.specs.Deltas.{deliveries_again_and_to_no_one_run, deltas_out_of_order_run, more_changes_than_are_kept_run, sixty_four_deltas_in_a_turn_run};
ghost use Rattle.worked_runs.specs.Failover.{a_report_of_a_new_boot_run, begin_and_a_late_report_run, failover_after_a_give_back_run, failover_with_a_missing_report_run, the_older_master_first_run, two_masters_at_once_run};
ghost use Rattle.worked_runs.specs.RefusedRuns.{refusals_of_an_application_run, refusals_of_the_hard_state_run};
ghost use Rattle.worked_runs.specs.Preemptions.{a_give_back_crosses_a_preemption_run, preemption_passes_a_bounded_machine_run, quota_shields_a_group_run, victims_that_are_not_needed_stay_run};
ghost use Rattle.worked_runs.specs.Realistic.{twenty_machines_and_a_failover_run};
ghost use Rattle.worked_runs.specs.LimitRuns.{a_limit_counts_where_nothing_is_needed_run, a_limit_stops_placing_run, a_rack_goes_before_the_rest_run, an_avoided_machine_gets_nothing_new_run, the_line_goes_before_the_machine_run};
ghost use Rattle.worked_runs.specs.HardChanges.{a_report_of_a_banned_machine_run, finish_with_grants_out_run, stops_and_starts_that_are_refused_run, unban_settles_run};
ghost use Rattle.worked_runs.specs.Again.{a_new_boot_counts_again_run, an_ack_of_an_older_index_run, resync_sends_the_whole_again_run};
ghost use Rattle.worked_runs.specs.TakenFirst.{quota_takes_from_a_group_above_its_own_run, the_greater_job_loses_first_run};
ghost use Rattle.worked_runs.specs.CarriedGrants.{a_give_back_of_what_is_not_wanted_run, carried_over_two_epochs_run};
ghost use Rattle.worked_runs.specs.Judgements.{a_job_marks_with_all_that_it_wants_run, a_judgement_takes_the_grants_run};
ghost use Rattle.worked_runs.specs.Stops.{a_submission_before_and_behind_run, each_writing_stops_run};
ghost use Rattle.worked_runs.specs.Alone.{AgentAlone, AppAlone, MasterAlone};
ghost use Rattle.worked_runs.specs.PacketContents.{what_packets_hold_run};

/// A cluster without an event has the empty state.
pub fn a_cluster_alone()
    ensures { Computes a_cluster_alone_run }
{}

/// Four grants fit exactly in both resources, and one waits.
pub fn four_fit_and_one_waits()
    ensures { Computes four_fit_and_one_waits_run }
{}

/// Of a unit that may have two grants on a machine three wait, though there is room.
pub fn at_most_two_on_a_machine()
    ensures { Computes at_most_two_on_a_machine_run }
{}

/// Preemption passes a machine on which the unit that waits has its greatest number.
pub fn preemption_passes_a_bounded_machine()
    ensures { Computes preemption_passes_a_bounded_machine_run }
{}

/// A unit that is too great in one resource alone is not granted.
pub fn one_resource_is_too_small()
    ensures { Computes one_resource_is_too_small_run }
{}

/// A unit that is near a machine gets it before one that is earlier in the line.
pub fn near_goes_first()
    ensures { Computes near_goes_first_run }
{}

/// The level counts before the place in the line, also where the earlier one wants every machine.
pub fn level_goes_before_the_line()
    ensures { Computes level_goes_before_the_line_run }
{}

/// A Delta is taken in its turn alone: past a gap it is not taken, and a second time it is old.
pub fn deltas_out_of_order()
    ensures { Computes deltas_out_of_order_run }
{}

/// Past 256 open changes a turn sends the whole ledger.
pub fn more_changes_than_are_kept()
    ensures { Computes more_changes_than_are_kept_run }
{}

/// With 256 open changes a turn sends the next 64 of them.
pub fn sixty_four_deltas_in_a_turn()
    ensures { Computes sixty_four_deltas_in_a_turn_run }
{}

/// A packet may be delivered again and again, and is lost where nobody runs.
pub fn deliveries_again_and_to_no_one()
    ensures { Computes deliveries_again_and_to_no_one_run }
{}

/// A restarted agent reports nothing, and the report changes nothing.
pub fn a_report_of_a_new_boot()
    ensures { Computes a_report_of_a_new_boot_run }
{}

/// A give-back that was credited under one epoch is not credited under the next.
pub fn failover_after_a_give_back()
    ensures { Computes failover_after_a_give_back_run }
{}

/// A master that lacks a report does not serve, and the application carries what it cannot see.
pub fn failover_with_a_missing_report()
    ensures { Computes failover_with_a_missing_report_run }
{}

/// A master serves from begin on, adopts a late report, and does not adopt it twice.
pub fn begin_and_a_late_report()
    ensures { Computes begin_and_a_late_report_run }
{}

/// Packets of the older master are stale for all that joined the newer one.
pub fn two_masters_at_once()
    ensures { Computes two_masters_at_once_run }
{}

/// A restarted agent may hear the older master first, and then joins the newer one with that row.
pub fn the_older_master_first()
    ensures { Computes the_older_master_first_run }
{}

/// What the hard state refuses, each for its reason.
pub fn refusals_of_the_hard_state()
    ensures { Computes refusals_of_the_hard_state_run }
{}

/// What an application refuses, each for its reason.
pub fn refusals_of_an_application()
    ensures { Computes refusals_of_an_application_run }
{}

/// A grant that is preempted and given back at once is taken once.
pub fn a_give_back_crosses_a_preemption()
    ensures { Computes a_give_back_crosses_a_preemption_run }
{}

/// Of the grants that were walked, those that are not needed stay.
pub fn victims_that_are_not_needed_stay()
    ensures { Computes victims_that_are_not_needed_stay_run }
{}

/// A group that would fall below its quota loses nothing.
pub fn quota_shields_a_group()
    ensures { Computes quota_shields_a_group_run }
{}

/// Twenty machines, five jobs, a preemption that is lost with its master, and a failover that keeps every grant.
pub fn twenty_machines_and_a_failover()
    ensures { Computes twenty_machines_and_a_failover_run }
{}

/// A group that has reached its limit gets no more, though its machine has room; another group goes on.
pub fn a_limit_stops_placing()
    ensures { Computes a_limit_stops_placing_run }
{}

/// Where a group has room for one grant alone, the unit that waits first gets it, and not the one behind it on a
/// smaller machine.
pub fn the_line_goes_before_the_machine()
    ensures { Computes the_line_goes_before_the_machine_run }
{}

/// A group above its limit in one resource gets nothing, also where the unit needs none of that resource.
pub fn a_limit_counts_where_nothing_is_needed()
    ensures { Computes a_limit_counts_where_nothing_is_needed_run }
{}

/// A unit that wants a rack gets machines of that rack first, and the others once the rack has as many as it wants.
pub fn a_rack_goes_before_the_rest()
    ensures { Computes a_rack_goes_before_the_rest_run }
{}

/// A machine that is avoided gets no new grant, keeps those that it has, and gets more once it is avoided no longer.
pub fn an_avoided_machine_gets_nothing_new()
    ensures { Computes an_avoided_machine_gets_nothing_new_run }
{}

/// Finishing a job takes its grants at once, gives them to others, and its application holds none once it hears.
pub fn finish_with_grants_out()
    ensures { Computes finish_with_grants_out_run }
{}

/// A ban takes every grant on the machine, and where the ban ends the master places at once.
pub fn unban_settles()
    ensures { Computes unban_settles_run }
{}

/// After a resync a party sends the whole of its last entry, which is old where it was taken before.
pub fn resync_sends_the_whole_again()
    ensures { Computes resync_sends_the_whole_again_run }
{}

/// Of a report of a banned machine nothing is kept, and of one that names an ended job only the rest.
pub fn a_report_of_a_banned_machine()
    ensures { Computes a_report_of_a_banned_machine_run }
{}

/// With a new boot of an application its credited numbers start again, so the same number given back is credited again.
pub fn a_new_boot_counts_again()
    ensures { Computes a_new_boot_counts_again_run }
{}

/// An Ack of an older index comes too late to lower what is acknowledged, and Deltas go on from the newest one.
pub fn an_ack_of_an_older_index()
    ensures { Computes an_ack_of_an_older_index_run }
{}

/// Of two jobs with one priority the one with the greater number loses its grants first, and of one job the greater unit.
pub fn the_greater_job_loses_first()
    ensures { Computes the_greater_job_loses_first_run }
{}

/// A group below its quota takes from one that is above its own, until that has only its quota left.
pub fn quota_takes_from_a_group_above_its_own()
    ensures { Computes quota_takes_from_a_group_above_its_own_run }
{}

/// What an application holds on a machine that two masters in turn have no report of is carried under both, from its first place.
pub fn carried_over_two_epochs()
    ensures { Computes carried_over_two_epochs_run }
{}

/// What is given back stays away where less is wanted, and comes back where it is still wanted.
pub fn a_give_back_of_what_is_not_wanted()
    ensures { Computes a_give_back_of_what_is_not_wanted_run }
{}

/// Starts must rise, a fenced master writes nothing, and no event goes to one that does not run.
pub fn stops_and_starts_that_are_refused()
    ensures { Computes stops_and_starts_that_are_refused_run }
{}

/// A judgement bans the machines that enough jobs mark, those with more votes first, and takes the grants there.
pub fn a_judgement_takes_the_grants()
    ensures { Computes a_judgement_takes_the_grants_run }
{}

/// A job marks a machine that each unit of which it wants grants avoids; a job that wants nothing marks none.
pub fn a_job_marks_with_all_that_it_wants()
    ensures { Computes a_job_marks_with_all_that_it_wants_run }
{}

/// A submission that stops before it is written and one that stops behind, with their masters, and a start that stops behind.
pub fn a_submission_before_and_behind()
    ensures { Computes a_submission_before_and_behind_run }
{}

/// Each of the five writings stops its master, a refused one nobody's; one that stopped before its start is started.
pub fn each_writing_stops()
    ensures { Computes each_writing_stops_run }
{}

/// What is printed of packets: an Ack holds nothing, a Delta what changed, and the others whole ledgers.
pub fn what_packets_hold()
    ensures { Computes what_packets_hold_run }
{}

/// An agent by itself: it takes a row and a change, refuses a row that is too much and a change that falls below 0,
/// and carries its table to the next master.
pub fn an_agent_by_itself()
    ensures { AgentAlone }
{}

/// An application by itself: it gives back what is usable, and carries the rest to the next master.
pub fn an_application_by_itself()
    ensures { AppAlone }
{}

/// A master by itself: it adopts one report, finds another too much, and meets a demand.
pub fn a_master_by_itself()
    ensures { MasterAlone }
{}
