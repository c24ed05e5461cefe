//! The lines of the applications.

ghost use Rattle.std.specs.Prelude.{◌≡◌, T, OnOk};
ghost use Rattle.std.specs.Ordering.{nat_cmp};
ghost use Rattle.std.specs.FinMap.Entries.{is_sorted};
ghost use Rattle.spec_world.specs.World.{World};
ghost use Rattle.spec_world.specs.Good.{Good};
ghost use Rattle.schedule_text.specs.Writing.{Begins};
ghost use Rattle.party_text.specs.Texts.{Shows};
ghost use Rattle.running_parties.specs.Peers.{AreAppsOf};
ghost use Rattle.schedule_replay.specs.Parts.{AreOfJobs, job_lines, show_apps};

use app_master::AppMaster;
use fuxi_terms::OutOfMemory;
use fuxi_terms::limits::MOST_JOBS;
use party_text::write_app;
use running_parties::Slots;
use schedule_unit::AppNo;

// The application of a job, where one runs.
fn write_app_of(apps: &Slots<AppMaster>, app: AppNo, out: &mut Vec<u8>) -> Result<(), OutOfMemory>
    requires { AreOfJobs apps.now }
    ensures ok { OnOk result ((w : World) → AreAppsOf w apps.now → Shows (job_lines w app.0) out.old.items out.new.items) }
    ensures begins { Begins out.old.items out.new.items }
{
    // What a world prints of an application is what that one prints by itself.
    spec_refinement::law::states_are_alone();
    running_parties::law::parties_run();
    match apps.get(app.0 as u64) {
        Some(master) => match write_app(master, app, out) {
            Ok(()) => Ok(()),
            Err(refusal) => Err(refusal),
        },
        None => Ok(()),
    }
}

// The applications, job by job.
#[tactic(auto, using(spec_refinement::proofs::ShowsLemmas::begins_then))]
pub(crate) fn write_apps(apps: &Slots<AppMaster>, out: &mut Vec<u8>) -> Result<(), OutOfMemory>
    requires { AreOfJobs apps.now }
    ensures ok { OnOk result ((w : World) → Good w → AreAppsOf w apps.now → T (is_sorted nat_cmp w.apps) → Shows (show_apps w) out.old.items out.new.items) }
    ensures begins { Begins out.old.items out.new.items }
{
    for number in 0..MOST_JOBS {
        match write_app_of(apps, AppNo(number), out) {
            Ok(()) => {}
            Err(refusal) => return Err(refusal),
        }
    }
    Ok(())
}
