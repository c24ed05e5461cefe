//! Laws of what an allotment stands for. Each function does nothing: its contract is the law.

ghost use Rattle.std.specs.Prelude.{◌≡◌, ℕ, List};
ghost use Rattle.fuxi_terms.specs.Cluster.{ClusterRecord};
ghost use Rattle.fuxi_terms.specs.Jobs.{KnownJob, job_numbers};
ghost use Rattle.spec_roles.specs.HardState.{with_ended};
ghost use Rattle.allotment.specs.Allotted.{AllotmentRecord, Allots};
ghost use Rattle.spec_roles.specs.Masters.{Master, asked};
ghost use Rattle.allotment.specs.PlacingReads.{record_of};
ghost use Rattle.spec_roles.specs.Placing.{line_after, line_up};

/// A line is brought up to date alike whether the units with nothing out have left it before or not. So it plays no
/// part that they leave it at once when a plan is carried out.
pub fn lines_alike()
    ensures { (M : Master) → line_up (record M { line = line_after (asked M) M.table M.line }) ≡ line_up M }
{}

/// Whether a job has ended plays no part in what an allotment stands for: its number and its record stay.
pub fn ends_alike()
    ensures numbers { (a : ℕ) (xs : List KnownJob) → job_numbers (with_ended a xs) ≡ job_numbers xs }
    ensures records { (a : ℕ) (xs : List KnownJob) (b : ℕ) → record_of (with_ended a xs) b ≡ record_of xs b }
    ensures alike { (x : AllotmentRecord) (c : ClusterRecord) (M : Master) (a : ℕ) → Allots x c M → Allots x c (record M { jobs = with_ended a M.jobs }) }
{}
