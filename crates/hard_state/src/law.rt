//! The laws of the definitions. Each function does nothing; its contract is a law.

ghost use Rattle.std.specs.Prelude.{◌≡◌, ◌≤◌, ℕ, List, length, Some, true, ◌+◌, ◌*◌};
ghost use Rattle.fuxi_terms.specs.Cluster.{JobRecord, is_valid_job};
ghost use Rattle.hard_state.specs.declared.records.Record.{Record as RecordSeen};
ghost use Rattle.hard_state.specs.declared.records.Record.TheVariants.{Submission};
ghost use Rattle.hard_state.specs.RecordBodies.{body_of, record_in, IsWithinLimits};

/// What is written of a record within the limits is read back as that record, and has at most 563 bytes. A job has 11 and 69
/// for each unit.
pub fn written_is_read()
    ensures read { (r : RecordSeen) → IsWithinLimits r → record_in (body_of r) ≡ Some r }
    ensures short { (r : RecordSeen) → IsWithinLimits r → length (body_of r) ≤ 563 }
    ensures only { (body : List ℕ) (r : RecordSeen) → record_in body ≡ Some r → length body ≤ 563 }
    ensures long { (job : JobRecord) → is_valid_job 8 job ≡ true → length (body_of (Submission job)) ≡ 11 + 69 * length job.units }
{}
