//! What placing and preempting ask and answer.

use schedule_unit::{AppNo, MachineNo, UnitNo};

/// One grant to be made.
#[derive(Clone, Copy, Debug, PartialEq, Eq)]
pub struct Pick {
    /// The job.
    pub app: AppNo,
    /// The unit of that job.
    pub unit: UnitNo,
    /// The machine on which it is granted.
    pub machine: MachineNo,
}

/// Who waits for grants, and where they may be made.
pub trait Asking {
    ghost use Rattle.std.specs.Prelude.{◌≡◌, ℕ, ◌<◌, Bool, List, length, slice_get, Some};
    ghost use Rattle.fuxi_terms.specs.Keys.{Pair};

    /// The waiting pairs of a job and a unit, in their order.
    ghost line: { Self → List Pair };

    /// Whether a unit of a job may be granted on a machine: it is reported, not banned and not avoided.
    ghost usable: { Self → ℕ → ℕ → ℕ → Bool };

    /// How many pairs wait.
    fn waiting_len(&self) -> usize
        ensures { result ≡ length (line self.now) };

    /// The pair at a place of the line, counted from 0.
    fn waiting_at(&self, index: usize) -> (AppNo, UnitNo)
        requires { index < length (line self.now) }
        ensures { slice_get (line self.now) index ≡ Some (result.0.0, result.1.0) };

    /// Whether the unit may be granted on the machine: it is reported, not banned and not avoided. False where
    /// there is no such unit or machine.
    fn may_use(&self, app: AppNo, unit: UnitNo, machine: MachineNo) -> bool
        ensures { result ≡ usable self.now app.0 unit.0 machine.0 };
}
