pub use fuxi_terms::{Key, LedgerFault, OutOfMemory};
use std::alloc::Global;

/// Why no value was read.
#[derive(Clone, Copy, Debug, Drop, PartialEq, Eq)]
pub enum BodyFault {
    /// The bytes are no written form.
    NotBody,
    /// Memory was refused.
    OutOfMemory,
}

impl From<OutOfMemory> for BodyFault {
    ghost use Rattle.ledger_law.specs.declared.ledger.BodyFault.TheVariants.{OutOfMemory as WantOfMemory};
    ghost use Rattle.std.specs.Prelude.{◌≡◌};

    ghost from_gives = { λ _ fault. fault ≡ WantOfMemory };

    fn from(_error: OutOfMemory) -> BodyFault {
        BodyFault::OutOfMemory
    }
}

/// A value that is changed by changes, which can be sent in its place, and that can be sent itself.
///
/// What a change makes of a value is a function of both, `patched`. Values and changes have written
/// forms; a form is read back as its value, and none begins another.
pub trait Ledger: Sized + Drop {
    ghost use Rattle.std.specs.Prelude.{◌≡◌, ◌++◌, ℕ, List, Result, IfOk, OnOk, OnErr};
    ghost use Rattle.fuxi_terms.specs.declared.answers.LedgerFault.{LedgerFault};
    ghost use Rattle.ledger_law.specs.Applying.{Applies};
    ghost use Rattle.ledger_law.specs.ReadForms.{Reads};
    ghost use Rattle.ledger_law.specs.Differing.{ByDifference};

    /// A change of a value.
    type Delta: Drop;

    /// The value with no entry.
    ghost nothing: { Self };

    /// The value after a change, or the first refusal.
    ghost patched: { Self → Self.Delta → Result Self LedgerFault };

    /// The changes that there are.
    ghost is_change: { Self.Delta → Type 0 };

    /// The change from one value to another.
    ghost difference: { Self → Self → Self.Delta };

    /// The difference of two values can be made on its way.
    ghost reaches: { Self → Self → Type 0 };

    /// The values that there are, each of which has a written form.
    ghost has_form: { Self → Type 0 };

    /// The written form of a value.
    ghost form: { Self → List ℕ };

    /// The changes that have a written form.
    ghost has_delta_form: { Self.Delta → Type 0 };

    /// The written form of a change.
    ghost delta_form: { Self.Delta → List ℕ };

    /// The value with no entry.
    fn empty(alloc: Global) -> Self
        ensures { result ≡ nothing };

    /// Makes a change. A fault leaves the value as it was.
    fn apply(&mut self, alloc: Global, change: &Self::Delta) -> Result<(), LedgerFault>
        ensures { Applies (patched self.old change.now) self.old self.new result };

    /// The same value once more.
    fn copy(&self, alloc: Global) -> Result<Self, OutOfMemory>
        ensures { IfOk result (λ copy. copy ≡ self.now) };

    /// The same change once more.
    fn copy_delta(alloc: Global, change: &Self::Delta) -> Result<Self::Delta, OutOfMemory>
        ensures { IfOk result (λ copy. copy ≡ change.now) };

    /// Appends the written form of the value. The bytes are as they were after a refusal.
    fn write_full(&self, out: &mut Vec<u8>) -> Result<(), OutOfMemory>
        ensures has_form { has_form self.now }
        ensures ok { OnOk result (out.new.items ≡ out.old.items ++ form self.now) }
        ensures err { OnErr result (out.new.items ≡ out.old.items) };

    /// Reads a value. `NotBody` comes exactly where the bytes are the form of none.
    fn read_full(alloc: Global, body: &[u8]) -> Result<Self, BodyFault>
        ensures { Reads has_form form body.now result };

    /// Appends the written form of a change. The bytes are as they were after a refusal.
    fn write_delta(change: &Self::Delta, out: &mut Vec<u8>) -> Result<(), OutOfMemory>
        requires { has_delta_form change.now }
        ensures ok { OnOk result (out.new.items ≡ out.old.items ++ delta_form change.now) }
        ensures err { OnErr result (out.new.items ≡ out.old.items) };

    /// Reads a change. `NotBody` comes exactly where the bytes are the form of none.
    fn read_delta(alloc: Global, body: &[u8]) -> Result<Self::Delta, BodyFault>
        ensures { Reads has_delta_form delta_form body.now result };

    /// The difference of two values leads from the one to the other, and no other change does.
    ghost by_difference: { ByDifference has_form is_change reaches patched difference };

    /// A form is read back as its value, and none begins another.
    ghost one_form: { (a b : Self) (x y : List ℕ) → has_form a → has_form b → form a ++ x ≡ form b ++ y → a ≡ b };

    /// The same of changes.
    ghost one_delta_form: { (a b : Self.Delta) (x y : List ℕ) → has_delta_form a → has_delta_form b → delta_form a ++ x ≡ delta_form b ++ y → a ≡ b };
}
