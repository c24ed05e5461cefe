ghost use Rattle.std.specs.Prelude.{◌≡◌};

use crate::carried::Carried;
use fuxi_terms::{Res, Sum};
use ledger_law::LedgerFault;

/// A ledger takes more than there is.
#[derive(Clone, Copy, Debug, Drop, PartialEq, Eq)]
pub struct Excess {
    /// What it takes.
    pub total: Sum,
    /// What there is.
    pub has: Res,
}

/// Why a change is not taken.
#[derive(Clone, Copy, Debug, Drop, PartialEq, Eq)]
pub enum Refusal {
    /// The ledger that was received refuses it.
    Ledger(LedgerFault),
    /// What it makes takes more than there is.
    Exceeds { total: Sum, has: Res },
}

/// A party's own test of the ledgers that it receives: whether one is too much. What it measures of the ledger that it
/// has is kept, so that a change is tested without a walk of that ledger.
pub trait Limit<B: Carried> {
    ghost use Rattle.std.specs.Prelude.{◌≡◌, Option};
    ghost use Rattle.fuxi_terms.specs.declared.vectors.Res.{Res};
    ghost use Rattle.fuxi_terms.specs.declared.vectors.Sum.{Sum};
    ghost use Rattle.spec_net.specs.Ledgers.{Ledger as WrittenLedger};
    ghost use Rattle.peer_channel.specs.Testing.{Weighs, WeighsChange};

    /// What is measured of a ledger.
    type Measure: Drop;

    /// By how much a ledger is too much: what it takes, and what there is.
    ghost excess: { Self → WrittenLedger → Option (Sum × Res) };

    /// The measure is that of the ledger, which is not too much.
    ghost measures: { Self → Self.Measure → B → Type 0 };

    /// The measure of the ledger with no entry.
    fn nothing(&self) -> Self::Measure
        ensures { measures self.now result B.nothing };

    /// Tests a whole ledger and measures it. The fault says how much it is too much.
    fn whole(&self, ledger: &B) -> Result<Self::Measure, Excess>
        ensures { Weighs (λ m. measures self.now m ledger.now) (excess self.now (B.stated ledger.now)) result };

    /// Tests what a change would make of the ledger that was received, and measures that. The ledger's own refusal comes first;
    /// a limit that nothing exceeds may leave it to the change itself.
    fn change(
        &self,
        measure: &Self::Measure,
        ledger: &B,
        change: &B::Delta,
    ) -> Result<Self::Measure, Refusal>
        requires measured { measures self.now measure.now ledger.now }
        requires form { B.has_delta_form change.now }
        ensures { WeighsChange (λ m w. measures self.now m w) (λ w. excess self.now (B.stated w)) (B.patched ledger.now change.now) result };
}

/// Nothing is too much.
#[derive(Clone, Copy, Debug, Drop)]
pub struct NoLimit;

impl<B: Carried> Limit<B> for NoLimit {
    ghost use Rattle.std.specs.Prelude.{None};

    type Measure = ();

    ghost excess = { λ _ _. None };

    ghost measures = { λ _ _ _. Unit {0} };

    fn nothing(&self) -> () {}

    fn whole(&self, _ledger: &B) -> Result<(), Excess> {
        Ok(())
    }

    fn change(&self, _measure: &(), _ledger: &B, _change: &B::Delta) -> Result<(), Refusal> {
        Ok(())
    }
}
