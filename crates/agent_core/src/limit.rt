ghost use Rattle.std.specs.Prelude.{◌≡◌, cond, None, Some, Ok, Err};
ghost use Rattle.fuxi_terms.specs.Rows.{row_total};
ghost use Rattle.fuxi_terms.specs.Vectors.{fits};

use party_ledgers::{RowChange, RowLedger};
use peer_channel::{Excess, Limit, Refusal};
use res_vector::{Res, Sum, sum_fits};

// A row that fits the machine. Its measure is its total.
#[derive(Clone, Copy, Debug, Drop)]
pub(crate) struct RowLimit {
    pub(crate) has: Res,
}

// Whether a total fits the machine.
fn tested(total: Sum, has: &Res) -> Result<Sum, Excess>
    ensures { result ≡ cond (fits total.q has.now.q) (Ok total) (Err (record { total = total; has = has.now })) }
{
    if sum_fits(&total, has) {
        Ok(total)
    } else {
        Err(Excess { total, has: *has })
    }
}

impl Limit<RowLedger> for RowLimit {
    ghost use Rattle.std.specs.Prelude.{◌≡◌, true};
    ghost use Rattle.fuxi_terms.specs.Rows.{row_total};
    ghost use Rattle.fuxi_terms.specs.Vectors.{fits};
    ghost use Rattle.spec_roles.specs.Agents.{row_excess};

    type Measure = Sum;

    ghost excess = { λ l w. row_excess l.has.q w };

    ghost measures = { λ l total row. (total.q ≡ row_total row) × (fits (row_total row) l.has.q ≡ true) };

    fn nothing(&self) -> Sum {
        Sum { q: [0; 8] }
    }

    fn whole(&self, ledger: &RowLedger) -> Result<Sum, Excess> {
        tested(ledger.total(), &self.has)
    }

    fn change(
        &self,
        measure: &Sum,
        ledger: &RowLedger,
        change: &RowChange,
    ) -> Result<Sum, Refusal> {
        let total = match ledger.total_after(measure, change) {
            Ok(total) => total,
            Err(fault) => return Err(Refusal::Ledger(fault)),
        };
        match tested(total, &self.has) {
            Ok(total) => Ok(total),
            Err(excess) => Err(Refusal::Exceeds {
                total: excess.total,
                has: excess.has,
            }),
        }
    }
}
