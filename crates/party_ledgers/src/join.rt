//! What an agent joins an epoch with.

ghost use Rattle.std.specs.Prelude.{◌≡◌, IsTrue};
ghost use Rattle.fuxi_terms.specs.Rows.{IsRow};

use crate::row_forms::RowNumbers;
use crate::row_ledger::{RowLedger, is_row};
use ledger_law::forms::{read_headed, write_headed};
use ledger_law::{BodyFault, Ledger, LedgerFault, OutOfMemory};
use std::alloc::Global;
use std::marker::Model;

/// An epoch, and what the agent's table was when it joined. A change of it is another such ledger, which
/// replaces it.
#[derive(Drop)]
pub struct JoinLedger {
    epoch: u64,
    table: RowLedger,
}

impl Model for JoinLedger {
    ghost use Rattle.party_ledgers.specs.Joins.{JoinRecord};

    ghost Value = { JoinRecord };

    ghost view = { λ j. record { epoch = j.epoch; table = j.table } };
}

impl JoinLedger {
    /// The ledger of an agent that joins an epoch with this table.
    pub fn make(epoch: u64, table: RowLedger) -> JoinLedger
        ensures { result ≡ record { epoch = epoch; table = table } }
    {
        JoinLedger { epoch, table }
    }

    /// The epoch that was joined.
    pub fn epoch(&self) -> u64
        ensures { result ≡ self.now.epoch }
    {
        self.epoch
    }

    /// What the table was then.
    pub fn table(&self) -> &RowLedger
        ensures { result.now ≡ self.now.table }
    {
        &self.table
    }
}

impl Ledger for JoinLedger {
    type Delta = JoinLedger;

    ghost use Rattle.party_ledgers.specs.Joins.{no_join, IsJoin, join_form, join_form_one};
    ghost use Rattle.ledger_law.specs.Differing.{AlwaysReaches};
    ghost use Rattle.party_ledgers.specs.PartyDifferences.{replaced, IsReplacement, replacement, by_replacement};

    ghost nothing = { no_join };

    ghost patched = { replaced };

    ghost is_change = { IsReplacement };

    ghost difference = { replacement };

    ghost reaches = { AlwaysReaches };

    ghost has_form = { IsJoin };

    ghost form = { join_form };

    ghost has_delta_form = { IsJoin };

    ghost delta_form = { join_form };

    ghost by_difference = { by_replacement };

    ghost one_form = { join_form_one };

    ghost one_delta_form = { join_form_one };

    fn empty(alloc: Global) -> Self {
        JoinLedger {
            epoch: 0,
            table: RowLedger::empty(alloc),
        }
    }

    fn apply(&mut self, alloc: Global, change: &JoinLedger) -> Result<(), LedgerFault> {
        let table = change.table.copy(alloc)?;
        self.epoch = change.epoch;
        self.table = table;
        Ok(())
    }

    fn copy(&self, alloc: Global) -> Result<Self, OutOfMemory> {
        Ok(JoinLedger {
            epoch: self.epoch,
            table: self.table.copy(alloc)?,
        })
    }

    fn copy_delta(alloc: Global, change: &JoinLedger) -> Result<JoinLedger, OutOfMemory> {
        change.copy(alloc)
    }

    fn write_full(&self, out: &mut Vec<u8>) -> Result<(), OutOfMemory> {
        write_headed::<RowNumbers>(self.epoch, self.table.entries(), out)
    }

    fn read_full(alloc: Global, body: &[u8]) -> Result<Self, BodyFault> {
        let (epoch, entries) = read_headed::<RowNumbers>(alloc, body)?;
        if !is_row(&entries) {
            return Err(BodyFault::NotBody);
        }
        Ok(JoinLedger {
            epoch,
            table: RowLedger::from_entries(entries),
        })
    }

    fn write_delta(change: &JoinLedger, out: &mut Vec<u8>) -> Result<(), OutOfMemory> {
        change.write_full(out)
    }

    fn read_delta(alloc: Global, body: &[u8]) -> Result<JoinLedger, BodyFault> {
        JoinLedger::read_full(alloc, body)
    }
}
