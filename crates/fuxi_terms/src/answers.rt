//! The answers that the definitions name too: why a change of a ledger is refused, and what a packet is heard as.

use crate::{Key, OutOfMemory, Res, Sum};

/// Why a change was not made. The ledger is as it was after each.
#[derive(Clone, Copy, Debug, Drop, PartialEq, Eq)]
pub enum LedgerFault {
    /// The number `kept` at the key would fall below 0 by `change`.
    Below { key: Key, kept: u64, change: i64 },
    /// The number at the key would rise above its greatest, or the ledger would have too many entries.
    TooGreat { key: Key },
    /// Memory was refused.
    OutOfMemory,
}

impl From<OutOfMemory> for LedgerFault {
    ghost use Rattle.fuxi_terms.specs.declared.answers.LedgerFault.TheVariants.{OutOfMemory as WantOfMemory};
    ghost use Rattle.std.specs.Prelude.{◌≡◌};

    ghost from_gives = { λ _ fault. fault ≡ WantOfMemory };

    fn from(_error: OutOfMemory) -> LedgerFault {
        LedgerFault::OutOfMemory
    }
}

/// What a packet is heard as: the word of the rule that ended it.
#[derive(Clone, Copy, Debug, Drop, PartialEq, Eq)]
pub enum What {
    /// It is for another party, or of one that this party does not talk to.
    Stranger,
    /// Its sender is an earlier incarnation than the known one.
    Stale,
    /// It is an acknowledgement.
    Ack,
    /// It is a ledger or a change for another incarnation of this party.
    NotMine,
    /// It is a ledger or a change that has been taken, or that an earlier one has brought.
    Old,
    /// It is a change, and others before it are lacking.
    Gap,
    /// It is a ledger or a change, and it is taken.
    Taken,
    /// It is a change that does not fit the ledger: a number would fall below 0 or rise above its greatest.
    Ledger(LedgerFault),
    /// The ledger that it brings takes more than there is.
    Exceeds { total: Sum, has: Res },
}
