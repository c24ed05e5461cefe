//! The terms that every crate of the scheduler speaks in: vectors of resources, the records of clusters
//! and jobs, keys with their order, tables, and finite maps of counts with signed changes to them. They stand
//! in `specs/`, as definitions that compute. Beside them stand the few types of the program that definitions
//! name, and the limits of the product.
#![tactic(auto)]

ghost use Rattle.std.specs.Prelude.{◌≡◌};
ghost use Rattle.fuxi_terms.specs.Keys.{key_cmp};

mod answers;
mod cluster_key;
pub mod limits;
pub mod tally_keys;
mod vectors;

pub use answers::{LedgerFault, What};
pub use cluster_key::ClusterKey;
use std::alloc::{AllocError, AllocFailed};
use std::cmp::Ordering;
pub use vectors::{Res, Sum};

/// What an entry of a ledger is about: its kind, a unit and a number, as of a machine or a rack.
#[derive(Clone, Copy, Debug, Default, PartialEq, Eq, PartialOrd, Ord)]
pub struct Key {
    pub what: u8,
    pub unit: u8,
    pub number: u32,
}

impl Key {
    /// The order of keys: by kind, then by unit, then by number. It is that of `<` and `cmp`.
    pub fn order(&self, other: &Key) -> Ordering
        ensures { result ≡ key_cmp self.now other.now }
    {
        self.cmp(other)
    }
}

/// Memory was refused. Whatever the call that answers it says, it says of no other cause.
#[derive(Clone, Copy, Debug, Drop, PartialEq, Eq)]
pub struct OutOfMemory;

impl From<AllocError> for OutOfMemory {
    ghost from_gives = { λ _ _. Unit {0} };

    fn from(_error: AllocError) -> OutOfMemory {
        OutOfMemory
    }
}

impl<T: Drop> From<AllocFailed<T>> for OutOfMemory {
    ghost from_gives = { λ _ _. Unit {0} };

    fn from(_error: AllocFailed<T>) -> OutOfMemory {
        OutOfMemory
    }
}
