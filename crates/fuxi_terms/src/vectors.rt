//! Vectors of resources and their totals. What can be done with them stands in a crate above.

/// A quantity of each resource, as of one grant or one machine.
#[derive(Clone, Copy, Debug, PartialEq, Eq)]
pub struct Res {
    /// By the number of the resource, with 0 at those that the cluster does not have.
    pub q: [u64; 8],
}

/// A total of many vectors.
#[derive(Clone, Copy, Debug, PartialEq, Eq)]
pub struct Sum {
    /// By the number of the resource.
    pub q: [u128; 8],
}
