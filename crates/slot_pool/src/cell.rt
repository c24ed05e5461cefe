//! What stands under one number.

ghost use Rattle.std.specs.Prelude.{◌≡◌, Some, IsSome};
ghost use Rattle.std.specs.Borrow.{Lends, sem};
ghost use Rattle.slot_pool.specs.PoolLayout.{value_of};

/// A value, or nothing.
#[derive(Drop)]
pub(crate) enum Cell<T> {
    Vacant,
    Live(T),
}

// A tag of one place beside the value, and nothing else.
const _: () = prove!(size_of::<Cell<[u64; 3]>>() == 32);

impl<T> Cell<T> {
    ghost use Rattle.slot_pool.specs.contracts.cell.Cell.{the_row};

    /// The value.
    pub(crate) fn value(&self) -> &T
        requires { IsSome (value_of self.now) }
        ensures { value_of self.now ≡ Some result.now }
    {
        match self {
            Cell::Live(value) => value,
            Cell::Vacant => unreachable!(),
        }
    }

    /// The value, for writing.
    pub(crate) fn value_mut(&mut self) -> &mut T
        requires { IsSome (value_of self.old) }
        ensures* lends { sem 𝓛 (Lends (the_row T.row) T.row self.entry result Cell.Live) }
        ensures value { value_of self.old ≡ Some result.now }
    {
        match self {
            Cell::Live(value) => value,
            Cell::Vacant => unreachable!(),
        }
    }
}
