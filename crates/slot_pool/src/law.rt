//! What holds of every pool. The functions do nothing; their contracts are the laws.

ghost use Rattle.std.specs.Thread.{IsSend};
ghost use Rattle.slot_pool.specs.contracts.pool.Pool.{the_row};

use crate::pool::Pool;

/// Tells that a type may be moved to another thread.
fn moves<S: Send>()
    ensures { IsSend S.row }
{}

/// A pool may be moved to another thread where its values may.
pub fn moves_with_its_values<T: Send>()
    ensures { IsSend (the_row T.row) }
{
    moves::<Pool<T>>();
}
