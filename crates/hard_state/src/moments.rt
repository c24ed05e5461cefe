// What a checkpoint stands for while a record is written.
ghost use Rattle.hard_state.specs.Moments.{MomentsStand};

use crate::law;

/// Of the four moments of a writing from a checkpoint at rest, what a read gives stands for the state before it at the first two and
/// for the state after it at the other two; what was synced last stands for the state before it up to the third.
pub fn moments_stand()
    ensures { MomentsStand }
{
    law::written_is_read();
}
