//! What stands on a packet.

use crate::packets::Kind;
use delta_channel::Place;
use schedule_unit::Party;

/// What stands on a packet, without what it holds.
#[derive(Clone, Copy)]
pub struct Header {
    pub from: Party,
    /// Its incarnation is 0 where the sender knows none.
    pub to: Party,
    pub kind: Kind,
    /// Of an acknowledgement the place in the other direction; of a ledger or a change the place that it leads to.
    pub place: Place,
}
