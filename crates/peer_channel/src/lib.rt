//! One side of a channel as the cores of all three parties keep it: both directions to a peer, with packets as they
//! go out and come in. What it does is what the side of the written net does.
#![tactic(auto)]

mod carried;
pub mod law;
mod limit;
mod reply;
mod side;

pub use carried::Carried;
pub use limit::{Excess, Limit, NoLimit, Refusal};
pub use reply::Reply;
pub use side::Side;
