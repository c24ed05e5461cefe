//! Laws of the types, as contracts. What stands here does nothing.

pub use crate::lines::is_little_ahead;
