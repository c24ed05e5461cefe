//! What is asked: the admitted units with what a demand asks of each, and what they may be granted by a table.

mod changes;
mod differing;
mod fits;
mod reading;
mod scope;
mod sparse;
mod wishes;

pub(crate) use scope::{Scope, tell_marks, tell_tree};
pub(crate) use sparse::{first_some, is_clear, is_clear_to};
pub(crate) use wishes::{UNIT_PLACES, Wish, Wishes, fresh_units, slot};
