//! Units of a job as words.

use crate::words::{number_of, numbers_of};
use fuxi_terms::OutOfMemory;
use fuxi_terms::limits::GREATEST_COUNT;
use schedule_unit::{Ask, Asks, Quantities};
use std::alloc::Global;

/// The units that are asked for: `/` parts them, and each has its priority and then its quantities. Behind the word `most` may stand the
/// greatest number of its grants on one machine; without it that is the greatest there is.
pub fn asks_of(alloc: Global, units: &str) -> Result<Asks, OutOfMemory> {
    let mut asks = Asks::new(alloc);
    for unit in units.split('/') {
        let (own, most) = match unit.split_once(" most ") {
            Some((own, bound)) => (own, number_of(bound.trim())),
            None => (unit, GREATEST_COUNT),
        };
        let numbers = numbers_of(alloc, own)?;
        let Some((priority, rest)) = numbers.split_first() else {
            continue;
        };
        let mut quantities = Quantities::new(alloc);
        for quantity in rest {
            quantities.push(*quantity)?;
        }
        asks.push(Ask {
            priority: *priority,
            quantities,
            most,
        })?;
    }
    Ok(asks)
}
