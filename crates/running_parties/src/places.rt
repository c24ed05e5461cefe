//! Where the slot of a number is, in a list in the order of the numbers.

ghost use Rattle.std.specs.Prelude.{T, IfSome};
ghost use Rattle.std.specs.Ordering.{nat_cmp};
ghost use Rattle.std.specs.FinMap.Entries.{is_sorted};
ghost use Rattle.running_parties.specs.SlotPlaces.{IsHere, IsPlace};

// The place of a number that is as far behind the first one as it stands behind it, as where the numbers have no gap.
fn place_without_gap<V>(slots: &[(u64, V)], number: u64) -> Option<usize>
    ensures { IfSome result (IsHere slots.now number) }
{
    let (first, _) = slots.first()?;
    let place = number.checked_sub(*first)? as usize;
    if place >= slots.len() || slots[place].0 != number {
        return None;
    }
    Some(place)
}

/// Where the slot of a number is, or, as an error, where it would be.
pub(crate) fn place_of<V>(slots: &[(u64, V)], number: u64) -> Result<usize, usize>
    requires { T (is_sorted nat_cmp slots.now) }
    ensures { IsPlace slots.now number result }
{
    if let Some(place) = place_without_gap(slots, number) {
        return Ok(place);
    }
    let place = slots.partition_point(|slot| slot.0 < number);
    if place >= slots.len() {
        return Err(place);
    }
    if slots[place].0 != number {
        return Err(place);
    }
    Ok(place)
}
