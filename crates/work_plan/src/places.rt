//! Values by a number.

ghost use Rattle.std.specs.Prelude.{◌≡◌, ◌≢◌, ℕ, is_some, Some, None, OnOk, get_or};

use fuxi_terms::OutOfMemory;
use std::alloc::Global;

// Puts a value at its number.
pub fn put<T: Drop>(places: &mut Vec<Option<T>>, number: u32, value: T) -> Result<(), OutOfMemory>
    ensures here { OnOk result (get_or places.new.items number None ≡ Some value) }
    ensures others { OnOk result ((n : ℕ) → n ≢ number → get_or places.new.items n None ≡ get_or places.old.items n None) }
{
    let index = number as usize;
    if index >= places.len() {
        places.reserve(index + 1 - places.len())?;
    }
    while places.len() <= index {
        places.push_reserved(None);
    }
    places[index] = Some(value);
    Ok(())
}

// Whether a value stands at a number.
pub fn has<T>(places: &[Option<T>], number: u32) -> bool
    ensures { result ≡ is_some (get_or places.now number None) }
{
    matches!(places.get(number as usize), Some(Some(_)))
}
