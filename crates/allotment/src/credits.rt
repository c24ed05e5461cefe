//! What a demand gives back and what of it is credited: two runs of entries in order.

ghost use Rattle.std.specs.Prelude.{◌≡◌, ◌≤◌, ◌++◌, ◌∷◌, [], T, cond, nat_eq, OnOk};
ghost use Rattle.std.specs.List.{AllByRecursion};
ghost use Rattle.std.specs.FinMap.Entries.{is_sorted, where_key};
ghost use Rattle.fuxi_terms.specs.Counts.{count};
ghost use Rattle.fuxi_terms.specs.Keys.{key_cmp};
ghost use Rattle.fuxi_terms.specs.TallyKeys.{credited_key};
ghost use Rattle.place_pass.specs.DemandWalks.{IsPast};

use fuxi_terms::tally_keys::CREDITED;
use fuxi_terms::{Key, OutOfMemory};
use std::cmp::Ordering;

/// The entries of a kind, of entries that have no later kind.
pub(crate) fn of_last_kind(entries: &[(Key, u64)], what: u8) -> &[(Key, u64)]
    requires sorted { T (is_sorted key_cmp entries.now) }
    requires last { AllByRecursion (λ e. e.0.what ≤ what) entries.now }
    ensures run { result.now ≡ where_key key_cmp (λ k. nat_eq k.what what) entries.now }
    ensures sorted { T (is_sorted key_cmp result.now) }
{
    let first = entries.partition_point(|entry| entry.0.what < what);
    let (_, run) = entries.split_at(first);
    run
}

/// Where the number of a unit and a machine that is given back is credited.
pub(crate) fn credited_key(key: &Key) -> Key
    ensures { result ≡ credited_key key.now.unit key.now.number }
{
    Key {
        what: CREDITED,
        unit: key.unit,
        number: key.number,
    }
}

/// The number at a key, and the place behind the entries that stand before the key, of which some were passed.
pub(crate) fn number_from(entries: &[(Key, u64)], from: usize, sought: &Key) -> (u64, usize)
    requires sorted { T (is_sorted key_cmp entries.now) }
    requires past { IsPast entries.now from sought.now }
    ensures number { result.0 ≡ count key_cmp entries.now sought.now }
    ensures past { IsPast entries.now result.1 sought.now }
{
    let mut place = from;
    while place < entries.len() {
        let (key, number) = entries[place];
        match key.order(sought) {
            Ordering::Less => place += 1,
            Ordering::Equal => return (number, place),
            Ordering::Greater => return (0, place),
        }
    }
    (0, place)
}

/// One entry more, where it is new.
pub(crate) fn add_new(
    numbers: &mut Vec<(Key, u64)>,
    new: bool,
    key: Key,
    number: u64,
) -> Result<(), OutOfMemory>
    ensures { OnOk result (numbers.new.items ≡ numbers.old.items ++ cond new ((key, number) ∷ []) []) }
{
    if new {
        numbers.push((key, number))?;
    }
    Ok(())
}
