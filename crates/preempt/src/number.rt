//! How many grants of a size are needed, or may be taken: computed, never counted one by one.

ghost use Rattle.std.specs.Prelude.{◌≡◌, ℕ, ◌+◌, ◌^◌, ◌<◌, ◌≤◌, IfOk, slice_index, cond, length};
ghost use Rattle.fuxi_terms.specs.Lists.{below_each};
ghost use Rattle.preempt.specs.Counted.{times_to_reach, times_within, least_of};
ghost use Rattle.preempt.specs.GrantNumbers.{needed_number, may_number, spared_in_one, reach_in, are_enough, narrow_at};

use crate::entry::{Entry, GroupUse, Need};

/// The least number of times, at most `most`, that lifts `have` by `size` each to `want`.
fn times_to_reach(have: u128, want: u128, size: u64, most: u32) -> u32
    ensures { result ≡ times_to_reach have want size most }
{
    if have >= want {
        return 0;
    }
    if size == 0 {
        return most;
    }
    let times = (want - have - 1) / size as u128 + 1;
    if times < most as u128 {
        times as u32
    } else {
        most
    }
}

/// The greatest number of times, at most `most`, that lifts `base` by `size` each and stays within `bound`.
fn times_within(base: u128, bound: u128, size: u64, most: u32) -> u32
    ensures { result ≡ times_within base bound size most }
{
    if bound < base {
        return 0;
    }
    if size == 0 {
        return most;
    }
    let times = (bound - base) / size as u128;
    if times < most as u128 {
        times as u32
    } else {
        most
    }
}

fn size_if(counts: bool, size: u64) -> u64
    ensures { result ≡ cond counts size 0 }
{
    if counts { size } else { 0 }
}

/// The least number of grants of an entry, at most `most`, that make a set enough.
pub(crate) fn needed_number(
    need: &Need,
    all: &[u128; 8],
    own: &[u128; 8],
    e: &Entry<'_>,
    most: u32,
) -> u32
    requires resources { need.now.resources ≤ 8 }
    requires all_small { (i : ℕ) → i < 8 → slice_index all.now i < 2 ^ 127 }
    requires own_small { (i : ℕ) → i < 8 → slice_index own.now i < 2 ^ 127 }
    ensures { result ≡ needed_number need.now all.now own.now e.now most }
{
    if most == 0 {
        return 0;
    }
    let is_own = e.group == need.group;
    let mut best: u32 = 0;
    for i in 0..need.resources {
        let to_fit = times_to_reach(
            need.has[i] as u128 + all[i],
            need.fits[i],
            e.size.q[i],
            most,
        );
        let within = times_to_reach(
            need.limit[i] as u128 + own[i],
            need.allowed[i],
            size_if(is_own, e.size.q[i]),
            most,
        );
        let times = to_fit.max(within);
        best = best.max(times);
    }
    best
}

/// The greatest number of grants of this size, at most `most`, that a group spares.
pub(crate) fn spared_number(
    resources: usize,
    group: &GroupUse<'_>,
    part: &[u128; 8],
    size: &[u64; 8],
    most: u32,
) -> u32
    requires resources { resources ≤ 8 }
    requires small { (i : ℕ) → i < 8 → slice_index part.now i < 2 ^ 127 }
    ensures { result ≡ least_of most resources (spared_in_one group.now part.now size.now most) }
{
    let mut best = most;
    for i in 0..resources {
        let times = times_within(
            group.bounds.quota.q[i] as u128 + part[i],
            group.used.q[i] as u128,
            size[i],
            most,
        );
        best = best.min(times);
    }
    best
}

/// How many grants of an entry may be taken.
pub(crate) fn may_number(need: &Need, group: &GroupUse<'_>, part: &[u128; 8], e: &Entry<'_>) -> u32
    requires resources { need.now.resources ≤ 8 }
    requires small { (i : ℕ) → i < 8 → slice_index part.now i < 2 ^ 127 }
    ensures { result ≡ may_number need.now group.now part.now e.now }
{
    if e.group == need.group {
        if e.priority < need.priority {
            return e.count;
        }
        return 0;
    }
    if need.guaranteed {
        return spared_number(need.resources, group, part, &e.size.q, e.count);
    }
    0
}

/// Whether sums make a set enough.
pub(crate) fn are_enough(need: &Need, all: &[u128; 8], own: &[u128; 8]) -> bool
    requires resources { need.now.resources ≤ 8 }
    requires all_small { (i : ℕ) → i < 8 → slice_index all.now i < 2 ^ 127 }
    requires own_small { (i : ℕ) → i < 8 → slice_index own.now i < 2 ^ 127 }
    ensures { result ≡ are_enough need.now all.now own.now }
{
    reach(need.resources, &need.has, all, &need.fits)
        && reach(need.resources, &need.limit, own, &need.allowed)
}

/// Whether what there is and these sums reach what is wanted, in each of so many resources.
pub(crate) fn reach(resources: usize, has: &[u64; 8], sums: &[u128; 8], want: &[u128; 8]) -> bool
    requires resources { resources ≤ 8 }
    requires small { (i : ℕ) → i < 8 → slice_index sums.now i < 2 ^ 127 }
    ensures { result ≡ below_each resources (reach_in has.now sums.now want.now) }
{
    let mut all = true;
    for i in 0..resources {
        let less = has[i] as u128 + sums[i] < want[i];
        all = all && !less;
    }
    all
}

/// Whether a size needs nothing beyond so many resources.
pub(crate) fn is_narrow(resources: usize, size: &[u64; 8]) -> bool
    ensures { result ≡ below_each 8 (narrow_at resources size.now) }
{
    let mut all = true;
    for i in 0..8 {
        let nothing = i < resources || size[i] == 0;
        all = all && nothing;
    }
    all
}
