//! What the search keeps of units, of groups, and of what a set of grants takes.

ghost use Rattle.std.specs.Prelude.{◌≡◌, ℕ, ◌+◌, ◌*◌, ◌^◌, ◌<◌, ◌≤◌, slice_index, length, cond, not, nat_eq, nat_lt, ◌&&◌};
ghost use Rattle.preempt.specs.Given.{recounted};
ghost use Rattle.preempt.specs.GrantNumbers.{lower_in, spared_in};

use cluster_desc::Group;
use res_vector::Res;
use schedule_unit::{AppNo, UnitNo};

/// A unit, and how many grants it has or loses on a machine.
#[derive(Clone, Copy)]
pub(crate) struct Entry<'a> {
    pub(crate) app: AppNo,
    pub(crate) unit: UnitNo,
    pub(crate) group: usize,
    pub(crate) priority: u8,
    pub(crate) count: u32,
    pub(crate) size: &'a Res,
}

/// What one more grant of a unit needs on a machine and in its group.
#[derive(Clone, Copy)]
pub(crate) struct Need {
    pub(crate) resources: usize,
    pub(crate) group: usize,
    pub(crate) priority: u8,
    /// Whether the group has quota left for it.
    pub(crate) guaranteed: bool,
    /// What the machine has.
    pub(crate) has: [u64; 8],
    /// What is granted on the machine, and one more.
    pub(crate) fits: [u128; 8],
    /// What the group may use.
    pub(crate) limit: [u64; 8],
    /// What the group uses, and one more.
    pub(crate) allowed: [u128; 8],
}

/// What a group is promised and may use, and what it uses.
#[derive(Drop)]
pub(crate) struct GroupUse<'a> {
    pub(crate) bounds: &'a Group,
    pub(crate) used: Res,
}

/// What grants take of each resource.
#[derive(Clone, Copy)]
pub(crate) struct Sums {
    pub(crate) q: [u128; 8],
}

/// The same unit with another count.
pub(crate) fn recounted<'a>(e: &Entry<'a>, count: u32) -> Entry<'a>
    ensures { result ≡ recounted e.now count }
{
    Entry { count, ..*e }
}

// It cannot pass 128 bits.
fn product(count: u32, size: u64) -> u128
    ensures is { result ≡ count * size }
    ensures small { result ≤ 2 ^ 96 }
{
    count as u128 * size as u128
}

/// The count, where it is counted.
pub(crate) fn count_if(counts: bool, count: u32) -> u32
    ensures { result ≡ cond counts count 0 }
{
    if counts { count } else { 0 }
}

/// The sums with so many grants of this size more.
pub(crate) fn raised(sums: &[u128; 8], size: &[u64; 8], count: u32) -> [u128; 8]
    requires { (i : ℕ) → i < 8 → slice_index sums.now i < 2 ^ 127 }
    ensures is { (i : ℕ) → i < 8 → slice_index result i ≡ slice_index sums.now i + count * slice_index size.now i }
    ensures small { (i : ℕ) → i < 8 → slice_index result i ≤ slice_index sums.now i + 2 ^ 96 }
{
    if count == 0 {
        return *sums;
    }
    let mut q = [0; 8];
    for i in 0..8 {
        q[i] = sums[i] + product(count, size[i]);
    }
    q
}

/// The sums without so many grants of this size, which they have.
pub(crate) fn lowered(sums: &[u128; 8], size: &[u64; 8], count: u32) -> [u128; 8]
    requires { (i : ℕ) → i < 8 → count * slice_index size.now i ≤ slice_index sums.now i }
    ensures { (i : ℕ) → i < 8 → slice_index result i + count * slice_index size.now i ≡ slice_index sums.now i }
{
    if count == 0 {
        return *sums;
    }
    let mut q = [0; 8];
    for i in 0..8 {
        q[i] = sums[i] - product(count, size[i]);
    }
    q
}

// How many grants of an entry may be taken of the group that is served.
fn lower_count(need: &Need, e: &Entry<'_>) -> u32
    ensures { result ≡ cond (nat_eq e.now.group need.now.group && nat_lt e.now.priority need.now.priority) e.now.count 0 }
{
    if e.group == need.group && e.priority < need.priority {
        e.count
    } else {
        0
    }
}

// How many of those that its group spares may be taken, where it is another one.
fn spared_count(need: &Need, e: &Entry<'_>) -> u32
    ensures { result ≡ cond (need.now.guaranteed && not (nat_eq e.now.group need.now.group)) e.now.count 0 }
{
    if need.guaranteed && e.group != need.group {
        e.count
    } else {
        0
    }
}

/// What may be taken of the group that is served: the grants of lower priority.
pub(crate) fn lower_of(entries: &[Entry<'_>], need: &Need) -> [u128; 8]
    requires { length entries.now ≤ 1000000 }
    ensures is { (i : ℕ) → i < 8 → slice_index result i ≡ lower_in need.now i entries.now }
    ensures small { (i : ℕ) → i < 8 → slice_index result i ≤ length entries.now * 2 ^ 96 }
{
    let mut sums = [0; 8];
    for e in entries {
        sums = raised(&sums, &e.size.q, lower_count(need, e));
    }
    sums
}

/// The same with what may be taken of other groups, of that which they spare.
pub(crate) fn with_spared(lower: &[u128; 8], spared: &[Entry<'_>], need: &Need) -> [u128; 8]
    requires few { length spared.now ≤ 1000000 }
    requires small { (i : ℕ) → i < 8 → slice_index lower.now i ≤ 1000000 * 2 ^ 96 }
    ensures is { (i : ℕ) → i < 8 → slice_index result i ≡ slice_index lower.now i + spared_in need.now i spared.now }
    ensures small { (i : ℕ) → i < 8 → slice_index result i ≤ (1000000 + length spared.now) * 2 ^ 96 }
{
    let mut sums = *lower;
    for e in spared {
        sums = raised(&sums, &e.size.q, spared_count(need, e));
    }
    sums
}
