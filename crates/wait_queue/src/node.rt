//! The nodes of queues, and how one of them is tied to another.

ghost use Rattle.std.specs.Prelude.{◌≡◌, ◌≢◌, ◌<◌, ℕ, IsSome, IfSome, Some, None, Option, List, cond, drop, is_some, nat_eq, set};
ghost use Rattle.slot_pool.specs.Pools.{value_at};
ghost use Rattle.slot_pool.specs.declared.pool.Slot.{Slot as SlotRecord};
ghost use Rattle.wait_queue.specs.Queues.{Item, is_before, band, last_of, link, IsInRange};
ghost use Rattle.wait_queue.specs.Neighbours.{CanWalk, Walks, Follows, Relinked, with_behind, with_before, has_band, nearest, ends_without};

use schedule_unit::{AppNo, UnitNo};
use slot_pool::{Pool, Slot};

/// So many bands of priorities have an end of their own in a queue.
pub(crate) const BANDS: usize = 10;

/// A unit that waits, with its priority and the number that it got when it began to wait.
#[derive(Clone, Copy, Debug, PartialEq, Eq)]
pub struct Entry {
    pub app: AppNo,
    pub unit: UnitNo,
    pub priority: u8,
    pub turn: u64,
}

/// A link to a slot, or to none, in four bytes: the slot's number and one more, or 0.
#[derive(Clone, Copy, Debug)]
pub struct Link(pub(crate) u32);

/// A link to no slot.
pub(crate) const NOWHERE: Link = Link(0);

impl Link {
    /// The link to the slot, where there is one.
    pub(crate) fn to(pool: &Pool<Node>, slot: Option<Slot>) -> Link
        requires { IfSome slot (λ s. IsSome (value_at pool.now s)) }
        ensures { result ≡ link slot }
    {
        pool.bound_numbers();
        match slot {
            Some(slot) => Link(slot.number + 1),
            None => Link(0),
        }
    }

    /// The slot that it leads to, where there is one. It is the one that was linked, where that is live.
    pub(crate) fn slot(self, pool: &Pool<Node>) -> Option<Slot>
        ensures { (slot : Option SlotRecord) → self ≡ link slot → IfSome slot (λ s. IsSome (value_at pool.now s)) → result ≡ slot }
    {
        if self.0 == 0 {
            return None;
        }
        Some(pool.slot(self.0 - 1))
    }

    /// Whether both lead to the same.
    pub(crate) fn is(self, other: Link) -> bool
        ensures { result ≡ nat_eq self.0 other.0 }
    {
        self.0 == other.0
    }
}

/// An entry in a queue, with links to its neighbours.
#[derive(Clone, Copy, Debug)]
pub struct Node {
    pub(crate) entry: Entry,
    pub(crate) before: Link,
    pub(crate) behind: Link,
}

// With its tag, its generation and its number while that is free it takes 44 bytes of a pool.
const _: () = prove!(size_of::<Node>() == 24);

impl Node {
    /// The entry that stands here.
    pub fn entry(&self) -> &Entry
        ensures { result.now ≡ self.now.entry }
    {
        &self.entry
    }
}

/// Whether the one entry stands before the other: by greater priority where that comes first, then by
/// smaller turn.
fn stands_before(key_first: bool, one: &Entry, other: &Entry) -> bool
    ensures { result ≡ is_before key_first one.now other.now }
{
    if key_first && one.priority != other.priority {
        return one.priority > other.priority;
    }
    one.turn < other.turn
}

/// The band of an entry: its priority, and one band for all from 9 on; a single band where only turns count.
pub(crate) fn band_of(key_first: bool, entry: &Entry) -> usize
    ensures band { result ≡ band key_first entry.now }
    ensures inside { result < 10 }
{
    let band = entry.priority.min(9) as usize;
    if key_first { band } else { 0 }
}

/// The end of a band, and where it has none that of the nearest band of greater priority that has one.
pub(crate) fn nearest_end(ends: &[Link; BANDS], band: usize) -> Link
    requires { band < 10 }
    ensures { result ≡ nearest (drop band ends.now) }
{
    let own = ends[band];
    if own.0 != 0 {
        return own;
    }
    for place in band + 1..BANDS {
        let end = ends[place];
        if end.0 != 0 {
            return end;
        }
    }
    NOWHERE
}

/// Tells that the numbers of the entry are those of their types.
pub(crate) fn check_range(entry: &Entry)
    ensures { IsInRange entry.now }
{
    let _turn = entry.turn;
    let _priority = entry.priority;
}

/// The link to what stands behind the slot, and where there is no slot to what stands first.
pub(crate) fn behind_of(pool: &Pool<Node>, slot: Option<Slot>, first: Option<Slot>) -> Link
    requires live { IfSome slot (λ s. IsSome (value_at pool.now s)) }
    requires first { IfSome first (λ s. IsSome (value_at pool.now s)) }
    ensures { (next : Option SlotRecord) → Follows (value_at pool.now) slot first next → result ≡ link next }
{
    match slot {
        Some(slot) => pool.get(slot).behind,
        None => Link::to(pool, first),
    }
}

/// Ties the node at the slot to what is to stand behind it; where there is no slot, that is to stand first in
/// the queue.
pub(crate) fn tie_behind(
    pool: &mut Pool<Node>,
    first: &mut Option<Slot>,
    slot: Option<Slot>,
    to: Option<Slot>,
)
    requires live { IfSome slot (λ s. IsSome (value_at pool.old s)) }
    requires to { IfSome to (λ s. IsSome (value_at pool.old s)) }
    ensures tied { Relinked (value_at pool.old) (value_at pool.new) slot (with_behind (link to)) }
    ensures first { first.new ≡ cond (is_some slot) first.old to }
    ensures spare { pool.new.spare ≡ pool.old.spare }
{
    match slot {
        Some(slot) => {
            let link = Link::to(pool, to);
            pool.get_mut(slot).behind = link;
        }
        None => *first = to,
    }
}

/// Ties the node at the slot, where there is one, to what is to stand before it.
pub(crate) fn tie_before(pool: &mut Pool<Node>, slot: Option<Slot>, to: Link)
    requires { IfSome slot (λ s. IsSome (value_at pool.old s)) }
    ensures tied { Relinked (value_at pool.old) (value_at pool.new) slot (with_before to) }
    ensures spare { pool.new.spare ≡ pool.old.spare }
{
    if let Some(slot) = slot {
        pool.get_mut(slot).before = to;
    }
}

/// The last slot before the place of the entry, walking back from a slot.
pub(crate) fn place_of(
    pool: &Pool<Node>,
    start: Option<Slot>,
    key_first: bool,
    entry: &Entry,
) -> Option<Slot>
    requires { CanWalk (value_at pool.now) start key_first entry.now }
    ensures { (front middle : List Item) (next : Option SlotRecord) → Walks (value_at pool.now) start key_first entry.now front middle next → result ≡ last_of None front }
{
    let mut place = start;
    while let Some(slot) = place {
        let node = pool.get(slot);
        if stands_before(key_first, &node.entry, entry) {
            return place;
        }
        place = node.before.slot(pool);
    }
    place
}

/// Whether an entry of the band stands at the slot, where there is one.
fn has_band(pool: &Pool<Node>, key_first: bool, slot: Option<Slot>, band: usize) -> bool
    requires { IfSome slot (λ s. IsSome (value_at pool.now s)) }
    ensures { result ≡ has_band (value_at pool.now) key_first band slot }
{
    match slot {
        Some(slot) => band_of(key_first, &pool.get(slot).entry) == band,
        None => false,
    }
}

/// Sets the end of a band where it is a new one.
pub(crate) fn set_end(ends: &mut [Link; BANDS], band: usize, is_new: bool, end: Link)
    requires { band < 10 }
    ensures { ends.new ≡ cond is_new (set ends.old band end) ends.old }
{
    if is_new {
        ends[band] = end;
    }
}

/// The link to the slot, where an entry of the band stands there.
fn link_in(pool: &Pool<Node>, key_first: bool, band: usize, slot: Option<Slot>, to: Link) -> Link
    requires { IfSome slot (λ s. IsSome (value_at pool.now s)) }
    ensures { result ≡ cond (has_band (value_at pool.now) key_first band slot) to (link None) }
{
    if has_band(pool, key_first, slot, band) {
        return to;
    }
    NOWHERE
}

/// Where an entry that was taken was the end of its band, that is the one before it, if it has the band too.
pub(crate) fn leave_end(
    pool: &Pool<Node>,
    ends: &mut [Link; BANDS],
    key_first: bool,
    band: usize,
    own: Link,
    before: Option<Slot>,
    to_before: Link,
)
    requires inside { band < 10 }
    requires live { IfSome before (λ s. IsSome (value_at pool.now s)) }
    ensures { ends.new ≡ ends_without (value_at pool.now) key_first ends.old band own before to_before }
{
    if ends[band].is(own) {
        ends[band] = link_in(pool, key_first, band, before, to_before);
    }
}
