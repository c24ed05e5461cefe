//! The walk over the units that wait, as one machine ranks them.

ghost use Rattle.std.specs.Prelude.{◌≡◌, ◌-◌, ◌<◌, List, length, IsSome, IfSome, Some, ◌++◌, ◌∷◌};
ghost use Rattle.slot_pool.specs.Pools.{value_at};
ghost use Rattle.wait_queue.specs.declared.node.Entry.{Entry as EntryRecord};
ghost use Rattle.wait_queue.specs.Queues.{Item, Stands, IsIn, first_of, entry_at};
ghost use Rattle.locality_tree.specs.Trees.{RankedEntry};
ghost use Rattle.locality_tree.specs.Layouts.{HasNumber, AreKeptIn, sets_of};
ghost use Rattle.locality_tree.specs.Paths.{Leads, Gives, IsWalkable, IsTail, HasTail, SkipsTo, IsRanking, is_at_either, priority_in, at_most, is_best, pairs_of};

use crate::layout::{Layout, UnitSlots, number_of};
use slot_pool::{Pool, Slot};
use wait_queue::{Entry, Node, Queue, law};

/// A walk over three queues. It gives each unit once, at its smallest level.
#[derive(Drop)]
pub struct Path<'a> {
    pool: &'a Pool<Node>,
    units: &'a [UnitSlots],
    near_place: usize,
    rack_place: usize,
    near: &'a Queue,
    rack: &'a Queue,
    cluster: &'a Queue,
    at_near: Option<Slot>,
    at_rack: Option<Slot>,
    at_cluster: Option<Slot>,
}

/// The entry at a slot.
fn entry_of(pool: &Pool<Node>, slot: Slot) -> &Entry
    requires { IsSome (value_at pool.now slot) }
    ensures { entry_at (value_at pool.now) slot ≡ Some result.now }
{
    pool.get(slot).entry()
}

/// Whether the entry's unit stands at one of two places.
fn is_at_either(units: &[UnitSlots], one: usize, other: usize, entry: &Entry) -> bool
    requires number { HasNumber entry.now }
    requires one { one < 384 }
    requires other { other < 384 }
    ensures { result ≡ is_at_either (sets_of units.now) one other entry.now }
{
    let number = number_of(entry);
    if number >= units.len() {
        return false;
    }
    let unit = &units[number];
    unit.places.contains(one) || unit.places.contains(other)
}

/// The first slot from this one on whose unit stands at neither place.
fn skip(
    pool: &Pool<Node>,
    queue: &Queue,
    units: &[UnitSlots],
    one: usize,
    other: usize,
    from: Option<Slot>,
) -> Option<Slot>
    requires from { HasTail (value_at pool.now) queue.now from }
    requires one { one < 384 }
    requires other { other < 384 }
    ensures { (tail : List Item) → IsTail (value_at pool.now) queue.now from tail → SkipsTo (value_at pool.now) queue.now (is_at_either (sets_of units.now) one other) tail result }
{
    law::standing_lists();
    law::orders();
    let mut at = from;
    while let Some(slot) = at {
        if !is_at_either(units, one, other, entry_of(pool, slot)) {
            return at;
        }
        at = queue.after(pool, slot);
    }
    at
}

/// The priority of what stands at a slot.
fn priority_at(pool: &Pool<Node>, at: Option<Slot>) -> Option<u8>
    requires { IfSome at (λ s. IsSome (value_at pool.now s)) }
    ensures { result ≡ priority_in (value_at pool.now) at }
{
    match at {
        None => None,
        Some(slot) => Some(entry_of(pool, slot).priority),
    }
}

/// Whether the priority, where there is one, is at most this.
fn is_at_most(priority: Option<u8>, most: u8) -> bool
    ensures { result ≡ at_most priority most }
{
    match priority {
        None => true,
        Some(priority) => priority <= most,
    }
}

/// Whether the first priority is there and none of the others is above it.
fn leads(first: Option<u8>, second: Option<u8>, third: Option<u8>) -> bool
    ensures { result ≡ is_best first second third }
{
    match first {
        None => false,
        Some(priority) => is_at_most(second, priority) && is_at_most(third, priority),
    }
}

/// What stands at a slot of a queue, and the slot behind it.
fn take(pool: &Pool<Node>, queue: &Queue, slot: Slot) -> (Entry, Option<Slot>)
    requires { IsIn (value_at pool.now) queue.now slot }
    ensures entry { entry_at (value_at pool.now) slot ≡ Some result.0 }
    ensures behind { (front back : List Item) (entry : EntryRecord) → Stands (value_at pool.now) queue.now (front ++ (slot, entry) ∷ back) → result.1 ≡ first_of back None }
{
    law::standing_lists();
    let entry = *entry_of(pool, slot);
    (entry, queue.after(pool, slot))
}

impl<'a> Path<'a> {
    /// The walk from the beginning of the queues at two places and of the cluster's.
    pub(crate) fn at(layout: &'a Layout, near_place: usize, rack_place: usize) -> Path<'a>
        requires near { near_place < length layout.now.queues.items }
        requires rack { rack_place < length layout.now.queues.items }
        requires kept { AreKeptIn layout.now }
        ensures { (kept : AreKeptIn layout.now) (pairs : List RankedEntry) → IsRanking pairs (pairs_of (sets_of layout.now.slots.items) near_place rack_place (kept.lists near_place) (kept.lists rack_place) (kept.lists (length layout.now.queues.items - 1))) → Leads result pairs }
    {
        let pool = &layout.pool;
        let units: &[UnitSlots] = &layout.slots;
        let near = &layout.queues[near_place];
        let rack = &layout.queues[rack_place];
        let last = layout.queues.len() - 1;
        let cluster = &layout.queues[last];
        let at_near = near.first();
        let first_rack = rack.first();
        let first_cluster = cluster.first();
        let at_rack = skip(pool, rack, units, near_place, near_place, first_rack);
        let at_cluster = skip(pool, cluster, units, near_place, rack_place, first_cluster);
        Path {
            pool,
            units,
            near_place,
            rack_place,
            near,
            rack,
            cluster,
            at_near,
            at_rack,
            at_cluster,
        }
    }

    /// The next unit with its level: 0 where it stands in the machine's queue, else 1 where it stands in the
    /// rack's, else 2. None exactly at the end.
    pub fn next(&mut self) -> Option<(Entry, u8)>
        requires { IsWalkable self.old }
        ensures gives { (pairs : List RankedEntry) → Leads self.old pairs → Gives pairs result (Leads self.new) }
        ensures goes_on { IsWalkable self.new }
    {
        law::standing_lists();
        law::orders();
        let near = priority_at(self.pool, self.at_near);
        let rack = priority_at(self.pool, self.at_rack);
        let cluster = priority_at(self.pool, self.at_cluster);
        if leads(near, rack, cluster) {
            let slot = match self.at_near {
                Some(slot) => slot,
                None => return None,
            };
            let (entry, behind) = take(self.pool, self.near, slot);
            self.at_near = behind;
            return Some((entry, 0));
        }
        if leads(rack, None, cluster) {
            let slot = match self.at_rack {
                Some(slot) => slot,
                None => return None,
            };
            let (entry, behind) = take(self.pool, self.rack, slot);
            let place = self.near_place;
            self.at_rack = skip(self.pool, self.rack, self.units, place, place, behind);
            return Some((entry, 1));
        }
        let slot = match self.at_cluster {
            Some(slot) => slot,
            None => return None,
        };
        let (entry, behind) = take(self.pool, self.cluster, slot);
        self.at_cluster = skip(
            self.pool,
            self.cluster,
            self.units,
            self.near_place,
            self.rack_place,
            behind,
        );
        Some((entry, 2))
    }
}
