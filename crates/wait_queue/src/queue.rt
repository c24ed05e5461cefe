//! Queues.

ghost use Rattle.std.specs.Prelude.{◌≡◌, ◌≢◌, ◌+◌, ◌<◌, ◌++◌, ◌∷◌, [], None, Option, List};
ghost use Rattle.slot_pool.specs.Pools.{value_at};
ghost use Rattle.slot_pool.specs.declared.pool.Slot.{Slot as SlotRecord};
ghost use Rattle.wait_queue.specs.Queues.{Item, Stands, MayEnter, IsPlace, IsIn, IsOutside, Apart, first_of};
ghost use Rattle.wait_queue.specs.declared.node.Entry.{Entry as EntryRecord};
ghost use Rattle.wait_queue.specs.declared.node.Node.{Node as NodeRecord};
ghost use Rattle.wait_queue.specs.declared.queue.Queue.{Queue as QueueRecord};

use crate::node::{
    BANDS, Entry, Link, NOWHERE, Node, band_of, behind_of, check_range, leave_end, nearest_end,
    place_of, set_end, tie_before, tie_behind,
};
use slot_pool::{Pool, Slot};

/// A queue whose entries stand in a pool.
#[derive(Drop)]
pub struct Queue {
    key_first: bool,
    first: Option<Slot>,
    /// The last slot of each band of priorities, from which the walk to the place of an entry begins.
    ends: [Link; BANDS],
}

// Most of it is for the ends of the bands.
const _: () = prove!(size_of::<Queue>() == 72);

impl Queue {
    /// A queue with no entry, by greater priority and then by smaller turn, or by turn alone.
    pub fn new(key_first: bool) -> Queue
        ensures stands { (at : SlotRecord → Option NodeRecord) → Stands at result [] }
        ensures order { result.key_first ≡ key_first }
    {
        Queue {
            key_first,
            first: None,
            ends: [NOWHERE; BANDS],
        }
    }

    /// Puts the entry in its place. It takes no memory.
    pub fn insert(&mut self, pool: &mut Pool<Node>, entry: Entry) -> Slot
        requires enters { MayEnter (value_at pool.old) self.old entry }
        requires room { 0 < pool.old.spare }
        ensures absent { value_at pool.old result ≡ None }
        ensures placed { (front back : List Item) → IsPlace (value_at pool.old) self.old entry front back → Stands (value_at pool.new) self.new (front ++ (result, entry) ∷ back) }
        ensures rest { (items : List Item) → Stands (value_at pool.old) self.old items → (slot : SlotRecord) → IsOutside slot items → slot ≢ result → value_at pool.new slot ≡ value_at pool.old slot }
        ensures others { (items theirs : List Item) (other : QueueRecord) → Stands (value_at pool.old) self.old items → Stands (value_at pool.old) other theirs → Apart items theirs → Stands (value_at pool.new) other theirs }
        ensures order { self.new.key_first ≡ self.old.key_first }
        ensures spare { pool.new.spare + 1 ≡ pool.old.spare }
    {
        check_range(&entry);
        let band = band_of(self.key_first, &entry);
        let end = nearest_end(&self.ends, band);
        let start = end.slot(pool);
        let before = place_of(pool, start, self.key_first, &entry);
        let to_before = Link::to(pool, before);
        let to_behind = behind_of(pool, before, self.first);
        let slot = pool.put(Node {
            entry,
            before: to_before,
            behind: to_behind,
        });
        let own = Link::to(pool, Some(slot));
        // Where the walk passed none, no entry of the band stands behind it.
        set_end(&mut self.ends, band, to_before.is(end), own);
        tie_behind(pool, &mut self.first, before, Some(slot));
        let behind = to_behind.slot(pool);
        tie_before(pool, behind, own);
        slot
    }

    /// Takes out the entry at the slot. It takes no memory.
    pub fn remove(&mut self, pool: &mut Pool<Node>, slot: Slot) -> Entry
        requires { IsIn (value_at pool.old) self.old slot }
        ensures removed { (front back : List Item) (entry : EntryRecord) → Stands (value_at pool.old) self.old (front ++ (slot, entry) ∷ back) → Stands (value_at pool.new) self.new (front ++ back) }
        ensures entry { (front back : List Item) (entry : EntryRecord) → Stands (value_at pool.old) self.old (front ++ (slot, entry) ∷ back) → result ≡ entry }
        ensures rest { (items : List Item) → Stands (value_at pool.old) self.old items → (other : SlotRecord) → IsOutside other items → value_at pool.new other ≡ value_at pool.old other }
        ensures others { (items theirs : List Item) (other : QueueRecord) → Stands (value_at pool.old) self.old items → Stands (value_at pool.old) other theirs → Apart items theirs → Stands (value_at pool.new) other theirs }
        ensures gone { value_at pool.new slot ≡ None }
        ensures order { self.new.key_first ≡ self.old.key_first }
        ensures spare { pool.new.spare ≡ pool.old.spare + 1 }
    {
        let own = Link::to(pool, Some(slot));
        let Node {
            entry,
            before: to_before,
            behind: to_behind,
        } = pool.take(slot);
        let band = band_of(self.key_first, &entry);
        let before = to_before.slot(pool);
        let behind = to_behind.slot(pool);
        leave_end(
            pool,
            &mut self.ends,
            self.key_first,
            band,
            own,
            before,
            to_before,
        );
        tie_behind(pool, &mut self.first, before, behind);
        tie_before(pool, behind, to_before);
        entry
    }

    /// The first slot, and `None` exactly where the queue is empty.
    pub fn first(&self) -> Option<Slot>
        ensures { (at : SlotRecord → Option NodeRecord) (items : List Item) → Stands at self.now items → result ≡ first_of items None }
    {
        self.first
    }

    /// The slot behind this one, and `None` exactly where it is the last.
    pub fn after(&self, pool: &Pool<Node>, slot: Slot) -> Option<Slot>
        requires { IsIn (value_at pool.now) self.now slot }
        ensures { (front back : List Item) (entry : EntryRecord) → Stands (value_at pool.now) self.now (front ++ (slot, entry) ∷ back) → result ≡ first_of back None }
    {
        pool.get(slot).behind.slot(pool)
    }
}
