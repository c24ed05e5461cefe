//! Where each unit stands: the queues by their places, and the slots that each unit has there.

ghost use Rattle.std.specs.Prelude.{◌≡◌, ℕ, ◌+◌, ◌*◌, ◌^◌, ◌<◌, ◌≤◌, List, [], length, replicate, None, Some, is_some, IsSome, true, false, IfOk, OnOk, OnErr};
ghost use Rattle.std.specs.List.{AllByRecursion};
ghost use Rattle.std.proofs.Common.{get_or};
ghost use Rattle.slot_pool.specs.Pools.{SameSlots};
ghost use Rattle.locality_tree.specs.Trees.{all_units};
ghost use Rattle.locality_tree.specs.Layouts.{slots_of, rows_of, numbers_of, sets_of, number_in, slot_in, with_slot, with_places, number_of, HasNumber, IsEmptyQueue, AreKeptIn, EntryFitsIn, TurnedIn, LeftIn, MayLeave, AreWithout, HasLeft, Admits, IsNoted, IsGrown};
ghost use Rattle.locality_tree.specs.PlaceSets.{in_set};
ghost use Rattle.locality_tree.specs.declared.place_set.PlaceSet.{PlaceSet as PlaceSetRecord};

use crate::place_set::PlaceSet;
use fuxi_terms::OutOfMemory;
use fuxi_terms::limits::{MOST_RACKS, MOST_UNITS};
use slot_pool::{Pool, Slot};
use std::alloc::Global;
use std::cmp::max;
use wait_queue::{Entry, Node, Queue, law};

/// Where room is wanted, it is made for so many nodes more for each machine, so that small clusters ask for little.
const NODES_AT_ONCE: usize = 256;

/// Where one unit stands. A number counts only where the place is in the set; there the slot is live, so the
/// pool knows its generation.
#[derive(Drop)]
pub(crate) struct UnitSlots {
    /// The numbers of its slots, by place. Of a unit that is not admitted there is none.
    pub(crate) numbers: Vec<u32>,
    /// The places at which it stands.
    pub(crate) places: PlaceSet,
}

/// The queues by place: one for each machine, one for each of 64 racks, and the cluster's.
#[derive(Drop)]
pub(crate) struct Layout {
    pub(crate) pool: Pool<Node>,
    pub(crate) queues: Vec<Queue>,
    /// By the unit's number, as far as a unit was admitted.
    pub(crate) slots: Vec<UnitSlots>,
}

/// The number of the entry's unit among all units.
pub(crate) fn number_of(entry: &Entry) -> usize
    requires { HasNumber entry.now }
    ensures { result ≡ number_of entry.now }
{
    MOST_UNITS * entry.app.0 as usize + entry.unit.0 as usize
}

/// The number that is noted for a unit at a place.
fn number_in(slots: &[UnitSlots], number: usize, place: usize) -> u32
    requires { place < length (get_or (numbers_of slots.now) number []) }
    ensures { result ≡ number_in (numbers_of slots.now) number place }
{
    let unit = &slots[number];
    unit.numbers[place]
}

/// Notes that a unit stands at a place, and the number of its slot there.
fn note_entry(slots: &mut Vec<UnitSlots>, number: usize, place: usize, slot: u32)
    requires inside { place < length (get_or (numbers_of slots.old.items) number []) }
    requires place { place < 384 }
    ensures numbers { numbers_of slots.new.items ≡ with_slot (numbers_of slots.old.items) number place slot }
    ensures sets { IsNoted (sets_of slots.old.items) (sets_of slots.new.items) number place true }
{
    let unit = &mut slots[number];
    unit.numbers[place] = slot;
    unit.places.set(place, true);
}

/// Notes that a unit stands at a place no more.
fn note_leaving(slots: &mut Vec<UnitSlots>, number: usize, place: usize)
    requires number { number < length slots.old.items }
    requires place { place < 384 }
    ensures numbers { numbers_of slots.new.items ≡ numbers_of slots.old.items }
    ensures sets { IsNoted (sets_of slots.old.items) (sets_of slots.new.items) number place false }
{
    let unit = &mut slots[number];
    unit.places.set(place, false);
}

/// So many empty queues.
fn empty_queues(alloc: Global, count: usize) -> Result<Vec<Queue>, OutOfMemory>
    ensures count { IfOk result (λ queues. length queues.items ≡ count) }
    ensures empty { IfOk result (λ queues. AllByRecursion IsEmptyQueue queues.items) }
{
    let mut queues = Vec::with_capacity(alloc, count)?;
    for _ in 0..count {
        queues.push(Queue::new(true))?;
    }
    Ok(queues)
}

/// The numbers of so many units, each with so many places at none of which it stands.
fn vacant_units(alloc: Global, count: usize, places: usize) -> Result<Vec<Vec<u32>>, OutOfMemory>
    ensures { IfOk result (λ rows. rows_of rows.items ≡ replicate count (replicate places 0)) }
{
    let mut rows = Vec::with_capacity(alloc, count)?;
    for _ in 0..count {
        rows.push(Vec::from_elem(alloc, 0, places)?)?;
    }
    Ok(rows)
}

/// Makes the units so many at least. Those that are new have no place.
fn grow(slots: &mut Vec<UnitSlots>, alloc: Global, count: usize) -> Result<(), OutOfMemory>
    requires { count ≤ all_units }
    ensures grown { IsGrown slots.old.items slots.new.items }
    ensures ok { OnOk result (count ≤ length slots.new.items) }
{
    while slots.len() < count {
        slots.push(UnitSlots {
            numbers: Vec::new(alloc),
            places: PlaceSet::new(),
        })?;
    }
    Ok(())
}

/// So many nodes can be put in. Where there is less room it is made for as many as come soon.
fn make_room(pool: &mut Pool<Node>, need: usize, soon: usize) -> Result<(), OutOfMemory>
    ensures room { OnOk result (need ≤ pool.new.spare) }
    ensures no_less { pool.old.spare ≤ pool.new.spare }
    ensures same { SameSlots pool.old pool.new }
{
    if need <= pool.spare() {
        return Ok(());
    }
    pool.reserve(max(need, soon))?;
    Ok(())
}

/// The units from the first on get these numbers.
fn put_numbers(slots: &mut Vec<UnitSlots>, first: usize, rows: Vec<Vec<u32>>)
    requires inside { first + length rows.items ≤ length slots.old.items }
    ensures numbers { (places : ℕ) → rows_of rows.items ≡ replicate (length rows.items) (replicate places 0) → numbers_of slots.new.items ≡ with_places 0 (numbers_of slots.old.items) first places (length rows.items) }
    ensures sets { sets_of slots.new.items ≡ sets_of slots.old.items }
{
    let mut left = rows;
    for index in 0..left.len() {
        match left.pop() {
            Some(numbers) => {
                let unit = &mut slots[first + index];
                unit.numbers = numbers;
            }
            None => unreachable!(),
        }
    }
}

/// Takes a unit out of the queues at the places of its set, which is empty then.
fn leave_places(pool: &mut Pool<Node>, queues: &mut Vec<Queue>, unit: &mut UnitSlots)
    requires { MayLeave pool.old queues.old.items unit.old }
    ensures left { (may : MayLeave pool.old queues.old.items unit.old) (sets : List PlaceSetRecord) → AreWithout may.sets sets (number_of may.entry) → HasLeft pool.old pool.new queues.old.items queues.new.items unit.old may sets (length queues.old.items) }
    ensures numbers { unit.new.numbers.items ≡ unit.old.numbers.items }
    ensures none { (place : ℕ) → in_set unit.new.places place ≡ false }
{
    law::standing_lists();
    let count = queues.len();
    let mut place = unit.places.next(0);
    while place < count {
        let slot = pool.slot(unit.numbers[place]);
        let queue = &mut queues[place];
        queue.remove(pool, slot);
        place = unit.places.next(place + 1);
    }
    unit.places = PlaceSet::new();
}

impl Layout {
    /// So many empty queues, and no unit that has places.
    pub(crate) fn start(alloc: Global, count: usize) -> Result<Layout, OutOfMemory>
        requires { count ≤ 384 }
        ensures kept { IfOk result AreKeptIn }
        ensures count { IfOk result (λ layout. length layout.queues.items ≡ count) }
        ensures slots { IfOk result (λ layout. slots_of layout ≡ replicate all_units []) }
    {
        Ok(Layout {
            pool: Pool::with_room(alloc, 0)?,
            queues: empty_queues(alloc, count)?,
            slots: Vec::new(alloc),
        })
    }

    /// The unit stands at a place where it did not.
    fn enter(&mut self, place: usize, entry: &Entry)
        requires kept { AreKeptIn self.old }
        requires fits { EntryFitsIn self.old entry.now place }
        requires outside { slot_in (slots_of self.old) (number_of entry.now) place ≡ None }
        ensures kept { AreKeptIn self.new }
        ensures count { length self.new.queues.items ≡ length self.old.queues.items }
        ensures turned { TurnedIn self.old self.new entry.now place true }
    {
        law::standing_lists();
        law::orders();
        law::places();
        let number = number_of(entry);
        let queue = &mut self.queues[place];
        let slot = queue.insert(&mut self.pool, *entry);
        note_entry(&mut self.slots, number, place, slot.number);
    }

    /// The unit stands no more at a place where it has this slot.
    fn leave(&mut self, place: usize, entry: &Entry, slot: Slot)
        requires kept { AreKeptIn self.old }
        requires fits { EntryFitsIn self.old entry.now place }
        requires inside { slot_in (slots_of self.old) (number_of entry.now) place ≡ Some slot }
        ensures kept { AreKeptIn self.new }
        ensures count { length self.new.queues.items ≡ length self.old.queues.items }
        ensures turned { TurnedIn self.old self.new entry.now place false }
    {
        law::standing_lists();
        law::orders();
        let number = number_of(entry);
        let queue = &mut self.queues[place];
        queue.remove(&mut self.pool, slot);
        note_leaving(&mut self.slots, number, place);
    }

    /// Whether the unit stands at the place.
    pub(crate) fn stands_at(&self, place: usize, entry: &Entry) -> bool
        requires kept { AreKeptIn self.now }
        requires fits { EntryFitsIn self.now entry.now place }
        ensures { result ≡ is_some (slot_in (slots_of self.now) (number_of entry.now) place) }
    {
        let unit = &self.slots[number_of(entry)];
        unit.places.contains(place)
    }

    /// The slot of a unit that stands at a place.
    fn slot_at(&self, place: usize, entry: &Entry) -> Slot
        requires kept { AreKeptIn self.now }
        requires fits { EntryFitsIn self.now entry.now place }
        requires stands { IsSome (slot_in (slots_of self.now) (number_of entry.now) place) }
        ensures { slot_in (slots_of self.now) (number_of entry.now) place ≡ Some result }
    {
        let number = number_in(&self.slots, number_of(entry), place);
        self.pool.slot(number)
    }

    /// The unit stands at the place, or does not.
    pub(crate) fn turn_to(&mut self, place: usize, entry: &Entry, stands: bool)
        requires kept { AreKeptIn self.old }
        requires fits { EntryFitsIn self.old entry.now place }
        ensures kept { AreKeptIn self.new }
        ensures count { length self.new.queues.items ≡ length self.old.queues.items }
        ensures turned { TurnedIn self.old self.new entry.now place stands }
    {
        law::standing_lists();
        if self.stands_at(place, entry) == stands {
            return;
        }
        if stands {
            self.enter(place, entry);
            return;
        }
        let slot = self.slot_at(place, entry);
        self.leave(place, entry, slot);
    }

    /// The unit stands nowhere.
    pub(crate) fn leave_all(&mut self, entry: &Entry)
        requires kept { AreKeptIn self.old }
        requires queued { 0 < length self.old.queues.items }
        requires fits { (place : ℕ) → place < length self.old.queues.items → EntryFitsIn self.old entry.now place }
        ensures kept { AreKeptIn self.new }
        ensures count { length self.new.queues.items ≡ length self.old.queues.items }
        ensures left { LeftIn self.old self.new entry.now (length self.old.queues.items) }
    {
        let unit = &mut self.slots[number_of(entry)];
        leave_places(&mut self.pool, &mut self.queues, unit);
    }

    /// The units of a job, from this number on, get places, and room for a node at each. After the refusal the
    /// layout is seen as before: there may be more units, but none of them has a place.
    pub(crate) fn admit(
        &mut self,
        alloc: Global,
        first: usize,
        units: usize,
    ) -> Result<(), OutOfMemory>
        requires kept { AreKeptIn self.old }
        requires all { length (slots_of self.old) ≡ all_units }
        requires inside { first + units ≤ all_units }
        requires new { (k : ℕ) → k < units → length (get_or (slots_of self.old) (first + k) []) ≡ 0 }
        ensures ok { OnOk result (Admits self.old self.new first units) }
        ensures err { OnErr result (Admits self.old self.new first 0) }
    {
        law::standing_lists();
        grow(&mut self.slots, alloc, first + units)?;
        let places = self.queues.len();
        let rows = vacant_units(alloc, units, places)?;
        let need = self.slots.len() * places;
        let machines = places.saturating_sub(MOST_RACKS as usize + 1);
        make_room(&mut self.pool, need, need + NODES_AT_ONCE * machines)?;
        put_numbers(&mut self.slots, first, rows);
        Ok(())
    }
}
