//! The pool.

ghost use Rattle.std.specs.Prelude.{◌≡◌, ◌≢◌, ℕ, ◌+◌, ◌%◌, ◌^◌, ◌<◌, ◌≤◌, None, Some, is_some, IsSome, IfOk, IsOk, OnOk, OnErr};
ghost use Rattle.std.specs.Borrow.{sem};
ghost use Rattle.slot_pool.specs.Pools.{value_at, generation_at, slot_at, IsEmptyPool, SameSlots};
ghost use Rattle.slot_pool.specs.declared.pool.Slot.{Slot as SlotRecord};

use crate::cell::Cell;
use fuxi_terms::OutOfMemory;
use std::alloc::Global;
use std::marker::Model;
use std::mem;

/// So many numbers a slot can have. Each and one more is a `u32`.
const MOST_NUMBERS: usize = 4_294_967_295;

/// A number, and which of the values that stand under that number one after another is meant.
#[derive(Clone, Copy, Debug, PartialEq, Eq)]
pub struct Slot {
    pub number: u32,
    pub generation: u64,
}

/// Values under slots, seen as a finite map from slots to values, the present generation of each number,
/// and how many values can be put in without memory.
pub struct Pool<T> {
    /// By number, as far as numbers were used.
    cells: Vec<Cell<T>>,
    /// The present generation of each of these numbers.
    generations: Vec<u64>,
    /// The numbers under which nothing stands any more.
    free: Vec<u32>,
    /// So many numbers can be used in all. Each vector has room for them.
    room: usize,
}

impl<T: Drop> Drop for Pool<T> {
    fn drop(self) {
        let Pool {
            cells,
            generations,
            free,
            room,
        } = self;
    }
}

impl<T> Model for Pool<T> {
    ghost use Rattle.std.specs.Prelude.{map, vec_len, vec_capacity, ◌+◌, ◌-◌};
    ghost use Rattle.slot_pool.specs.Pools.{PoolRecord, pool_code};
    ghost use Rattle.slot_pool.specs.PoolLayout.{value_of, IsPool, HasRoom};

    ghost Value = { PoolRecord T };

    ghost coded = { pool_code T.code };

    ghost view = { λ p. record { values = map value_of p.cells.items; generations = p.generations.items; spare = vec_len p.free + (p.room - vec_len p.cells) } };

    ghost invariant = { λ p. IsPool (map value_of p.cells.items) p.generations.items p.free.items p.room × HasRoom p.room (vec_capacity p.cells) (vec_capacity p.generations) (vec_capacity p.free) };
}

impl<T> Pool<T> {
    ghost use Rattle.slot_pool.specs.Lends.{lends_value};

    /// An empty pool into which at least `n` values can be put. `OutOfMemory` as at `reserve`.
    pub fn with_room(alloc: Global, n: usize) -> Result<Pool<T>, OutOfMemory>
    where
        T: Drop,
        ensures empty { IfOk result IsEmptyPool }
        ensures room { IfOk result (λ pool. n ≤ pool.spare) }
    {
        let mut pool = Pool {
            cells: Vec::new(alloc),
            generations: Vec::new(alloc),
            free: Vec::new(alloc),
            room: 0,
        };
        pool.reserve(n)?;
        Ok(pool)
    }

    /// Makes room, so that at least `n` values can be put in. What is reserved is written only as it is used.
    /// `OutOfMemory`: memory was refused, or more than 2^32 - 1 numbers are needed; the pool is as before.
    pub fn reserve(&mut self, n: usize) -> Result<(), OutOfMemory>
        ensures room { OnOk result (n ≤ self.new.spare) }
        ensures no_less { OnOk result (self.old.spare ≤ self.new.spare) }
        ensures enough { n ≤ self.old.spare → IsOk result }
        ensures same { OnOk result (SameSlots self.old self.new) }
        ensures err { OnErr result (self.new ≡ self.old) }
    {
        let spare = self.spare();
        if n <= spare {
            return Ok(());
        }
        let more = n - spare;
        if more > MOST_NUMBERS - self.room {
            return Err(OutOfMemory);
        }
        let room = self.room + more;
        self.cells.reserve(room - self.cells.len())?;
        self.generations.reserve(room - self.generations.len())?;
        self.free.reserve(room - self.free.len())?;
        self.room = room;
        Ok(())
    }

    /// How many values can be put in.
    pub fn spare(&self) -> usize
        ensures { result ≡ self.now.spare }
    {
        self.free.len() + (self.room - self.cells.len())
    }

    /// The present generation of a number.
    fn generation(&self, number: u32) -> u64
        ensures { result ≡ generation_at self.now number }
    {
        let index = number as usize;
        if index >= self.generations.len() {
            return 0;
        }
        self.generations[index]
    }

    /// The slot of a number in its present generation. Of the slots of that number no other is live.
    pub fn slot(&self, number: u32) -> Slot
        ensures slot { result ≡ slot_at self.now number }
        ensures live { (slot : SlotRecord) → slot.number ≡ number → IsSome (value_at self.now slot) → result ≡ slot }
    {
        Slot {
            number,
            generation: self.generation(number),
        }
    }

    /// The number of each slot that is live is below 2^32 - 1. The call does nothing.
    pub fn bound_numbers(&self)
        ensures { (slot : SlotRecord) → IsSome (value_at self.now slot) → slot.number + 1 < 2 ^ 32 }
    {
        let _room = self.room;
    }

    /// Whether a value stands under the slot.
    pub fn live(&self, slot: Slot) -> bool
        ensures { result ≡ is_some (value_at self.now slot) }
    {
        let index = slot.number as usize;
        if index >= self.cells.len() || self.generations[index] != slot.generation {
            return false;
        }
        match &self.cells[index] {
            Cell::Live(_) => true,
            Cell::Vacant => false,
        }
    }

    /// The value under the slot.
    pub fn get(&self, slot: Slot) -> &T
        requires { IsSome (value_at self.now slot) }
        ensures { value_at self.now slot ≡ Some result.now }
    {
        self.cells[slot.number as usize].value()
    }

    /// The value under the slot, for writing.
    pub fn get_mut(&mut self, slot: Slot) -> &mut T
        requires { IsSome (value_at self.old slot) }
        ensures* writes_back { sem 𝓛 (lends_value T.row self.entry slot.number result) }
        ensures value { value_at self.old slot ≡ Some result.now }
    {
        self.cells[slot.number as usize].value_mut()
    }

    /// Puts the value in, under a slot that is not live. It takes no memory.
    pub fn put(&mut self, value: T) -> Slot
        requires { 0 < self.old.spare }
        ensures absent { value_at self.old result ≡ None }
        ensures generation { result.generation ≡ generation_at self.old result.number }
        ensures put { value_at self.new result ≡ Some value }
        ensures others { (slot : SlotRecord) → slot ≢ result → value_at self.new slot ≡ value_at self.old slot }
        ensures generations { (number : ℕ) → generation_at self.new number ≡ generation_at self.old number }
        ensures spare { self.new.spare + 1 ≡ self.old.spare }
    {
        match self.free.pop() {
            Some(number) => {
                let index = number as usize;
                match mem::replace(&mut self.cells[index], Cell::Live(value)) {
                    Cell::Vacant => {}
                    Cell::Live(_) => unreachable!(),
                }
                Slot {
                    number,
                    generation: self.generations[index],
                }
            }
            None => {
                let number = self.cells.len() as u32;
                self.cells.push_reserved(Cell::Live(value));
                self.generations.push_reserved(0);
                Slot {
                    number,
                    generation: 0,
                }
            }
        }
    }

    /// Takes the value out from under the slot, and moves its number on to the next generation. The slot is
    /// not live again before its number was taken 2^64 times.
    pub fn take(&mut self, slot: Slot) -> T
        requires { IsSome (value_at self.old slot) }
        ensures value { value_at self.old slot ≡ Some result }
        ensures gone { value_at self.new slot ≡ None }
        ensures others { (other : SlotRecord) → other ≢ slot → value_at self.new other ≡ value_at self.old other }
        ensures generation { generation_at self.new slot.number ≡ (slot.generation + 1) % 2 ^ 64 }
        ensures generations { (number : ℕ) → number ≢ slot.number → generation_at self.new number ≡ generation_at self.old number }
        ensures spare { self.new.spare ≡ self.old.spare + 1 }
    {
        let index = slot.number as usize;
        self.generations[index] = slot.generation.wrapping_add(1);
        self.free.push_reserved(slot.number);
        match mem::replace(&mut self.cells[index], Cell::Vacant) {
            Cell::Live(value) => value,
            Cell::Vacant => unreachable!(),
        }
    }
}
