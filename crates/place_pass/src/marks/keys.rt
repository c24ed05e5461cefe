//! Bounds of machines as plain numbers, so that a walk over all machines reads one number of each.

ghost use Rattle.std.specs.Prelude.{◌≡◌, ℕ, ◌+◌, ◌*◌, ◌/◌, ◌⊎◌, ◌^◌, ◌<◌, ◌≤◌, min, length, true, false, is_some};
ghost use Rattle.std.proofs.Common.{get_or};
ghost use Rattle.place_pass.specs.Bounds.{mark_of, key_of};
ghost use Rattle.place_pass.specs.PackedRanks.{packed, no_rank, never_rank, renewed_number, IsSmall, IsAbove};

use super::mark::{Mark, Rank};
use fuxi_terms::OutOfMemory;
use std::alloc::Global;
use std::marker::Model;

/// How many machines stand in a block.
const BLOCK: usize = 16;

/// How many blocks there are.
const BLOCKS: usize = 16;

/// The number of a rank on a machine, which orders as such ranks do.
pub(crate) fn number_of(rank: Rank, machine: u32) -> u128
    ensures number { result ≡ packed rank machine }
    ensures small { IsSmall rank }
{
    let level = rank.late as u128 * 256 + rank.level as u128;
    (level * 18446744073709551616 + rank.turn as u128) * 4294967296 + machine as u128
}

/// The number where there is no rank, which is above those of all ranks.
pub(crate) fn number_of_none() -> u128
    ensures { result ≡ no_rank }
{
    u128::MAX - 1
}

// The number where there is no rank, whatever pairs begin to wait, which is above all others.
fn number_of_never() -> u128
    ensures { result ≡ never_rank }
{
    u128::MAX
}

/// The number of what bounds all pairs on a machine. Pairs with a turn of this one or later may not be looked at yet.
pub(crate) fn number_of_mark(mark: &Mark, until: u64, machine: u32) -> u128
    ensures above { (turns : ℕ) → turns ≤ until → is_some (key_of (mark_of mark.now) turns) ≡ true → IsAbove (mark_of mark.now) turns machine result }
    ensures never { (turns : ℕ) → result ≡ never_rank → turns < 2 ^ 64 → is_some (key_of (mark_of mark.now) turns) ≡ false }
{
    let Some(rank) = mark.bound else {
        if mark.until == u64::MAX {
            return number_of_never();
        }
        if mark.until < until {
            return 0;
        }
        return number_of_none();
    };
    let number = number_of(rank, machine);
    if mark.until < until {
        return 0;
    }
    number
}

// No pair from a turn on is looked at yet on the machines from one on to another. Whether all of them are settled whatever begins to wait.
fn renew(numbers: &mut Vec<u128>, from: usize, to: usize) -> bool
    requires order { from ≤ to }
    requires inside { to ≤ length numbers.old.items }
    ensures long { length numbers.new.items ≡ length numbers.old.items }
    ensures inside { (n : ℕ) → from ≤ n → n < to → get_or numbers.new.items n 0 ≡ renewed_number (get_or numbers.old.items n 0) }
    ensures before { (n : ℕ) → n < from → get_or numbers.new.items n 0 ≡ get_or numbers.old.items n 0 }
    ensures behind { (n : ℕ) → to ≤ n → get_or numbers.new.items n 0 ≡ get_or numbers.old.items n 0 }
    ensures settled { result ≡ true → (n : ℕ) → from ≤ n → n < to → get_or numbers.new.items n 0 ≡ never_rank }
{
    let mut settled = true;
    for place in from..to {
        if numbers[place] == number_of_never() {
            continue;
        }
        numbers[place] = 0;
        settled = false;
    }
    settled
}

// The end of the block in which a place stands.
fn block_end(place: usize, length: usize) -> usize
    requires { place < 256 }
    ensures { result ≡ min length (place / 16 * 16 + 16) }
{
    length.min(place / BLOCK * BLOCK + BLOCK)
}

// The first place from one on to another whose number is below a limit, and the other where there is none.
fn first_below(numbers: &[u128], from: usize, to: usize, limit: u128) -> usize
    requires order { from ≤ to }
    requires inside { to ≤ length numbers.now }
    ensures least { from ≤ result }
    ensures inside { result ≤ to }
    ensures passed { (m : ℕ) → from ≤ m → m < result → limit ≤ get_or numbers.now m 0 }
{
    for place in from..to {
        if numbers[place] < limit {
            return place;
        }
    }
    to
}

// A number that none from one place on to another is below.
fn least_of(numbers: &[u128], from: usize, to: usize) -> u128
    requires { to ≤ length numbers.now }
    ensures { (m : ℕ) → from ≤ m → m < to → result ≤ get_or numbers.now m 0 }
{
    let mut least = u128::MAX;
    for place in from..to {
        least = least.min(numbers[place]);
    }
    least
}

/// A number for each machine, and for each block of machines one that none of them is below, so that a walk over all passes blocks.
#[derive(Drop)]
pub(crate) struct Keys {
    numbers: Vec<u128>,
    floors: [u128; BLOCKS],
    /// A bit for each block whose floor may be raised, since the number that it was of is another one.
    stale: u16,
}

impl Model for Keys {
    ghost use Rattle.std.specs.Prelude.{List, ℕ};
    ghost use Rattle.place_pass.specs.Floors.{AreAboveFloors};

    ghost Value = { List ℕ };

    ghost view = { λ k. k.numbers.items };

    ghost invariant = { λ k. AreAboveFloors k.numbers.items k.floors };
}

impl Keys {
    ghost use Rattle.std.specs.Prelude.{◌≡◌, ℕ, ◌+◌, ◌*◌, ◌/◌, ◌<◌, ◌≤◌, ◌⊎◌, min, length, replicate, set, IfOk};
    ghost use Rattle.std.proofs.Common.{get_or};
    ghost use Rattle.place_pass.specs.PackedRanks.{renewed_number};

    /// The least number for each of so many machines.
    pub(crate) fn new(alloc: Global, machines: usize) -> Result<Keys, OutOfMemory>
        requires { machines ≤ 256 }
        ensures { IfOk result (λ keys. keys ≡ replicate machines 0) }
    {
        Ok(Keys {
            numbers: Vec::from_elem(alloc, 0, machines)?,
            floors: [0; BLOCKS],
            stale: 0,
        })
    }

    /// The number of a machine.
    pub(crate) fn at(&self, machine: usize) -> u128
        requires { machine < length self.now }
        ensures { result ≡ get_or self.now machine 0 }
    {
        self.numbers[machine]
    }

    /// The number of a machine is this one.
    pub(crate) fn put(&mut self, machine: usize, number: u128)
        requires { machine < length self.old }
        ensures { self.new ≡ set self.old machine number }
    {
        let block = machine / BLOCK;
        let floor = self.floors[block];
        let before = self.numbers[machine];
        self.numbers[machine] = number;
        if number < floor {
            self.floors[block] = number;
        } else if before == floor {
            self.stale |= 1 << block;
        }
    }

    // The floor of a block is the least of its numbers.
    fn raise_one(&mut self, block: usize)
        requires { block < 16 }
        ensures { self.new ≡ self.old }
    {
        let start = block * BLOCK;
        let end = block_end(start, self.numbers.len());
        self.floors[block] = least_of(&self.numbers, start, end);
        self.stale &= !(1 << block);
    }

    /// Raises the floors under numbers that were raised. Where one block has all machines a walk reads its numbers as fast.
    pub(crate) fn raise(&mut self)
        ensures { self.new ≡ self.old }
    {
        if self.numbers.len() <= BLOCK {
            return;
        }
        for block in 0..BLOCKS {
            let left = self.stale >> block;
            if left == 0 {
                return;
            }
            if left & 1 == 1 {
                self.raise_one(block);
            }
        }
    }

    // The first place in a block, from one on, whose number is below a limit, and the end of the block where there is none.
    fn next_in_block(&self, from: usize, to: usize, limit: u128) -> usize
        requires from { from < length self.now }
        requires to { to ≡ min (length self.now) (from / 16 * 16 + 16) }
        ensures least { from ≤ result }
        ensures inside { result ≤ to }
        ensures passed { (m : ℕ) → from ≤ m → m < result → limit ≤ get_or self.now m 0 }
    {
        if self.numbers[from] < limit {
            return from;
        }
        if limit <= self.floors[from / BLOCK] {
            return to;
        }
        first_below(&self.numbers, from, to, limit)
    }

    // The start of the first block from one on whose floor is below a limit, and the end of all where there is none.
    fn next_block(&self, from: usize, limit: u128) -> usize
        requires { from ≤ (length self.now + 15) / 16 }
        ensures least { (from * 16 ≤ result) ⊎ (result ≡ length self.now) }
        ensures inside { result ≤ length self.now }
        ensures passed { (m : ℕ) → from * 16 ≤ m → m < result → limit ≤ get_or self.now m 0 }
    {
        let machines = self.numbers.len();
        let low = first_below(&self.floors, from, (machines + BLOCK - 1) / BLOCK, limit);
        machines.min(low * BLOCK)
    }

    /// The first machine from one on whose number is below a limit, and the end where there is none.
    pub(crate) fn next(&self, from: usize, limit: u128) -> usize
        requires { from ≤ length self.now }
        ensures least { from ≤ result }
        ensures inside { result ≤ length self.now }
        ensures passed { (m : ℕ) → from ≤ m → m < result → limit ≤ get_or self.now m 0 }
    {
        let mut at = from;
        while at < self.numbers.len() {
            let end = block_end(at, self.numbers.len());
            let found = self.next_in_block(at, end, limit);
            if found < end {
                return found;
            }
            at = self.next_block(at / BLOCK + 1, limit);
        }
        at
    }

    // No pair from a turn on is looked at yet on the machines of a block, which begins and ends here.
    fn renew_block(&mut self, from: usize, to: usize)
        requires from { from < length self.old }
        requires start { from ≡ from / 16 * 16 }
        requires to { to ≡ min (length self.old) (from / 16 * 16 + 16) }
        ensures long { length self.new ≡ length self.old }
        ensures inside { (m : ℕ) → from ≤ m → m < to → get_or self.new m 0 ≡ renewed_number (get_or self.old m 0) }
        ensures before { (m : ℕ) → m < from → get_or self.new m 0 ≡ get_or self.old m 0 }
        ensures behind { (m : ℕ) → to ≤ m → get_or self.new m 0 ≡ get_or self.old m 0 }
    {
        let block = from / BLOCK;
        if renew(&mut self.numbers, from, to) {
            self.floors[block] = number_of_never();
            return;
        }
        self.floors[block] = 0;
    }

    /// No pair from a turn on is looked at yet, so only a machine that is settled whatever begins to wait has a number above the least.
    pub(crate) fn renew(&mut self)
        ensures long { length self.new ≡ length self.old }
        ensures all { (m : ℕ) → m < length self.new → get_or self.new m 0 ≡ renewed_number (get_or self.old m 0) }
    {
        let machines = self.numbers.len();
        let mut at = 0;
        while at < machines {
            let end = block_end(at, machines);
            self.renew_block(at, end);
            at = end;
        }
        self.stale = 0;
    }
}
