//! A set of small numbers.

ghost use Rattle.std.specs.Prelude.{◌≡◌, ◌<◌, ℕ, T, [], map, true};
ghost use Rattle.std.specs.List.{AllByRecursion};
ghost use Rattle.std.specs.Ordering.{nat_cmp};
ghost use Rattle.std.specs.FinMap.Entries.{is_sorted};
ghost use Rattle.fuxi_terms.specs.Numbers.{has_number, with_number, without_number};
ghost use Rattle.hard_state.specs.Bans.{marked_from};

use std::marker::Model;

/// A set of numbers up to 255, as of machines: a mark for each. Seen as the rising list of the numbers. It takes no memory.
#[derive(Drop)]
pub struct NumberSet {
    marks: [bool; 256],
}

impl Model for NumberSet {
    ghost use Rattle.std.specs.Prelude.{List, ℕ};
    ghost use Rattle.hard_state.specs.Bans.{marked_from};

    ghost Value = { List ℕ };

    ghost view = { λ s. marked_from 0 s.marks };
}

impl NumberSet {
    /// The empty set.
    pub fn none() -> NumberSet
        ensures { result ≡ [] }
    {
        NumberSet {
            marks: [false; 256],
        }
    }

    /// The same set once more.
    pub fn copy(&self) -> NumberSet
        ensures { result ≡ self.now }
    {
        NumberSet { marks: self.marks }
    }

    /// Whether the number is in the set.
    pub fn has(&self, number: u32) -> bool
        ensures has { result ≡ has_number number self.now }
        ensures below { result ≡ true → number < 256 }
    {
        is_marked(&self.marks, number)
    }

    /// They rise, and each is at most 255.
    pub fn rising(&self)
        ensures rise { T (is_sorted {X = ℕ} nat_cmp (map (λ (n : ℕ). (n, 0)) self.now)) }
        ensures low { AllByRecursion (λ n. n < 256) self.now }
    {
        marks_rise(&self.marks);
    }

    /// Puts the number into the set.
    pub fn insert(&mut self, number: u32)
        requires { number < 256 }
        ensures { self.new ≡ with_number number self.old }
    {
        mark(&mut self.marks, number);
    }

    /// Takes the number out of the set.
    pub fn remove(&mut self, number: u32)
        requires { number < 256 }
        ensures { self.new ≡ without_number number self.old }
    {
        unmark(&mut self.marks, number);
    }
}

fn is_marked(marks: &[bool; 256], number: u32) -> bool
    ensures marked { result ≡ has_number number (marked_from 0 marks.now) }
    ensures below { result ≡ true → number < 256 }
{
    if number >= 256 {
        return false;
    }
    marks[number as usize]
}

// The numbers that are marked rise.
fn marks_rise(marks: &[bool; 256])
    ensures rise { T (is_sorted {X = ℕ} nat_cmp (map (λ (n : ℕ). (n, 0)) (marked_from 0 marks.now))) }
    ensures low { AllByRecursion (λ n. n < 256) (marked_from 0 marks.now) }
{}

fn mark(marks: &mut [bool; 256], number: u32)
    requires { number < 256 }
    ensures { marked_from 0 marks.new ≡ with_number number (marked_from 0 marks.old) }
{
    marks[number as usize] = true;
}

fn unmark(marks: &mut [bool; 256], number: u32)
    requires { number < 256 }
    ensures { marked_from 0 marks.new ≡ without_number number (marked_from 0 marks.old) }
{
    marks[number as usize] = false;
}
