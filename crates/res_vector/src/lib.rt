//! Vectors of resources: what a grant takes, what a machine has, what a group may use. A vector has one
//! place for each of up to eight resources; places past those of the cluster are 0. Nothing here allocates.
#![tactic(auto)]

ghost use Rattle.std.specs.Prelude.{◌≡◌, ◌<◌, ◌≤◌, ◌^◌, IsTrue, List, ℕ, length, replicate};
ghost use Rattle.std.specs.List.{All};
ghost use Rattle.fuxi_terms.specs.Cluster.{are_quantities};
ghost use Rattle.fuxi_terms.specs.Vectors.{fits, is_zero, plus as sum_of, minus as difference_of, times as multiple_of};
ghost use Rattle.fuxi_terms.specs.Padded.{padded};

pub mod law;

pub use fuxi_terms::limits::GREATEST_QUANTITY;
pub use fuxi_terms::{Res, Sum};

/// Nothing of any resource.
pub fn zero() -> Res
    ensures { result.q ≡ replicate 8 0 }
{
    Res { q: [0; 8] }
}

/// Whether each of these is at most the greatest quantity.
pub fn are_quantities(quantities: &[u64]) -> bool
    ensures { result ≡ are_quantities quantities.now }
{
    quantities
        .iter()
        .all(|quantity| *quantity <= GREATEST_QUANTITY)
}

/// Whether each of these is 0.
pub fn is_zero(quantities: &[u64]) -> bool
    ensures { result ≡ is_zero quantities.now }
{
    quantities.iter().all(|quantity| *quantity == 0)
}

/// The vector that begins with these quantities, with zeros behind.
pub fn from_quantities(quantities: &[u64]) -> Res
    requires { length quantities.now ≤ 8 }
    ensures { result.q ≡ padded quantities.now }
{
    let mut q = [0; 8];
    q[..quantities.len()].copy_from_slice(quantities);
    Res { q }
}

/// Whether each place of the size is at most that of what is free.
pub fn fits(size: &Res, free: &Res) -> bool
    ensures { result ≡ fits size.now.q free.now.q }
{
    for i in 0..8 {
        if size.q[i] > free.q[i] {
            return false;
        }
    }
    true
}

/// Whether each place of `a` is at least that of `b`.
pub fn at_least(a: &Res, b: &Res) -> bool
    ensures { result ≡ fits b.now.q a.now.q }
{
    fits(b, a)
}

/// The sum, place by place.
pub fn plus(a: &Res, b: &Res) -> Res
    requires { All (λ n. n < 2 ^ 64) (sum_of a.now.q b.now.q) }
    ensures { result.q ≡ sum_of a.now.q b.now.q }
{
    let mut q = [0; 8];
    for i in 0..8 {
        q[i] = a.q[i] + b.q[i];
    }
    Res { q }
}

/// What is left of `a` without `b`, place by place.
pub fn minus(a: &Res, b: &Res) -> Res
    requires { IsTrue (fits b.now.q a.now.q) }
    ensures { result.q ≡ difference_of a.now.q b.now.q }
{
    let mut q = [0; 8];
    for i in 0..8 {
        q[i] = a.q[i] - b.q[i];
    }
    Res { q }
}

/// The size so many times, place by place.
pub fn times(size: &Res, count: u32) -> Sum
    ensures { result.q ≡ multiple_of count size.now.q }
{
    let mut q = [0; 8];
    for i in 0..8 {
        q[i] = count as u128 * size.q[i] as u128;
    }
    Sum { q }
}

/// The sum of two totals, place by place.
pub fn add(a: &Sum, b: &Sum) -> Sum
    requires { All (λ n. n < 2 ^ 128) (sum_of a.now.q b.now.q) }
    ensures { result.q ≡ sum_of a.now.q b.now.q }
{
    let mut q = [0; 8];
    for place in 0..8 {
        q[place] = a.q[place] + b.q[place];
    }
    Sum { q }
}

/// Whether each place of the total is at most that of what there is.
pub fn sum_fits(total: &Sum, has: &Res) -> bool
    ensures { result ≡ fits total.now.q has.now.q }
{
    for i in 0..8 {
        if total.q[i] > has.q[i] as u128 {
            return false;
        }
    }
    true
}
