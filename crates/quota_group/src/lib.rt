//! The tests of a group's quota and limit. Each goes resource by resource, and takes no memory.
#![tactic(auto)]

ghost use Rattle.std.specs.Prelude.{◌≡◌, IsTrue};
ghost use Rattle.fuxi_terms.specs.Vectors.{fits, plus, minus};

use cluster_desc::Group;
use res_vector::{Res, fits, minus};

/// Whether the group may have one grant of this size more: what is used and the size are together within its
/// limit in each resource.
pub fn allows(group: &Group, used: &Res, size: &Res) -> bool
    ensures { result ≡ fits (plus used.now.q size.now.q) group.now.limit.q }
{
    sum_within(used, size, &group.limit)
}

/// Whether what is used and the size are together within the group's quota in each resource.
pub fn guaranteed(group: &Group, used: &Res, size: &Res) -> bool
    ensures { result ≡ fits (plus used.now.q size.now.q) group.now.quota.q }
{
    sum_within(used, size, &group.quota)
}

/// Whether the group keeps at least its quota in each resource without what was taken already and one grant
/// of this size. What was taken and the size must be part of what is used.
pub fn spares(group: &Group, used: &Res, taken: &Res, size: &Res) -> bool
    requires { IsTrue (fits (plus taken.now.q size.now.q) used.now.q) }
    ensures { result ≡ fits group.now.quota.q (minus (minus used.now.q taken.now.q) size.now.q) }
{
    let left = minus(&minus(used, taken), size);
    fits(&group.quota, &left)
}

// Whether a sum is within a bound. It may pass 64 bits.
fn sum_within(used: &Res, size: &Res, most: &Res) -> bool
    ensures { result ≡ fits (plus used.now.q size.now.q) most.now.q }
{
    for i in 0..8 {
        if used.q[i] as u128 + size.q[i] as u128 > most.q[i] as u128 {
            return false;
        }
    }
    true
}
