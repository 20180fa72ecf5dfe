// The values of the integer names: how far the latest visit of each is above that of 0.
ghost use Rattle.std.specs.Prelude.{◌≡◌, ◌-ℤ◌, ◌≤ℤ◌, neg_ℤ, pos, IfOk};
ghost use Rattle.diff_bounds.specs.{Differences.{state_limit}, Values.{AreValues}};
ghost use Rattle.diff_bounds.specs.States.{AreKept};

use crate::edges::Edge;
use crate::walks::Walks;
use items::Items;
use std::alloc::{AllocError, Global};

fn difference(a: &i128, b: &i128) -> i128
    requires a_low { neg_ℤ (pos state_limit) ≤ℤ a.now }
    requires a_high { a.now ≤ℤ pos 0 }
    requires b_low { neg_ℤ (pos state_limit) ≤ℤ b.now }
    requires b_high { b.now ≤ℤ pos 0 }
    ensures { result ≡ a.now -ℤ b.now }
{
    *a - *b
}

/// The values of the integer names.
pub fn values_of(alloc: Global, walks: &Walks, edges: &[Edge]) -> Result<Items<i128>, AllocError>
    requires { AreKept edges.now walks.now }
    ensures { IfOk result
        (λ values. AreValues walks.now.ints walks.now.visits.items walks.now.latest.items values) }
{
    let zero = walks.now_at(walks.ints as usize);
    let mut values = Items::new(alloc);
    for place in 0..walks.ints {
        let visit = walks.now_at(place as usize);
        values.push(difference(&visit.value, &zero.value))?;
    }
    Ok(values)
}
