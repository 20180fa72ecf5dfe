// Tuples of constants, as parts of what is numbered.
ghost use Rattle.std.specs.{Prelude.{◌≡◌, IfOk, nat_eq}, Cmp.Lexicographic.{pointwise}};
ghost use Rattle.std.specs.Cmp.Rules.{comparing, hashing};
ghost use Rattle.std.specs.Hash as fed;
ghost use Rattle.std.proofs.Common.{rules};

use std::alloc::{AllocError, Global};
use std::hash::{Hash, Hasher};
use std::marker::Model;

/// The constants at the places of a relation or at the keys of a counter: three at most, which stand in the tuple itself, so that it
/// takes no memory of its own. Those behind the first `count` have no meaning.
#[derive(Drop)]
pub struct Tuple {
    consts: [u32; 3],
    count: u8,
}

impl Model for Tuple {
    ghost use Rattle.std.specs.Prelude.{List, ℕ, ◌≤◌, take};

    ghost Value = { List ℕ };

    ghost view = { λ t. take t.count t.consts };

    ghost invariant = { λ t. t.count ≤ 3 };
}

impl Tuple {
    /// The tuple of these constants. It is refused where they are more than a relation may have places.
    pub fn of(_alloc: Global, consts: &[u32]) -> Result<Tuple, AllocError>
        ensures { IfOk result (λ t. t ≡ consts.now) }
    {
        match consts {
            [] => Ok(Tuple {
                consts: [0, 0, 0],
                count: 0,
            }),
            [a] => Ok(Tuple {
                consts: [*a, 0, 0],
                count: 1,
            }),
            [a, b] => Ok(Tuple {
                consts: [*a, *b, 0],
                count: 2,
            }),
            [a, b, c] => Ok(Tuple {
                consts: [*a, *b, *c],
                count: 3,
            }),
            _ => Err(AllocError),
        }
    }

    /// The constants, by place.
    pub fn consts(&self) -> &[u32]
        ensures { result.now ≡ self.now }
    {
        &self.consts[..self.count as usize]
    }

    /// A tuple equal to this one.
    pub fn copy(&self, _alloc: Global) -> Result<Tuple, AllocError>
        ensures { IfOk result (λ t. t ≡ self.now) }
    {
        Ok(Tuple {
            consts: self.consts,
            count: self.count,
        })
    }
}

// Whether constants are equal, place by place. Those of one and two places are compared without a loop.
fn same_consts(left: &[u32], right: &[u32]) -> bool
    ensures { result ≡ pointwise nat_eq left.now right.now }
{
    match (left, right) {
        ([a], [b]) => *a == *b,
        ([a, b], [c, d]) => *a == *c && *b == *d,
        _ => left == right,
    }
}

impl PartialEq for Tuple {
    ghost eq = { pointwise nat_eq };

    ghost laws = { Prim.search (comparing, rules) };

    fn eq(&self, other: &Tuple) -> bool {
        same_consts(self.consts(), other.consts())
    }
}

impl Eq for Tuple {
    ghost laws = { Prim.search (comparing, rules) };
}

impl Hash for Tuple {
    ghost hash_input = { λ t. fed.slice fed.u32 t };

    ghost respects_eq = { Prim.search (hashing, rules) };

    fn hash<H: Hasher>(&self, state: &mut H) {
        self.consts().hash(state);
    }
}
