// Obligations.

use spec_core::Thing;

/// What is to be shown of a specification, by the places of its invariants, operations, requires lines and things.
#[derive(Clone, Copy, PartialEq, Eq, Debug)]
pub enum Obligation {
    /// The invariant is true in the initial state.
    Init { inv: u8 },
    /// The invariant is true after the operation.
    Safety { op: u8, inv: u8 },
    /// The thing reads the same after the two operations in either order. The first doesn't stand after the second.
    Commute { first: u8, second: u8, thing: Thing },
    /// The requires line of the operation is true after the other operation. Lines are counted from 0.
    Stable { op: u8, line: u8, other: u8 },
}
