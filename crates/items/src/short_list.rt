// Lists of numbers, most of which are short: the first few numbers stand in the list itself, and only those behind them take memory of
// their own.
//
// Whoever keeps thousands of lists of a few numbers each, as a search does of the clauses that watch a literal, would else take memory
// for each of them, and give it back. A number is put in and taken out at the end, as with any list of the project; contracts see the
// list of its elements.
ghost use Rattle.std.specs.Prelude.{◌≡◌, [], ◌∷◌, ◌++◌, OnOk, OnErr, IfSome, IfNone};

use crate::Items;
use std::alloc::{AllocError, Global};
use std::marker::Model;

// So many numbers stand in the list itself.
const FEW: usize = 6;

/// A growing list of numbers, seen by contracts as the list of its elements. The first `count` of the front are the first numbers, and
/// the rest follow them.
#[derive(Drop)]
pub struct ShortList {
    front: [u32; 6],
    count: usize,
    rest: Items<u32>,
}

impl Model for ShortList {
    ghost use Rattle.std.specs.Prelude.{List, ℕ, ◌≤◌, ◌++◌, take};

    ghost Value = { List ℕ };

    ghost view = { λ a. take a.count a.front ++ a.rest };

    ghost invariant = { λ a. a.count ≤ 6 };
}

impl ShortList {
    /// An empty list, which takes no memory until it is long.
    pub fn new(alloc: Global) -> ShortList
        ensures { result ≡ [] }
    {
        ShortList {
            front: [0, 0, 0, 0, 0, 0],
            count: 0,
            rest: Items::new(alloc),
        }
    }

    /// Adds a number at the end. A refused one leaves the list as it was.
    pub fn push(&mut self, number: u32) -> Result<(), AllocError>
        ensures ok { OnOk result (self.new ≡ self.old ++ number ∷ []) }
        ensures err { OnErr result (self.new ≡ self.old) }
    {
        if self.count < FEW && self.rest.is_empty() {
            self.front[self.count] = number;
            self.count += 1;
            return Ok(());
        }
        self.rest.push(number)
    }

    /// Takes the last number out.
    pub fn pop(&mut self) -> Option<u32>
        ensures last { IfSome result (λ number. self.old ≡ self.new ++ number ∷ []) }
        ensures none { IfNone result (self.old ≡ []) }
        ensures none_left { IfNone result (self.new ≡ []) }
    {
        if let Some(number) = self.rest.pop() {
            return Some(number);
        }
        if self.count == 0 {
            return None;
        }
        self.count -= 1;
        Some(self.front[self.count])
    }

    /// Takes all numbers out. The memory stays.
    pub fn clear(&mut self)
        ensures { self.new ≡ [] }
    {
        self.count = 0;
        self.rest.clear();
    }
}
