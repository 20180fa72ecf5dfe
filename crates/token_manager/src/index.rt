// The lists of all operations.

ghost use Rattle.std.specs.Prelude.{◌≡◌, ◌<◌, List, [], length, slice_get, OnOk};
ghost use Rattle.token_protocol.specs.declared.granted.Granted.{Granted as Grant};
ghost use Rattle.token_manager.specs.Index.{numbers_from, numbers_at, IsUpTo, AreUpTo};

use crate::candidates::Candidates;
use std::alloc::{AllocError, Global};
use std::marker::Model;
use token_protocol::Granted;
use token_rules::Rivalry;

/// For each operation, the numbers of the grants that can conflict with its calls, as far as they were gone through.
#[derive(Drop)]
pub struct GrantIndex {
    lists: Vec<Candidates>,
}

impl Model for GrantIndex {
    ghost use Rattle.std.specs.Prelude.{List};
    ghost use Rattle.token_manager.specs.declared.candidates.Candidates.{Candidates};

    ghost Value = { List Candidates };

    ghost view = { λ a. a.lists.items };
}

// A list for each operation up to this one.
fn reach(lists: &mut Vec<Candidates>, alloc: Global, op: u8) -> Result<(), AllocError>
    ensures kept { (granted : List Grant) → AreUpTo granted lists.old.items
        → AreUpTo granted lists.new.items }
    ensures reached { OnOk result (op < length lists.new.items) }
{
    while lists.len() <= op as usize {
        lists.push(Candidates::new(alloc))?;
    }
    Ok(())
}

// Catches up a list for these rivals.
fn bring_up(
    list: &mut Candidates,
    alloc: Global,
    rivals: &[Rivalry],
    granted: &[Granted],
) -> Result<(), AllocError>
    requires list { IsUpTo granted.now list.old }
    ensures list { IsUpTo granted.now list.new }
    ensures numbers { OnOk result (list.new.numbers ≡ numbers_from rivals.now 0 granted.now) }
{
    list.follow(alloc, rivals)?;
    list.catch_up(granted)
}

impl GrantIndex {
    /// An index without a list.
    pub fn new(alloc: Global) -> GrantIndex
        ensures { result ≡ [] }
    {
        GrantIndex {
            lists: Vec::new(alloc),
        }
    }

    /// Catches up the list of an operation, with the rivals that it has now.
    pub fn catch_up(
        &mut self,
        alloc: Global,
        op: u8,
        rivals: &[Rivalry],
        granted: &[Granted],
    ) -> Result<(), AllocError>
        requires index { AreUpTo granted.now self.old }
        ensures index { AreUpTo granted.now self.new }
        ensures numbers { OnOk result
            (numbers_at self.new op ≡ numbers_from rivals.now 0 granted.now) }
    {
        reach(&mut self.lists, alloc, op)?;
        bring_up(&mut self.lists[op as usize], alloc, rivals, granted)
    }

    /// The numbers on the list of an operation, in their order; none where there is no list.
    pub fn numbers(&self, op: u8) -> &[usize]
        ensures { result.now ≡ numbers_at self.now op }
    {
        match self.lists.get(op as usize) {
            Some(list) => list.numbers.as_slice(),
            None => &[],
        }
    }
}
