// The list of an operation.

ghost use Rattle.std.specs.Prelude.{◌≡◌, List, [], ◌∷◌, ◌++◌, cond, OnOk, OnErr};
ghost use Rattle.token_manager.specs.Index.{can_conflict, numbers_from, IsUpTo};
ghost use Rattle.token_manager.specs.Same.{same_rivalry, same_rivals};
ghost use Rattle.token_protocol.specs.declared.granted.Granted.{Granted as Grant};

use items::Items;
use std::alloc::{AllocError, Global};
use token_protocol::Granted;
use token_rules::Rivalry;

/// The numbers of the grants that can conflict with calls of an operation, among so many grants from the first.
#[derive(Drop)]
pub struct Candidates {
    /// For each operation, how its calls can conflict with calls of this one.
    pub rivals: Items<Rivalry>,
    /// How many grants were gone through.
    pub gone_through: usize,
    pub numbers: Items<usize>,
}

fn same_rivalry(a: &Rivalry, b: &Rivalry) -> bool
    ensures { result ≡ same_rivalry a.now b.now }
{
    match *a {
        Rivalry::Never => match *b {
            Rivalry::Never => true,
            _ => false,
        },
        Rivalry::Tied(first, second) => match *b {
            Rivalry::Tied(third, fourth) => first == third && second == fourth,
            _ => false,
        },
        Rivalry::Free => match *b {
            Rivalry::Free => true,
            _ => false,
        },
    }
}

fn same_rivals(a: &[Rivalry], b: &[Rivalry]) -> bool
    ensures { result ≡ same_rivals a.now b.now }
{
    match a {
        [] => b.is_empty(),
        [one, a @ ..] => match b {
            [] => false,
            [other, b @ ..] => same_rivalry(one, other) && same_rivals(a, b),
        },
    }
}

// Calls of this operation can conflict.
fn can_conflict(rivals: &[Rivalry], op: u8) -> bool
    ensures { result ≡ can_conflict rivals.now op }
{
    match rivals.get(op as usize) {
        None => true,
        Some(Rivalry::Never) => false,
        Some(Rivalry::Tied(..)) => true,
        Some(Rivalry::Free) => true,
    }
}

// Lists the grant of this number, if its call can conflict.
fn note(
    numbers: &mut Items<usize>,
    rivals: &[Rivalry],
    number: usize,
    granted: &Granted,
) -> Result<(), AllocError>
    ensures ok { OnOk result
        (numbers.new ≡ numbers.old
        ++ cond (can_conflict rivals.now granted.now.call.op) (number ∷ []) []) }
    ensures err { OnErr result (numbers.new ≡ numbers.old) }
{
    if can_conflict(rivals, granted.call.op) {
        numbers.push(number)?;
    }
    Ok(())
}

impl Candidates {
    /// A list for which no grant was gone through.
    pub fn new(alloc: Global) -> Candidates
        ensures { (granted : List Grant) → IsUpTo granted result }
    {
        Candidates {
            rivals: Items::new(alloc),
            gone_through: 0,
            numbers: Items::new(alloc),
        }
    }

    /// Takes these rivals for its own. Where they are others than before, the list is begun anew.
    pub fn follow(&mut self, alloc: Global, rivals: &[Rivalry]) -> Result<(), AllocError>
        ensures kept { (granted : List Grant) → IsUpTo granted self.old → IsUpTo granted self.new }
        ensures rivals { OnOk result (self.new.rivals ≡ rivals.now) }
    {
        if same_rivals(self.rivals.as_slice(), rivals) {
            return Ok(());
        }
        let rivals = Items::from_slice(alloc, rivals)?;
        *self = Candidates {
            rivals,
            gone_through: 0,
            numbers: Items::new(alloc),
        };
        Ok(())
    }

    /// Goes through the grants that it hasn't gone through.
    pub fn catch_up(&mut self, granted: &[Granted]) -> Result<(), AllocError>
        requires list { IsUpTo granted.now self.old }
        ensures list { IsUpTo granted.now self.new }
        ensures rivals { self.new.rivals ≡ self.old.rivals }
        ensures numbers { OnOk result
            (self.new.numbers ≡ numbers_from self.old.rivals 0 granted.now) }
    {
        for number in self.gone_through..granted.len() {
            note(
                &mut self.numbers,
                self.rivals.as_slice(),
                number,
                &granted[number],
            )?;
            self.gone_through = number + 1;
        }
        Ok(())
    }
}
