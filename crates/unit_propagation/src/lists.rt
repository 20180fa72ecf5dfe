// The lists of the clauses that watch a literal.
ghost use Rattle.std.specs.Prelude.{◌≡◌, ◌≢◌, ◌<◌, ℕ, [], true, cond, length, slice_index_or, OnOk, IfOk};
ghost use Rattle.unit_propagation.specs.Watches.{is_among, list_at, Keeps, code};

use items::ShortList;
use proof_lines::Lit;
use std::alloc::{AllocError, Global};
use std::mem;

/// The number of the list of a literal.
pub(crate) fn code(lit: Lit) -> usize
    ensures { result ≡ code lit }
{
    let double = lit.atom as usize * 2;
    if lit.positive { double + 1 } else { double }
}

// Makes room for the list with a number.
fn widen(alloc: Global, lists: &mut Vec<ShortList>, number: usize) -> Result<(), AllocError>
    ensures kept { (k : ℕ) → list_at lists.new.items k ≡ list_at lists.old.items k }
    ensures wide { OnOk result (number < length lists.new.items) }
{
    while lists.len() <= number {
        lists.push(ShortList::new(alloc))?;
    }
    Ok(())
}

/// Adds a clause to the list of a literal.
pub(crate) fn enter(
    alloc: Global,
    lists: &mut Vec<ShortList>,
    lit: Lit,
    clause: u32,
) -> Result<(), AllocError>
    ensures kept { OnOk result (Keeps lists.old.items lists.new.items) }
    ensures there { OnOk result (is_among clause (list_at lists.new.items (code lit)) ≡ true) }
{
    let number = code(lit);
    widen(alloc, lists, number)?;
    lists[number].push(clause)?;
    Ok(())
}

/// Exchanges the list with a number for an empty one.
pub(crate) fn exchange(lists: &mut Vec<ShortList>, number: usize, other: &mut ShortList)
    requires empty { other.old ≡ [] }
    ensures other { other.new ≡ list_at lists.old.items number }
    ensures kept { (k : ℕ) → k ≢ number → list_at lists.new.items k ≡ list_at lists.old.items k }
{
    if number < lists.len() {
        mem::swap(&mut lists[number], other);
    }
}
