// Which entries of a trail are decisions: a stack of their places, the last on top.
ghost use Rattle.std.specs.Prelude.{◌≡◌, ℕ, List, OnOk, OnErr, reverse};
ghost use Rattle.sat_core.specs.Places.{with_decision, top_place, some_place};

use crate::trail::Entry;
use std::alloc::AllocError;

/// Puts the place of an entry on the stack, where the entry is a decision. A refused one leaves the stack as it was.
pub(crate) fn note(decisions: &mut Vec<usize>, place: usize, entry: Entry) -> Result<(), AllocError>
    ensures ok { OnOk result (reverse decisions.new.items
        ≡ with_decision entry.reason place (reverse decisions.old.items)) }
    ensures err { OnErr result (decisions.new.items ≡ decisions.old.items) }
{
    if entry.reason.is_none() {
        decisions.push(place)?;
    }
    Ok(())
}

/// Takes the place of an entry that was noted last from the stack.
pub(crate) fn forget(decisions: &mut Vec<usize>, entry: Entry)
    ensures { (place : ℕ) (rest : List ℕ) → reverse decisions.old.items
        ≡ with_decision entry.reason place rest → reverse decisions.new.items ≡ rest }
{
    if entry.reason.is_none() {
        decisions.pop();
    }
}

/// Whether there is a decision.
pub(crate) fn is_some(decisions: &[usize]) -> bool
    ensures { result ≡ some_place (reverse decisions.now) }
{
    !decisions.is_empty()
}

/// The place of the last decision, or 0 where there is none.
pub(crate) fn top(decisions: &[usize]) -> usize
    ensures { result ≡ top_place (reverse decisions.now) }
{
    match decisions.last() {
        Some(place) => *place,
        None => 0,
    }
}
