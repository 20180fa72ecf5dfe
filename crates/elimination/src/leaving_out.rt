// Going on where a combination leaves the range of a row.
//
// The combination is left out, and the elimination goes on without it. Each row that is held follows from the given ones all the same, so
// a contradiction among them refutes the given rows. Nothing else counts from then on: numbers that satisfy what is held need not satisfy
// what was left out, and rows that were never made make neither a gap nor too many. So the answer is a conflict, or else the
// first combination that was left out, with the steps up to it.
//
// Nothing is promised of the way to a contradiction. What it rests on is tested by the rule of a Farkas line. Combinations of such rows have
// long numbers and may be made by the million without one that is new, so the way ends after some pairs of rows.
ghost use Rattle.std.specs.Prelude.{IfSome};
ghost use Rattle.theory_api.specs.Laws.{IsConflict};

use crate::choosing::fewest;
use crate::eliminate::without;
use crate::held::Held;
use crate::order::{Order, prefix};
use crate::sides::of_side;
use crate::steps::{is_needed, step_of};
use crate::tableau::ROW_LIMIT;
use crate::trim::{Conflict, conflict_in};
use items::Items;
use lin_rows::{Combined, Row, combine};
use line_rows::splitting::{is_negative, is_positive};
use proof_lines::RowStep;
use std::alloc::{AllocError, Global};

/// The most pairs of rows that are combined after that.
const PAIR_LIMIT: u32 = 10_000;

/// What stands when a combination is left out.
#[derive(Drop)]
pub struct Rest {
    pub held: Held,
    /// The places that are eliminated; pairs at the last one may be left.
    pub order: Order,
    pub left: Items<u32>,
    /// The steps since then.
    pub steps: Items<RowStep>,
}

// How an elimination goes on.
#[derive(Clone, Copy)]
enum Going {
    On,
    /// The last held row is a contradiction.
    Refuted,
    /// All places are eliminated, as many rows as the limit says are held or pairs are combined, or there is no memory.
    Over,
}

// The combination of two rows at a place; nothing where it leaves the range of a row.
fn combination(
    alloc: Global,
    held: &[Row],
    upper: u32,
    lower: u32,
    place: u32,
) -> Option<Combined> {
    let high = held.get(upper as usize)?;
    let low = held.get(lower as usize)?;
    if is_positive(&high.coefficient(place)) && is_negative(&low.coefficient(place)) {
        return combine(alloc, high, low, place).ok();
    }
    None
}

// Holds a combination, where it is needed.
fn hold(rest: &mut Rest, alloc: Global, upper: u32, lower: u32, sum: Combined) -> Going {
    let step = step_of(upper, lower, &sum);
    if !is_needed(&rest.held, &sum.row) {
        drop(sum);
        return Going::On;
    }
    let refuted = sum.row.is_contradiction();
    let Ok(()) = rest.held.push(alloc, sum.row) else {
        return Going::Over;
    };
    let Ok(()) = rest.steps.push(step) else {
        return Going::Over;
    };
    if refuted {
        Going::Refuted
    } else if rest.held.len() >= ROW_LIMIT {
        Going::Over
    } else {
        Going::On
    }
}

// Combines an upper row with each of some lower ones.
fn combine_one(
    rest: &mut Rest,
    alloc: Global,
    place: u32,
    upper: u32,
    lowers: &[u32],
    pairs: &mut u32,
) -> Going {
    for lower in lowers {
        let Some(left) = pairs.checked_sub(1) else {
            return Going::Over;
        };
        *pairs = left;
        let Some(sum) = combination(alloc, rest.held.as_slice(), upper, *lower, place) else {
            continue;
        };
        match hold(rest, alloc, upper, *lower, sum) {
            Going::On => {}
            other => return other,
        }
    }
    Going::On
}

// Combines each of some upper rows with each of some lower ones.
fn combine_all(
    rest: &mut Rest,
    alloc: Global,
    place: u32,
    uppers: &[u32],
    lowers: &[u32],
    pairs: &mut u32,
) -> Going {
    for upper in uppers {
        match combine_one(rest, alloc, place, *upper, lowers, pairs) {
            Going::On => {}
            other => return other,
        }
    }
    Going::On
}

/// The numbers of the rows on both sides of a place.
#[derive(Drop)]
struct Sides {
    uppers: Items<u32>,
    lowers: Items<u32>,
}

fn sides_of(rest: &Rest, alloc: Global, before: &Order, place: u32) -> Result<Sides, AllocError> {
    let held = rest.held.as_slice();
    let named = rest.held.naming(place);
    let uppers = of_side(alloc, true, before, place, held, named)?;
    match of_side(alloc, false, before, place, held, named) {
        Ok(lowers) => Ok(Sides { uppers, lowers }),
        Err(error) => {
            drop(uppers);
            Err(error)
        }
    }
}

// Makes all pairs of both sides of a place.
fn combine_sides(
    rest: &mut Rest,
    alloc: Global,
    place: u32,
    sides: Sides,
    pairs: &mut u32,
) -> Going {
    let going = combine_all(
        rest,
        alloc,
        place,
        sides.uppers.as_slice(),
        sides.lowers.as_slice(),
        pairs,
    );
    drop(sides);
    going
}

// Makes the pairs that are left at the place that was eliminated last. The others are made once more and found to be held.
fn finish_place(rest: &mut Rest, alloc: Global, pairs: &mut u32) -> Going {
    let count = rest.order.len().saturating_sub(1);
    let Some(place) = rest.order.as_slice().get(count).copied() else {
        return Going::Over;
    };
    let Ok(before) = prefix(alloc, &rest.order, count) else {
        return Going::Over;
    };
    let sides = sides_of(rest, alloc, &before, place);
    drop(before);
    match sides {
        Ok(sides) => combine_sides(rest, alloc, place, sides, pairs),
        Err(_) => Going::Over,
    }
}

// A place goes from those that are left to the end of the order, and its rows count no longer.
fn pass_on(rest: &mut Rest, alloc: Global, place: u32, sides: &Sides) -> Result<(), AllocError> {
    rest.left = without(alloc, rest.left.as_slice(), place)?;
    rest.order.push(place)?;
    rest.held.set_aside(sides.uppers.as_slice());
    rest.held.set_aside(sides.lowers.as_slice());
    Ok(())
}

// Eliminates a place that is left.
fn eliminate_place(rest: &mut Rest, alloc: Global, place: u32, pairs: &mut u32) -> Going {
    let Ok(sides) = sides_of(rest, alloc, &rest.order, place) else {
        return Going::Over;
    };
    match pass_on(rest, alloc, place, &sides) {
        Ok(()) => combine_sides(rest, alloc, place, sides, pairs),
        Err(_) => {
            drop(sides);
            Going::Over
        }
    }
}

// The next place to be eliminated.
fn next_place(held: &Held, left: &[u32]) -> Option<u32> {
    if left.len() == 0 {
        return None;
    }
    Some(fewest(held, left))
}

// Eliminates all places that are left. Whether a contradiction was made.
fn go_on(rest: &mut Rest, alloc: Global) -> bool {
    let mut pairs = PAIR_LIMIT;
    let mut going = finish_place(rest, alloc, &mut pairs);
    for _place in 0..rest.left.len() {
        match going {
            Going::On => {}
            Going::Refuted => return true,
            Going::Over => return false,
        }
        going = match next_place(&rest.held, rest.left.as_slice()) {
            Some(place) => eliminate_place(rest, alloc, place, &mut pairs),
            None => Going::Over,
        };
    }
    match going {
        Going::Refuted => true,
        _ => false,
    }
}

// Steps, and others behind them.
fn joined(alloc: Global, steps: &[RowStep], more: &[RowStep]) -> Result<Vec<RowStep>, AllocError> {
    let mut all = Vec::from_slice(alloc, steps)?;
    for step in more {
        all.push(*step)?;
    }
    Ok(all)
}

/// A conflict of the given rows, where an elimination comes to one that leaves out what leaves the range of a row. It begins with these
/// steps and with the rest of what they made.
pub fn conflict_past(
    alloc: Global,
    rows: &[Row],
    used: &[u32],
    steps: &[RowStep],
    rest: Rest,
) -> Option<Conflict>
    ensures { IfSome result (λ found. IsConflict rows.now found.used found.steps) }
{
    let mut rest = rest;
    if !go_on(&mut rest, alloc) {
        drop(rest);
        return None;
    }
    let all = joined(alloc, steps, rest.steps.as_slice());
    drop(rest);
    let Ok(all) = all else {
        return None;
    };
    let found = conflict_in(alloc, rows, used, all.as_slice());
    drop(all);
    found
}
