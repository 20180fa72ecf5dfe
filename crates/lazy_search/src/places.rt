// Where the clauses of pairs of tuples stand.
ghost use Rattle.std.specs.Prelude.{◌≡◌, ◌<◌, ◌+◌, IfOk, IfSome};
ghost use Rattle.lazy_search.specs.Chosen.{IsMoved, AreMoved, pairs_among, pair_place};

use lazy_ground::ReadingPairs;
use std::alloc::{AllocError, Global};

/// The number of the next clause, and of the next atom that names a part.
#[derive(Clone, Copy)]
pub struct Place {
    pub clause: u32,
    pub name: u32,
}

/// The first place of each relation's pairs, and the place behind all clauses of the problem. From a place on, the formulas in front of the
/// pairs say that two atoms imply a third one, mostly that equality is transitive; and where their first clause stands.
#[derive(Drop)]
pub struct Layout {
    pub firsts: Vec<Place>,
    pub behind: Place,
    pub transitive: Place,
    pub from: usize,
}

// How many pairs so many tuples have, where numbers reach that.
fn count_pairs(many: usize) -> Option<u32>
    ensures { IfSome result (λ pairs. pairs ≡ pairs_among many) }
{
    let twice = many.checked_mul(many.saturating_sub(1))?;
    let Ok(pairs) = u32::try_from(twice / 2) else {
        return None;
    };
    Some(pairs)
}

// The place behind so many pairs, where numbers reach it. Each has three clauses, and one atom that names a part.
fn moved(first: Place, pairs: u32) -> Option<Place>
    ensures { IfSome result (λ at. IsMoved first pairs at) }
{
    let clauses = pairs.checked_mul(3)?;
    let clause = first.clause.checked_add(clauses)?;
    let name = first.name.checked_add(pairs)?;
    Some(Place { clause, name })
}

// The place behind so many clauses that name no part, where numbers reach it.
pub(crate) fn behind_single(first: Place, many: usize) -> Option<Place>
    ensures clause { IfSome result (λ at. at.clause ≡ first.clause + many) }
    ensures name { IfSome result (λ at. at.name ≡ first.name) }
{
    let Ok(more) = u32::try_from(many) else {
        return None;
    };
    let clause = first.clause.checked_add(more)?;
    Some(Place {
        clause,
        name: first.name,
    })
}

// The place behind the pairs of so many tuples, where numbers reach it.
fn behind_pairs(first: Place, many: usize) -> Option<Place>
    ensures { IfSome result (λ at. IsMoved first (pairs_among many) at) }
{
    let pairs = count_pairs(many)?;
    moved(first, pairs)
}

/// The place of two of so many tuples, where their first pair has this one and numbers reach it.
pub(crate) fn place_of_pair(
    first: Place,
    many: usize,
    earlier: usize,
    later: usize,
) -> Option<Place>
    requires in_order { earlier < later }
    requires within { later < many }
    ensures { IfSome result (λ at. IsMoved first (pair_place many earlier later) at) }
{
    let all = count_pairs(many)?;
    let rest = count_pairs(many - earlier)?;
    let rows = all.checked_sub(rest)?;
    let Ok(beside) = u32::try_from(later - earlier - 1) else {
        return None;
    };
    let pairs = rows.checked_add(beside)?;
    moved(first, pairs)
}

/// The first place of each of these relations' pairs, where the first of all has this one, and the place behind all of them; nothing
/// where numbers don't reach.
pub(crate) fn firsts_of(
    alloc: Global,
    first: Place,
    relations: &[ReadingPairs],
) -> Result<Option<(Vec<Place>, Place)>, AllocError>
    ensures { IfOk result (λ found. IfSome found
        (λ places. AreMoved first relations.now places.0.items places.1)) }
{
    let mut firsts = Vec::with_capacity(alloc, relations.len())?;
    let mut at = first;
    for relation in relations {
        let Some(next) = behind_pairs(at, relation.tuples.len()) else {
            return Ok(None);
        };
        firsts.push(at)?;
        at = next;
    }
    Ok(Some((firsts, at)))
}
