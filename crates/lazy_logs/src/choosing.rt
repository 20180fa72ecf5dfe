// The clauses of a lazy ground problem that a log names.
//
// The clauses in front of the pairs and behind them are made, but for those of the entry, which are at hand; of these, and of the pairs,
// those are added that a number names.
ghost use Rattle.std.specs.Prelude.{◌≡◌, length, OnOk};
ghost use Rattle.lazy_ground.specs.{Lazy.{ArePairs}, Kept.{HasClauses}};
ghost use Rattle.lazy_search.specs.{Chosen.{IsLayout}, Refuting.{AreSizes, AreOf}};

use instances::kept_clauses;
use items::Items;
use lazy_ground::LazyGround;
use lazy_search::counting::Sizes;
use lazy_search::testing::Picks;
use lazy_search::{Chosen, Layout, PairAt};
use needed_clauses::parts::{NOWHERE, number_of};
use proof_lines::{Clause, Line, Lit};
use std::alloc::{AllocError, Global};

// Adds a number, where it is below a count.
fn push_below(named: &mut Vec<u32>, number: u32, many: usize) -> Result<(), AllocError> {
    if (number as usize) < many {
        named.push(number)?;
    }
    Ok(())
}

/// The numbers below a count that lines name, in rising order, each once.
pub fn numbers_named(alloc: Global, lines: &[Line], many: usize) -> Result<Vec<u32>, AllocError> {
    let mut named = Vec::new(alloc);
    for line in lines {
        if let Line::Resolve { left, right, .. } = line {
            push_below(&mut named, *left, many)?;
            push_below(&mut named, *right, many)?;
        }
    }
    named.sort_unstable();
    let mut each = Vec::with_capacity(alloc, named.len())?;
    let mut last = NOWHERE;
    for number in named.iter() {
        if *number != last {
            each.push(*number)?;
            last = *number;
        }
    }
    Ok(each)
}

/// The literals that lines of rows use.
pub fn literals_used(alloc: Global, lines: &[Line]) -> Result<Items<Lit>, AllocError> {
    let mut used_by = Items::new(alloc);
    for line in lines {
        if let Line::Farkas { used, .. } = line {
            used_by.extend_from_slice(used.as_slice())?;
        }
    }
    Ok(used_by)
}

// The two of so many tuples whose pair stands at a place among all of theirs.
fn tuples_at(many: usize, place: usize) -> Option<(usize, usize)> {
    let mut left = place;
    for earlier in 0..many {
        let row = many - 1 - earlier;
        if left < row {
            return Some((earlier, (earlier + 1).saturating_add(left)));
        }
        left -= row;
    }
    None
}

// The pair among whose three clauses is the one of a number, where its relation's first clause has this number.
fn pair_from(first: u32, many: usize, number: u32) -> Option<(usize, usize)> {
    let behind = number.checked_sub(first)?;
    tuples_at(many, (behind / 3) as usize)
}

// The pair that a clause is of, if it is of one.
fn pair_of(ground: &LazyGround, layout: &Layout, number: u32) -> Option<PairAt> {
    for (relation, pairs) in ground.pairs.iter().enumerate() {
        let first = layout.firsts.get(relation)?;
        if let Some((earlier, later)) = pair_from(first.clause, pairs.tuples.len(), number) {
            return Some(PairAt {
                relation,
                earlier,
                later,
            });
        }
    }
    None
}

// The place of the first empty clause.
fn place_of_empty(clauses: &[Clause]) -> Option<usize> {
    clauses.iter().position(|clause| clause.lits().is_empty())
}

/// The number of an empty clause among the chosen ones, or those of the entry.
pub fn number_of_empty(ground: &LazyGround, chosen: &Chosen) -> Option<u32> {
    if let Some(place) = place_of_empty(chosen.clauses.as_slice()) {
        return chosen.numbers.get(place).copied();
    }
    let (kept, _) = kept_clauses(&ground.part)?;
    Some(number_of(place_of_empty(kept.clauses.as_slice())?))
}

/// Adds the clauses that have these numbers, in rising order, and aren't among the chosen ones.
pub fn add_named(
    alloc: Global,
    ground: &LazyGround,
    sizes: &Sizes,
    layout: &Layout,
    chosen: &mut Chosen,
    numbers: &[u32],
) -> Result<(), AllocError>
    requires pairs { ArePairs ground.now.atoms.table ground.now.pairs }
    requires clauses { HasClauses ground.now }
    requires sizes { AreSizes ground.now sizes.now }
    requires layout { IsLayout ground.now (length ground.now.atoms.table.atoms) layout.now }
    requires chosen { AreOf ground.now chosen.now }
    ensures { OnOk result (AreOf ground.now chosen.new) }
{
    let mut last = None;
    for number in numbers {
        if chosen.add_numbered(alloc, ground, sizes, layout, *number)? {
            continue;
        }
        let pair = pair_of(ground, layout, *number);
        if pair == last {
            continue;
        }
        if let Some(at) = pair {
            chosen.add_pair(alloc, ground, layout, at)?;
        }
        last = pair;
    }
    Ok(())
}

/// The places of the clauses that have these numbers, in rising order; nothing where one isn't there.
pub fn picks_of(
    alloc: Global,
    chosen: &Chosen,
    numbers: Vec<u32>,
) -> Result<Option<Picks>, AllocError> {
    let mut places = vec![in alloc; NOWHERE; numbers.len()]?;
    for (place, number) in chosen.numbers.iter().enumerate() {
        match numbers.as_slice().binary_search(number) {
            Ok(at) if at < places.len() => places[at] = number_of(place),
            _ => {}
        }
    }
    if places.iter().any(|place| *place == NOWHERE) {
        drop(numbers);
        drop(places);
        return Ok(None);
    }
    Ok(Some(Picks { places, numbers }))
}
