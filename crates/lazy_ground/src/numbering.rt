// Numbers for the equalities that the formulas on equal readings name.
//
// An equality that no formula in front of them names gets its number here: in the order in which these formulas would name it, so that
// the formulas behind them have the numbers that they have in the whole problem. None of them is made. Their readings have numbers.
ghost use Rattle.std.specs.Prelude.{◌≡◌, ◌<◌, ◌+◌, [], true, length, map, drop, slice_index_or};
ghost use Rattle.std.specs.{Prelude.{OnOk}, List.{flat_map, list_all}};
ghost use Rattle.spec_core.specs.declared.update.Thing.TheVariants as thing;
ghost use Rattle.ground_problem.specs.Equality as equality;
ghost use Rattle.ground_numbers.specs.Numbers.{has_atom, has_number};
ghost use Rattle.ground_atoms.specs.Making.{make};
ghost use Rattle.lazy_ground.specs.{Equal.{fits}, Pairs.{pairs_of, readings_known, AllNumbered}};
ghost use Rattle.lazy_ground.specs.Named.{known_after, AllFit};

use crate::equal::are_all_known;
use crate::keeping::are_columns_known;
use crate::pairs::ReadingPairs;
use ground_atoms::Atoms;
use stage_defs::same_const;
use std::alloc::AllocError;

// Numbers the equalities of two tuples, place by place.
fn number_places(atoms: &mut Atoms, left: &[u32], right: &[u32]) -> Result<(), AllocError>
    ensures { OnOk result
        (atoms.new ≡ known_after atoms.old (equality.tuples_same left.now right.now)) }
{
    let count = left.len().min(right.len());
    for place in 0..count {
        let equal = same_const(atoms, left[place], right[place])?;
        drop(equal);
    }
    Ok(())
}

// Numbers what the formula of two tuples names, at which the relation's readings have numbers.
fn number_pair(
    atoms: &mut Atoms,
    relation: u8,
    left: &[u32],
    right: &[u32],
) -> Result<(), AllocError>
    requires left { has_number atoms.old.table (has_atom [] relation left.now) ≡ true }
    requires right { has_number atoms.old.table (has_atom [] relation right.now) ≡ true }
    ensures { OnOk result (atoms.new ≡ (make atoms.old
        (equality.congruent (thing.Relation relation) left.now right.now)).known) }
{
    let _relation = relation;
    number_places(atoms, left, right)
}

// The same for the tuple at a place and each behind it.
fn number_with_later(
    atoms: &mut Atoms,
    pairs: &ReadingPairs,
    earlier: usize,
) -> Result<(), AllocError>
    requires earlier { earlier < length pairs.now.tuples }
    requires known { readings_known atoms.old.table pairs.now.relation pairs.now.tuples ≡ true }
    ensures { OnOk result (atoms.new ≡ known_after atoms.old
        (map (equality.congruent (thing.Relation pairs.now.relation)
        (slice_index_or pairs.now.tuples earlier [])) (drop (earlier + 1) pairs.now.tuples))) }
{
    let tuples = pairs.tuples.as_slice();
    for later in earlier + 1..tuples.len() {
        number_pair(
            atoms,
            pairs.relation,
            tuples[earlier].as_slice(),
            tuples[later].as_slice(),
        )?;
    }
    Ok(())
}

// The same for every two of a relation's tuples.
fn number_every_two(atoms: &mut Atoms, pairs: &ReadingPairs) -> Result<(), AllocError>
    requires { readings_known atoms.old.table pairs.now.relation pairs.now.tuples ≡ true }
    ensures { OnOk result (atoms.new ≡ known_after atoms.old (pairs_of pairs.now)) }
{
    for earlier in 0..pairs.tuples.len() {
        number_with_later(atoms, pairs, earlier)?;
    }
    Ok(())
}

// The same, unless the equalities of each two constants of a place have numbers.
fn number_pairs(atoms: &mut Atoms, pairs: &ReadingPairs) -> Result<(), AllocError>
    requires known { readings_known atoms.old.table pairs.now.relation pairs.now.tuples ≡ true }
    requires fit { list_all (fits pairs.now.columns) pairs.now.tuples ≡ true }
    ensures { OnOk result (atoms.new ≡ known_after atoms.old (pairs_of pairs.now)) }
{
    if are_all_known(atoms, pairs.columns.as_slice()) {
        return Ok(());
    }
    number_every_two(atoms, pairs)
}

/// Numbers the equalities that the formulas of these pairs name and that have none.
pub fn number_all_pairs(atoms: &mut Atoms, pairs: &[ReadingPairs]) -> Result<(), AllocError>
    requires numbered { AllNumbered atoms.old.table pairs.now }
    requires fit { AllFit pairs.now }
    ensures { OnOk result (atoms.new ≡ known_after atoms.old (flat_map pairs_of pairs.now)) }
{
    if are_columns_known(atoms, pairs) {
        return Ok(());
    }
    for some in pairs {
        number_pairs(atoms, some)?;
    }
    Ok(())
}
