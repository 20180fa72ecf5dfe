// Every two readings of a relation at the entry.
ghost use Rattle.std.specs.Prelude.{◌≡◌, ◌<◌, length, slice_index_or, IfOk, IfSome, []};
ghost use Rattle.spec_core.specs.declared.update.Thing.TheVariants as thing;
ghost use Rattle.ground_problem.specs.Equality as equality;
ghost use Rattle.ground_problem.specs.Symbols as symbols;
ghost use Rattle.ground_numbers.specs.{Numbered.{negation, disjunction}, Numbers.{numbered}};
ghost use Rattle.ground_atoms.specs.declared.formula.Agreement.TheVariants as agreements;
ghost use Rattle.ground_atoms.specs.Formulas.{form_of, readings_agree};
ghost use Rattle.lazy_ground.specs.Pairs.{HasAtoms};

use crate::equal::{places_equality, tuples_equality};
use ground_atoms::{Agreement, Atoms, GroundFormula};
use items::Items;
use stage_defs::{both, either, negated};
use std::alloc::{AllocError, Global};

// Tuples of more places have a formula that takes memory.
const MOST_PLACES: usize = 2;

/// The tuples at which a relation is read at the entry, in rising order; the constants that stand at each place, each once; and the
/// numbers of the atoms of these readings. Every two of the tuples stand for the formula that where they are equal, the relation holds of
/// both or of neither.
#[derive(Drop)]
pub struct ReadingPairs {
    pub relation: u8,
    pub tuples: Items<Items<u32>>,
    pub columns: Items<Items<u32>>,
    pub atoms: Items<u32>,
}

// The readings with these numbers agree.
fn both_agree(alloc: Global, left: u32, right: u32) -> Result<GroundFormula, AllocError>
    ensures { IfOk result (λ f. form_of f ≡ readings_agree agreements.Relation left right) }
{
    let not_left = GroundFormula::NotAtom(left);
    let to = either(alloc, not_left, GroundFormula::Lit(right, true))?;
    let not_right = GroundFormula::NotAtom(right);
    let fro = either(alloc, GroundFormula::Lit(left, true), not_right)?;
    both(alloc, to, fro)
}

// Where tuples of any length are equal, the readings with these numbers agree.
fn wide_formula(
    atoms: &Atoms,
    alloc: Global,
    earlier: &[u32],
    later: &[u32],
    left: u32,
    right: u32,
) -> Result<Option<GroundFormula>, AllocError>
    ensures { IfOk result (λ found. IfSome found (λ f. form_of f ≡ disjunction
        (negation (numbered atoms.now.table
        (symbols.all_parts (equality.tuples_same earlier.now later.now))))
        (readings_agree agreements.Relation left right))) }
{
    let Some(equal) = places_equality(atoms, alloc, earlier, later)? else {
        return Ok(None);
    };
    let differ = negated(alloc, equal)?;
    let agree = both_agree(alloc, left, right)?;
    Ok(Some(either(alloc, differ, agree)?))
}

// The same for tuples of one or two places, without memory; nothing where they have more.
fn narrow_formula(
    atoms: &Atoms,
    earlier: &[u32],
    later: &[u32],
    left: u32,
    right: u32,
) -> Option<GroundFormula>
    ensures { IfSome result (λ f. form_of f ≡ disjunction
        (negation (numbered atoms.now.table
        (symbols.all_parts (equality.tuples_same earlier.now later.now))))
        (readings_agree agreements.Relation left right)) }
{
    let same = tuples_equality(atoms, earlier, later)?;
    Some(GroundFormula::Congruent {
        places: same.places,
        agreement: Agreement::Relation,
        equal: same.equal,
        also: same.also,
        left,
        right,
    })
}

/// The formula of the tuples at two places; nothing where an equality of theirs has no number, or where they are one tuple.
pub fn pair_formula(
    atoms: &Atoms,
    alloc: Global,
    pairs: &ReadingPairs,
    earlier: usize,
    later: usize,
) -> Result<Option<GroundFormula>, AllocError>
    requires earlier { earlier < length pairs.now.tuples }
    requires later { later < length pairs.now.tuples }
    requires atoms { HasAtoms atoms.now.table pairs.now }
    ensures { IfOk result (λ found. IfSome found (λ f. form_of f
        ≡ numbered atoms.now.table (equality.congruent (thing.Relation pairs.now.relation)
        (slice_index_or pairs.now.tuples earlier []) (slice_index_or pairs.now.tuples later [])))) }
{
    let tuples = pairs.tuples.as_slice();
    let numbers = pairs.atoms.as_slice();
    let one = tuples[earlier].as_slice();
    let other = tuples[later].as_slice();
    let (left, right) = (numbers[earlier], numbers[later]);
    if one.len() > MOST_PLACES {
        return wide_formula(atoms, alloc, one, other, left, right);
    }
    Ok(narrow_formula(atoms, one, other, left, right))
}
