// When an update acts on a tuple or key.
ghost use Rattle.std.specs.Prelude.{◌≡◌, None, Some, false, cond, slice_get, IfOk};
ghost use Rattle.std.specs.Option.{option_map};
ghost use Rattle.ground_problem.specs.Definitions as definitions;
ghost use Rattle.ground_numbers.specs.Numbered.{known};
ghost use Rattle.ground_atoms.specs.{Formulas.{form_of}, Staying.{NumbersStay}};
ghost use Rattle.stage_defs.specs.Settings.{readings_in, caller_in, IsMade};
ghost use Rattle.stage_defs.specs.Parts.{joined, make_parts, spot_at};

use crate::comparing::same_const;
use crate::connecting::both;
use crate::formulas::formula;
use crate::setting::{Setting, const_of};
use ground_atoms::{Atoms, GroundFormula};
use spec_core::{Spot, Update};
use std::alloc::{AllocError, Global};

/// An update acts on a tuple or key: each spot other than `*` equals the constant at its place, and the guard is true.
pub fn acts_on(
    atoms: &mut Atoms,
    alloc: Global,
    setting: &Setting<'_>,
    tuple: &[u32],
    update: &Update,
) -> Result<GroundFormula, AllocError>
    ensures made { IfOk result
        (λ f. IsMade atoms.old
        (definitions.acts_on (readings_in setting.now) (caller_in setting.now) tuple.now update.now)
        atoms.new f) }
    ensures stay { NumbersStay atoms.old atoms.new }
{
    let spots = spots_hold(atoms, alloc, setting, update.at.as_slice(), tuple)?;
    let guard = formula(atoms, alloc, setting, &[], &update.guard)?;
    let made = join(alloc, spots, guard)?;
    Ok(made)
}

// The equalities of the spots, joined; nothing where each spot is `*`.
fn spots_hold(
    atoms: &mut Atoms,
    alloc: Global,
    setting: &Setting<'_>,
    spots: &[Spot],
    tuple: &[u32],
) -> Result<Option<GroundFormula>, AllocError>
    ensures made { IfOk result
        (λ done. make_parts None atoms.old (definitions.spots_hold (caller_in setting.now) spots.now tuple.now)
        ≡ record { known = atoms.new; parts = option_map form_of done }) }
    ensures stay { NumbersStay atoms.old atoms.new }
{
    let mut done = None;
    let count = spots.len().min(tuple.len());
    for place in 0..count {
        done = join_spot(atoms, alloc, setting, spots, tuple, place, done)?;
    }
    let all = join_lengths(alloc, spots.len() == tuple.len(), done)?;
    Ok(all)
}

// The parts so far, with what the spot at a place asks for.
fn join_spot(
    atoms: &mut Atoms,
    alloc: Global,
    setting: &Setting<'_>,
    spots: &[Spot],
    tuple: &[u32],
    place: usize,
    done: Option<GroundFormula>,
) -> Result<Option<GroundFormula>, AllocError>
    ensures made { IfOk result
        (λ more. make_parts (option_map form_of done) atoms.old (spot_at (caller_in setting.now) (slice_get spots.now place) (slice_get tuple.now place))
        ≡ record { known = atoms.new; parts = option_map form_of more }) }
    ensures stay { NumbersStay atoms.old atoms.new }
{
    match (spots.get(place), tuple.get(place)) {
        (Some(Spot::One(element)), Some(constant)) => {
            let part = same_const(atoms, const_of(setting, &[], *element), *constant)?;
            let joined = join(alloc, done, part)?;
            Ok(Some(joined))
        }
        _ => Ok(done),
    }
}

// The parts so far, and false where there are fewer or more spots than places.
fn join_lengths(
    alloc: Global,
    are_equal: bool,
    done: Option<GroundFormula>,
) -> Result<Option<GroundFormula>, AllocError>
    ensures { IfOk result
        (λ more. option_map form_of more
        ≡ cond are_equal (option_map form_of done)
        (Some (joined (option_map form_of done) (known false)))) }
{
    if are_equal {
        return Ok(done);
    }
    let joined = join(alloc, done, GroundFormula::Truth(false))?;
    Ok(Some(joined))
}

// The parts so far, joined with one more by "and".
fn join(
    alloc: Global,
    done: Option<GroundFormula>,
    part: GroundFormula,
) -> Result<GroundFormula, AllocError>
    ensures { IfOk result (λ f. form_of f ≡ joined (option_map form_of done) (form_of part)) }
{
    match done {
        None => Ok(part),
        Some(left) => both(alloc, left, part),
    }
}
