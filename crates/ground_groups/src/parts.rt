// Parts of a formula that are joined as they are made.
ghost use Rattle.std.specs.{Prelude.{◌≡◌, ◌∷◌, [], Some, false, cond, IfOk}, Option.{option_map}};
ghost use Rattle.ground_problem.specs.Symbols as symbols;
ghost use Rattle.ground_numbers.specs.Numbered.{known};
ghost use Rattle.ground_atoms.specs.Formulas.{form_of};
ghost use Rattle.stage_defs.specs.Parts as parts;

use ground_atoms::{Atoms, GroundFormula};
use stage_defs::{both, same_const};
use std::alloc::{AllocError, Global};

// The parts so far, joined with one more by "and".
fn join(
    alloc: Global,
    done: Option<GroundFormula>,
    part: GroundFormula,
) -> Result<GroundFormula, AllocError>
    ensures { IfOk result (λ f. form_of f ≡ parts.joined (option_map form_of done) (form_of part)) }
{
    match done {
        None => Ok(part),
        Some(left) => both(alloc, left, part),
    }
}

/// All parts so far; no parts at all are true.
pub fn all_of(done: Option<GroundFormula>) -> GroundFormula
    ensures { form_of result ≡ parts.all_of (option_map form_of done) }
{
    match done {
        None => GroundFormula::Truth(true),
        Some(all) => all,
    }
}

/// Joins the parts so far with the equality of two constants, where it counts.
pub fn join_same(
    atoms: &mut Atoms,
    alloc: Global,
    counts: bool,
    left: u32,
    right: u32,
    done: Option<GroundFormula>,
) -> Result<Option<GroundFormula>, AllocError>
    ensures { IfOk result
        (λ more. parts.make_parts (option_map form_of done) atoms.old (cond counts (symbols.same_const left right ∷ []) [])
        ≡ record { known = atoms.new; parts = option_map form_of more }) }
{
    if !counts {
        return Ok(done);
    }
    let part = same_const(atoms, left, right)?;
    let joined = join(alloc, done, part)?;
    Ok(Some(joined))
}

/// The parts so far, and false where lengths aren't equal.
pub fn join_lengths(
    alloc: Global,
    are_equal: bool,
    done: Option<GroundFormula>,
) -> Result<Option<GroundFormula>, AllocError>
    ensures { IfOk result
        (λ more. option_map form_of more
        ≡ cond are_equal (option_map form_of done)
        (Some (parts.joined (option_map form_of done) (known false)))) }
{
    if are_equal {
        return Ok(done);
    }
    let joined = join(alloc, done, GroundFormula::Truth(false))?;
    Ok(Some(joined))
}
