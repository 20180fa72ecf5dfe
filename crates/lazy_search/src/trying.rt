// The values that an interpretation of a part gives, tried on the obligation itself.
//
// The interpretation says which constants are equal, which readings are true, and the whole numbers. What the part doesn't name is false.
// Where that breaks the obligation, it is refuted, and neither the other clauses nor those of equal tuples need to be looked at.
ghost use Rattle.std.specs.{Prelude.{◌≡◌, true, IfOk, IfSome}, List.{list_all}};
ghost use Rattle.spec_core.specs.Fits.{in_state_range};
ghost use Rattle.obligation_list.specs.Obligations.{IsObligation};
ghost use Rattle.lazy_search.specs.Refuting.{IsBroken};

use crate::agreeing::value_of;
use crate::parts::Part;
use items::{Items, or_drop};
use lazy_ground::LazyGround;
use model_back::{Named, tried_witness};
use needed_clauses::parts::number_of;
use obligation_list::{Obligation, Witness};
use proof_lines::Interpretation;
use spec_core::Spec;
use std::alloc::{AllocError, Global};

/// An obligation that is searched, and how many lines a log may have.
#[derive(Clone, Copy)]
pub struct Aim<'a> {
    pub spec: &'a Spec,
    pub ob: &'a Obligation,
    pub budget: u32,
}

// The truth values of all atoms of the table; those that the part doesn't name are false.
fn all_truths(
    alloc: Global,
    ground: &LazyGround,
    part: &Part,
    truths: &[bool],
) -> Result<Items<bool>, AllocError> {
    let many = ground.atoms.size().atoms;
    let mut all = Items::from_vec(Vec::with_capacity(alloc, many)?);
    for number in 0..many {
        all.push(value_of(part, truths, number_of(number)))?;
    }
    Ok(all)
}

/// A witness that breaks the obligation, by what an interpretation of a part says of all atoms and integer names; nothing where that
/// doesn't break it.
pub(crate) fn broken_by(
    alloc: Global,
    aim: &Aim<'_>,
    ground: &LazyGround,
    part: &Part,
    found: &Interpretation,
) -> Result<Option<Witness>, AllocError>
    requires member { IsObligation aim.now.spec.now aim.now.ob.now }
    requires in_range { list_all in_state_range found.now.ints ≡ true }
    ensures { IfOk result (λ tried. IfSome tried (IsBroken aim.now.spec.now aim.now.ob.now)) }
{
    let ints = Items::from_slice(alloc, found.ints.as_slice())?;
    let truths = or_drop!(all_truths(alloc, ground, part, found.truths.as_slice()); ints);
    let whole = Interpretation { truths, ints };
    let named = Named {
        atoms: &ground.atoms,
        sorts: ground.sorts.as_slice(),
        consts: ground.elements.as_slice(),
        calls: ground.calls.as_slice(),
    };
    let tried = tried_witness(alloc, aim.spec, aim.ob, &named, &whole);
    drop(whole);
    tried
}
