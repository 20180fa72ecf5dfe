// The values that break an obligation, from an interpretation of its problem.
ghost use Rattle.std.specs.Prelude.{◌≡◌, IfOk, IfSome, true, nat_lt, pos, length, map};
ghost use Rattle.std.specs.{Prelude.{slice_index, slice_index_or}, List.{list_all}};
ghost use Rattle.spec_core.specs.Fits.{in_state_range, world_fits};
ghost use Rattle.obligation_list.specs.{Obligations.{IsObligation}, Refuting.{IsRefutation}};
ghost use Rattle.proof_lines.specs.Problems.{atom_true, meaning_of};
ghost use Rattle.ground_problem.specs.{Symbols.{all_true}, Constants.{constants_of}};
ghost use Rattle.ground_problem.specs.Problem.{formulas_of};
ghost use Rattle.ground_numbers.specs.Numbered.{all_hold};
ghost use Rattle.ground_numbers.specs.Problem.{kind_of, table_of, numbered_of, interpretation_of};
ghost use Rattle.ground_atoms.specs.Calls.{calls_of};
ghost use Rattle.instances.specs.Ground.{IsGrounded};
ghost use Rattle.model_back.specs.{Calls.{call_by}, Witnesses.{IsGivenBy, IsStateFor}};

use crate::calls::calls_at;
use crate::classed::{Classed, world_of};
use crate::named::Named;
use crate::state::{element_of, entry_state};
use ground_atoms::Atoms;
use ground_numbers::{law_arguments_are_first, law_numbers_are_names};
use instances::Grounded;
use items::Items;
use obligation_list::{Obligation, Witness, breaks};
use proof_lines::Interpretation;
use spec_core::Spec;
use spec_states::State;
use std::alloc::{AllocError, Global};

// The state of a witness in a world whose constants stand for these elements.
fn state_for(
    alloc: Global,
    spec: &Spec,
    ob: &Obligation,
    classed: &Classed,
    atoms: &Atoms,
    found: &Interpretation,
) -> Result<State, AllocError>
    requires world { world_fits spec.now classed.now.world ≡ true }
    requires values { list_all in_state_range found.now.ints ≡ true }
    ensures { IfOk result
        (λ s. IsStateFor spec.now ob.now classed.now.world (slice_index classed.now.elements.items)
        found.now.truths found.now.ints atoms.now.table s) }
{
    let world = &classed.world;
    match ob {
        Obligation::Init { .. } => State::initial(alloc, spec, world),
        _ => entry_state(alloc, spec, world, &classed.elements, atoms, found),
    }
}

// The elements of constants.
fn elements_at(alloc: Global, elements: &[u32], consts: &[u32]) -> Result<Items<u32>, AllocError>
    ensures { IfOk result (λ es. es ≡ map (slice_index elements.now) consts.now) }
{
    let mut out = Items::new(alloc);
    for c in consts {
        out.push(element_of(elements, *c))?;
    }
    Ok(out)
}

// The witness of a world whose constants stand for these elements.
fn witness_in(
    alloc: Global,
    spec: &Spec,
    ob: &Obligation,
    named: &Named<'_>,
    found: &Interpretation,
    classed: Classed,
) -> Result<Witness, AllocError>
    requires world { world_fits spec.now classed.world ≡ true }
    requires values { list_all in_state_range found.now.ints ≡ true }
    ensures world { IfOk result (λ w. w.world ≡ classed.world) }
    ensures state { IfOk result
        (λ w. IsStateFor spec.now ob.now classed.world (slice_index classed.elements.items)
        found.now.truths found.now.ints named.now.atoms.now.table w.state) }
    ensures calls { IfOk result
        (λ w. w.calls
        ≡ map (call_by (slice_index classed.elements.items)
        (λ n. slice_index_or found.now.ints n (pos 0))) named.now.calls.now) }
    ensures range { IfOk result
        (λ w. list_all (λ c. list_all in_state_range c.args) w.calls ≡ true) }
    ensures elements { IfOk result
        (λ w. w.elements ≡ map (slice_index classed.elements.items) named.now.consts.now) }
{
    let state = state_for(alloc, spec, ob, &classed, named.atoms, found)?;
    let Classed { world, elements } = classed;
    let at = elements_at(alloc, &elements, named.consts)?;
    let calls = calls_at(alloc, &elements, found.ints.as_slice(), named.calls)?;
    Ok(Witness {
        world,
        state,
        calls,
        elements: at,
    })
}

// A witness that breaks the obligation, from an interpretation that makes its formulas true over what their numbers stand for.
fn witness_with(
    alloc: Global,
    spec: &Spec,
    ob: &Obligation,
    named: &Named<'_>,
    found: &Interpretation,
) -> Result<Witness, AllocError>
    requires member { IsObligation spec.now ob.now }
    requires table { named.now.atoms.now.table ≡ table_of spec.now ob.now }
    requires sorts { named.now.sorts.now ≡ (constants_of spec.now ob.now).sorts }
    requires consts { named.now.consts.now ≡ (constants_of spec.now ob.now).elements }
    requires calls { named.now.calls.now ≡ calls_of spec.now ob.now }
    requires satisfied { all_true
        (interpretation_of (table_of spec.now ob.now) (meaning_of found.now))
        (formulas_of spec.now ob.now)
        ≡ true }
    requires values { list_all in_state_range found.now.ints ≡ true }
    ensures { IfOk result
        (λ w. IsRefutation spec.now ob.now w.world w.state w.calls w.elements
        × IsGivenBy spec.now ob.now
        (interpretation_of (table_of spec.now ob.now) (meaning_of found.now)) w.world w.state
        w.calls w.elements) }
{
    spec.well_formed();
    law_arguments_are_first();
    let truths = found.truths.as_slice();
    let classed = world_of(alloc, spec, named.atoms, named.sorts, truths)?;
    witness_in(alloc, spec, ob, named, found, classed)
}

/// The witness that an interpretation gives, where it makes the formulas of an obligation's ground problem true: it breaks the
/// obligation. The elements of a sort are the classes of its equal constants; each stands for its least constant, and they rise. What
/// the interpretation doesn't name reads false or 0.
pub fn witness_of(
    alloc: Global,
    spec: &Spec,
    ob: &Obligation,
    grounded: &Grounded,
    found: &Interpretation,
) -> Result<Witness, AllocError>
    requires member { IsObligation spec.now ob.now }
    requires grounded { IsGrounded spec.now ob.now grounded.now }
    requires found { all_hold
        (atom_true (meaning_of found.now) (map kind_of (table_of spec.now ob.now).atoms))
        (numbered_of spec.now ob.now)
        ≡ true }
    requires in_range { list_all in_state_range found.now.ints ≡ true }
    ensures breaks { IfOk result
        (λ w. IsRefutation spec.now ob.now w.world w.state w.calls w.elements) }
    ensures given { IfOk result
        (λ w. IsGivenBy spec.now ob.now
        (interpretation_of (table_of spec.now ob.now) (meaning_of found.now)) w.world w.state
        w.calls w.elements) }
{
    law_numbers_are_names();
    let named = Named {
        atoms: &grounded.atoms,
        sorts: grounded.consts.as_slice(),
        consts: grounded.elements.as_slice(),
        calls: grounded.calls.as_slice(),
    };
    witness_with(alloc, spec, ob, &named, found)
}

// Whether each of these sorts is declared.
fn are_declared(spec: &Spec, sorts: &[u8]) -> bool
    ensures { result ≡ list_all (λ s. nat_lt s (length spec.now.sorts)) sorts.now }
{
    sorts.iter().all(|sort| (*sort as usize) < spec.sorts.len())
}

/// A witness that breaks the obligation, read back as by `witness_of` from any truth values and whole numbers in the range of a state;
/// nothing where what they give doesn't break it. Nothing is asked of how they were found, so they may make some formulas false, or be
/// of some atoms alone: each other one is false.
pub fn tried_witness(
    alloc: Global,
    spec: &Spec,
    ob: &Obligation,
    named: &Named<'_>,
    found: &Interpretation,
) -> Result<Option<Witness>, AllocError>
    requires member { IsObligation spec.now ob.now }
    requires in_range { list_all in_state_range found.now.ints ≡ true }
    ensures { IfOk result (λ tried. IfSome tried
        (λ w. IsRefutation spec.now ob.now w.world w.state w.calls w.elements)) }
{
    if !are_declared(spec, named.sorts) {
        return Ok(None);
    }
    let classed = world_of(
        alloc,
        spec,
        named.atoms,
        named.sorts,
        found.truths.as_slice(),
    )?;
    if !classed.world.fits(spec) {
        drop(classed);
        return Ok(None);
    }
    let witness = witness_in(alloc, spec, ob, named, found, classed)?;
    if breaks(spec, ob, &witness) {
        return Ok(Some(witness));
    }
    drop(witness);
    Ok(None)
}
