// The groups of an obligation's list, one after another.
ghost use Rattle.std.specs.Prelude.{◌≡◌, ◌++◌, [], Some};
ghost use Rattle.obligation_list.specs.Breaking as breaking;
ghost use Rattle.obligation_list.specs.Obligations.{IsObligation};
ghost use Rattle.ground_problem.specs.Entry as entry;
ghost use Rattle.ground_problem.specs.{Problem.{stated, defined}, Definitions.{with_definitions}};
ghost use Rattle.ground_problem.specs.Constants.{constants_of};
ghost use Rattle.ground_groups.specs.Limited.{Appends, Makes, make_upto, made_in};
ghost use Rattle.ground_groups.specs.Calls.{constants_in, numbered_arguments};
ghost use Rattle.ground_atoms.specs.Calls.{calls_of};

use crate::concluding::add_conclusion;
use ground_groups::conflicting::add_free;
use ground_groups::defining::add_definitions;
use ground_groups::ready::add_all_ready;
use ground_groups::{GroundRefused, Grounding, Named};
use obligation_list::Obligation;
use spec_core::Spec;

// Appends that the calls of these operations are ready and don't conflict.
fn add_calls(
    grounding: &mut Grounding,
    spec: &Spec,
    ops: &[u8],
    named: &Named,
) -> Result<(), GroundRefused>
    ensures { Appends result grounding.old
        (entry.calls_ready spec.now (constants_in named.now) 0 ops.now
        (constants_in named.now).chosen
        ++ entry.calls_free spec.now (constants_in named.now) ops.now)
        grounding.new }
{
    match add_all_ready(grounding, spec, named, ops) {
        Ok(()) => {}
        Err(refused) => return Err(refused),
    }
    add_free(grounding, spec, named, ops)
}

// Appends to what is true at the entry that the calls are ready and don't conflict.
fn add_before(
    grounding: &mut Grounding,
    spec: &Spec,
    ob: &Obligation,
    ops: &[u8],
    named: &Named,
) -> Result<(), GroundRefused>
    requires ops { ops.now ≡ breaking.operations_of ob.now }
    requires constants { constants_in named.now ≡ constants_of spec.now ob.now }
    requires begun { make_upto [] (numbered_arguments spec.now ob.now)
        (entry.entry spec.now ob.now (constants_of spec.now ob.now))
        ≡ Some (made_in grounding.now) }
    ensures { Makes result (numbered_arguments spec.now ob.now)
        (entry.before_conclusion spec.now ob.now (constants_of spec.now ob.now))
        grounding.new }
{
    let _ob = ob;
    add_calls(grounding, spec, ops, named)
}

// Appends to what is true at the entry the rest of what is stated.
fn add_stated(
    grounding: &mut Grounding,
    spec: &Spec,
    ob: &Obligation,
    ops: &[u8],
    named: &Named,
) -> Result<(), GroundRefused>
    requires member { IsObligation spec.now ob.now }
    requires ops { ops.now ≡ breaking.operations_of ob.now }
    requires constants { constants_in named.now ≡ constants_of spec.now ob.now }
    requires begun { make_upto [] (numbered_arguments spec.now ob.now)
        (entry.entry spec.now ob.now (constants_of spec.now ob.now))
        ≡ Some (made_in grounding.now) }
    ensures { Makes result (numbered_arguments spec.now ob.now)
        (stated spec.now ob.now (constants_of spec.now ob.now)) grounding.new }
{
    match add_before(grounding, spec, ob, ops, named) {
        Ok(()) => {}
        Err(refused) => return Err(refused),
    }
    add_conclusion(grounding, spec, ob, named)
}

// These with the definitions of the readings after two calls.
fn add_second(
    grounding: &mut Grounding,
    spec: &Spec,
    ob: &Obligation,
    ops: &[u8],
    named: &Named,
) -> Result<(), GroundRefused>
    requires member { IsObligation spec.now ob.now }
    requires ops { ops.now ≡ breaking.operations_of ob.now }
    requires calls { named.now.calls ≡ calls_of spec.now ob.now }
    requires constants { constants_in named.now ≡ constants_of spec.now ob.now }
    requires begun { make_upto [] (numbered_arguments spec.now ob.now)
        (entry.entry spec.now ob.now (constants_of spec.now ob.now))
        ≡ Some (made_in grounding.now) }
    ensures { Makes result (numbered_arguments spec.now ob.now)
        (with_definitions spec.now ob.now (constants_of spec.now ob.now) 2
        (stated spec.now ob.now (constants_of spec.now ob.now)))
        grounding.new }
{
    match add_stated(grounding, spec, ob, ops, named) {
        Ok(()) => {}
        Err(refused) => return Err(refused),
    }
    add_definitions(grounding, spec, named.calls.as_slice(), 2)
}

/// Appends to what is true at the entry the rest of what is stated, and the definitions of all later readings.
pub fn add_all_defined(
    grounding: &mut Grounding,
    spec: &Spec,
    ob: &Obligation,
    ops: &[u8],
    named: &Named,
) -> Result<(), GroundRefused>
    requires member { IsObligation spec.now ob.now }
    requires ops { ops.now ≡ breaking.operations_of ob.now }
    requires calls { named.now.calls ≡ calls_of spec.now ob.now }
    requires constants { constants_in named.now ≡ constants_of spec.now ob.now }
    requires begun { make_upto [] (numbered_arguments spec.now ob.now)
        (entry.entry spec.now ob.now (constants_of spec.now ob.now))
        ≡ Some (made_in grounding.now) }
    ensures { Makes result (numbered_arguments spec.now ob.now)
        (defined spec.now ob.now (constants_of spec.now ob.now)) grounding.new }
{
    match add_second(grounding, spec, ob, ops, named) {
        Ok(()) => {}
        Err(refused) => return Err(refused),
    }
    add_definitions(grounding, spec, named.calls.as_slice(), 1)
}
