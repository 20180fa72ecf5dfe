// The requires lines of all calls.
ghost use Rattle.std.specs.Prelude.{◌≡◌};
ghost use Rattle.ground_problem.specs.Formulas.{caller};
ghost use Rattle.ground_problem.specs.Entry as entry;
ghost use Rattle.spec_core.specs.Specification.{op_of};
ghost use Rattle.ground_groups.specs.{Limited.{Appends}, Calls.{constants_in}};

use crate::entry::add_call_ready;
use crate::gathering::Named;
use crate::grounding::Grounding;
use crate::numbering::as_small;
use crate::refused::GroundRefused;
use items::Items;
use spec_core::Spec;

// Appends those of the call at a place.
fn add_ready_at(
    grounding: &mut Grounding,
    spec: &Spec,
    named: &Named,
    place: usize,
    op: u8,
    own: &Items<Items<u32>>,
) -> Result<(), GroundRefused>
    ensures { Appends result grounding.old
        (entry.lines_hold (constants_in named.now) (caller (constants_in named.now) place)
        (op_of spec.now op).requires_ own.now)
        grounding.new }
{
    let call = as_small(place)?;
    add_call_ready(grounding, spec, named, call, op, own)
}

/// Appends each requires line of each of these operations' calls, which have these constants of their own.
pub fn add_ready(
    grounding: &mut Grounding,
    spec: &Spec,
    named: &Named,
    ops: &[u8],
    owns: &[Items<Items<u32>>],
) -> Result<(), GroundRefused>
    ensures { Appends result grounding.old
        (entry.calls_ready spec.now (constants_in named.now) 0 ops.now owns.now) grounding.new }
{
    let count = ops.len().min(owns.len());
    for place in 0..count {
        match add_ready_at(grounding, spec, named, place, ops[place], &owns[place]) {
            Ok(()) => {}
            Err(refused) => return Err(refused),
        }
    }
    Ok(())
}

/// The same with the constants that the calls have.
pub fn add_all_ready(
    grounding: &mut Grounding,
    spec: &Spec,
    named: &Named,
    ops: &[u8],
) -> Result<(), GroundRefused>
    ensures { Appends result grounding.old
        (entry.calls_ready spec.now (constants_in named.now) 0 ops.now
        (constants_in named.now).chosen)
        grounding.new }
{
    add_ready(grounding, spec, named, ops, named.chosen.as_slice())
}
