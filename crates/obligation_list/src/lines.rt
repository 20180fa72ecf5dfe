// Lines of a specification, in a state and after a call. Nothing here takes memory.

ghost use Rattle.std.specs.{Prelude.{◌≡◌, ◌<◌, true, length}, List.{list_all}};
ghost use Rattle.spec_core.specs.{Specification.{op_of}, State.{reads}};
ghost use Rattle.spec_core.specs.Meaning.{invariant_line, pre};
ghost use Rattle.spec_core.specs.Fits.{in_state_range, fits_places, world_fits, call_fits};
ghost use Rattle.spec_core.specs.Fits.{line_fits};
ghost use Rattle.obligation_list.specs.Breaking.{requires_line, failing_vars, line_at};

use spec_core::{
    Call, Prefix, Prefixed, Readings, Spec, World, holds, line_holds, requires_broken_at,
};
use spec_states::State;

/// The line of an invariant.
pub fn invariant_line(spec: &Spec, inv: u8) -> &Prefixed
    requires { inv < length spec.now.invariants }
    ensures { result.now ≡ invariant_line spec.now inv }
{
    &spec.invariants.as_slice()[inv as usize].line
}

/// A requires line of an operation.
pub fn requires_line(spec: &Spec, op: u8, line: u8) -> &Prefixed
    requires { line < length (op_of spec.now op).requires_ }
    ensures { result.now ≡ requires_line spec.now op line }
{
    let lines = spec.requires_of(op);
    &lines[line as usize]
}

/// Whether the precondition of a call is true in a state.
pub fn is_ready(spec: &Spec, world: &World, state: &State, call: &Call) -> bool
    requires world { world_fits spec.now world.now ≡ true }
    requires call { call_fits spec.now world.now call.now ≡ true }
    ensures { result ≡ pre spec.now world.now call.now (reads state.now) }
{
    requires_broken_at(spec, world, state, call).is_none()
}

/// Whether a line is true at elements, or as a whole where its prefix is `exists`.
pub fn line_at<R: Readings>(
    spec: &Spec,
    world: &World,
    at: &R,
    args: &[i64],
    line: &Prefixed,
    elements: &[u32],
) -> bool
    requires world { world_fits spec.now world.now ≡ true }
    requires args { list_all in_state_range args.now ≡ true }
    requires fits { line_fits spec.now world.now args.now line.now ≡ true }
    requires elements { fits_places world.now (failing_vars line.now) elements.now ≡ true }
    ensures { result ≡ line_at world.now (R.reads at.now) args.now line.now elements.now }
{
    match line.prefix {
        Prefix::Exists => line_holds(spec, world, at, args, line),
        Prefix::Plain => holds(spec, world, at, args, elements, &line.body),
        Prefix::Forall => holds(spec, world, at, args, elements, &line.body),
    }
}
