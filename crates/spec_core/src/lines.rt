// Lines, invariants, preconditions and observations: which line is false first.

ghost use Rattle.std.specs.{Prelude.{◌≡◌, true, is_none}, List.{list_all}};
ghost use Rattle.spec_core.specs.{Specification.{op_of}, Truth.{line_true}};
ghost use Rattle.spec_core.specs.Meaning.{broken_at, first_false, pre, observed};
ghost use Rattle.spec_core.specs.Fits.{in_state_range, world_fits, call_fits, line_fits};

use crate::choices::all_agree;
use crate::{Call, Prefix, Prefixed, Readings, Spec, World};

/// The truth of a line at arguments that fit it.
pub fn line_holds<R: Readings>(
    spec: &Spec,
    world: &World,
    at: &R,
    args: &[i64],
    line: &Prefixed,
) -> bool
    requires world { world_fits spec.now world.now ≡ true }
    requires args { list_all in_state_range args.now ≡ true }
    requires fits { line_fits spec.now world.now args.now line.now ≡ true }
    ensures { result ≡ line_true world.now (R.reads at.now) args.now line.now }
{
    let sorts = line.vars.as_slice();
    match line.prefix {
        Prefix::Exists => !all_agree(spec, world, at, args, sorts, &line.body, false),
        _ => all_agree(spec, world, at, args, sorts, &line.body, true),
    }
}

/// The place of the first invariant that is false.
pub fn invariant_broken_at<R: Readings>(spec: &Spec, world: &World, at: &R) -> Option<usize>
    requires { world_fits spec.now world.now ≡ true }
    ensures { result ≡ broken_at spec.now world.now (R.reads at.now) }
{
    for (i, invariant) in spec.invariants.as_slice().iter().enumerate() {
        if !line_holds(spec, world, at, &[], &invariant.line) {
            return Some(i);
        }
    }
    None
}

fn line_broken_at<R: Readings>(
    spec: &Spec,
    world: &World,
    at: &R,
    args: &[i64],
    lines: &[Prefixed],
) -> Option<usize>
    requires world { world_fits spec.now world.now ≡ true }
    requires args { list_all in_state_range args.now ≡ true }
    requires fits { list_all (line_fits spec.now world.now args.now) lines.now ≡ true }
    ensures { result ≡ first_false world.now (R.reads at.now) args.now lines.now }
{
    for (i, line) in lines.iter().enumerate() {
        if !line_holds(spec, world, at, args, line) {
            return Some(i);
        }
    }
    None
}

/// The place of the first requires line of a call that is false; none where its precondition holds.
pub fn requires_broken_at<R: Readings>(
    spec: &Spec,
    world: &World,
    at: &R,
    call: &Call,
) -> Option<usize>
    requires world { world_fits spec.now world.now ≡ true }
    requires call { call_fits spec.now world.now call.now ≡ true }
    ensures place { result ≡ first_false world.now (R.reads at.now) call.now.args
        (op_of spec.now call.now.op).requires_ }
    ensures none { is_none result ≡ pre spec.now world.now call.now (R.reads at.now) }
{
    spec.well_formed();
    let lines = spec.requires_of(call.op);
    line_broken_at(spec, world, at, call.args.as_slice(), lines)
}

/// The place of the first observes line of a call that is false; none where its observation holds.
pub fn observes_broken_at<R: Readings>(
    spec: &Spec,
    world: &World,
    at: &R,
    call: &Call,
) -> Option<usize>
    requires world { world_fits spec.now world.now ≡ true }
    requires call { call_fits spec.now world.now call.now ≡ true }
    ensures place { result ≡ first_false world.now (R.reads at.now) call.now.args
        (op_of spec.now call.now.op).observes }
    ensures none { is_none result ≡ observed spec.now world.now call.now (R.reads at.now) }
{
    spec.well_formed();
    let lines = spec.observes_of(call.op);
    line_broken_at(spec, world, at, call.args.as_slice(), lines)
}
