// The calls of a witness.
ghost use Rattle.std.specs.Prelude.{◌≡◌, IfOk, true, pos, map, slice_index, slice_index_or};
ghost use Rattle.std.specs.List.{list_all};
ghost use Rattle.spec_core.specs.Fits.{in_state_range};
ghost use Rattle.model_back.specs.Calls.{argument_by, call_by};

use crate::state::{element_of, value_of};
use ground_atoms::{GroundArg, GroundCall};
use items::Items;
use spec_core::Call;
use std::alloc::{AllocError, Global};

// An argument: the element of a constant, or the value of a name.
fn argument_at(elements: &[u32], values: &[i128], arg: &GroundArg) -> i64
    requires { list_all in_state_range values.now ≡ true }
    ensures value { result ≡ argument_by (slice_index elements.now)
        (λ n. slice_index_or values.now n (pos 0)) arg.now }
    ensures range { in_state_range result ≡ true }
{
    match arg {
        GroundArg::Elem(constant) => i64::from(element_of(elements, *constant)),
        GroundArg::Int(number) => value_of(values, *number),
    }
}

fn arguments_at(
    alloc: Global,
    elements: &[u32],
    values: &[i128],
    args: &[GroundArg],
) -> Result<Items<i64>, AllocError>
    requires { list_all in_state_range values.now ≡ true }
    ensures values { IfOk result
        (λ ns. ns
        ≡ map (argument_by (slice_index elements.now) (λ n. slice_index_or values.now n (pos 0)))
        args.now) }
    ensures range { IfOk result (λ ns. list_all in_state_range ns ≡ true) }
{
    let mut out = Items::new(alloc);
    for arg in args {
        out.push(argument_at(elements, values, arg))?;
    }
    Ok(out)
}

/// The calls at these elements and whole numbers.
pub fn calls_at(
    alloc: Global,
    elements: &[u32],
    values: &[i128],
    calls: &[GroundCall],
) -> Result<Items<Call>, AllocError>
    requires { list_all in_state_range values.now ≡ true }
    ensures calls { IfOk result
        (λ cs. cs
        ≡ map (call_by (slice_index elements.now) (λ n. slice_index_or values.now n (pos 0)))
        calls.now) }
    ensures range { IfOk result (λ cs. list_all (λ c. list_all in_state_range c.args) cs ≡ true) }
{
    let mut out = Items::new(alloc);
    for call in calls {
        let args = arguments_at(alloc, elements, values, call.args.as_slice())?;
        out.push(Call { op: call.op, args })?;
    }
    Ok(out)
}
