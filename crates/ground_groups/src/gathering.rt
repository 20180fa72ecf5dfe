// The constants of an obligation, and its calls.
ghost use Rattle.std.specs.Prelude.{◌≡◌, ◌+◌, ◌++◌, ◌∷◌, [], ◌<◌, map, length, IfOk, OnOk};
ghost use Rattle.std.specs.List.{range_with_len, flat_map};
ghost use Rattle.spec_core.specs.{Meaning.{invariant_line}, Specification.{op_of, places_of}};
ghost use Rattle.obligation_list.specs.Breaking as breaking;
ghost use Rattle.obligation_list.specs.Obligations.{IsObligation};
ghost use Rattle.ground_problem.specs.Constants.{constants_of, sorts_of_params, chosen_vars};
ghost use Rattle.ground_problem.specs.Constants.{chosen_from, concatenated, all_chosen_from};
ghost use Rattle.ground_atoms.specs.Calls.{args_from, ints_among, calls_from, calls_of};
ghost use Rattle.ground_groups.specs.Calls.{constants_in};

use ground_atoms::{GroundArg, GroundCall};
use items::Items;
use obligation_list::Obligation;
use spec_core::{Kind, Param, Prefix, Prefixed, Spec};
use std::alloc::{AllocError, Global};

/// The constants of an obligation by their sorts, the calls at them, those of the requires lines with `exists`, and the elements of
/// the conclusion.
#[derive(Drop)]
pub struct Named {
    pub sorts: Items<u8>,
    pub calls: Items<GroundCall>,
    pub chosen: Items<Items<Items<u32>>>,
    pub elements: Items<u32>,
}

/// The operations whose calls an obligation speaks of.
pub fn operations_of(alloc: Global, ob: &Obligation) -> Result<Items<u8>, AllocError>
    ensures { IfOk result (λ ops. ops ≡ breaking.operations_of ob.now) }
{
    match ob {
        Obligation::Init { .. } => Ok(Items::new(alloc)),
        Obligation::Safety { op, .. } => Items::from_slice(alloc, &[*op]),
        Obligation::Commute { first, second, .. } => Items::from_slice(alloc, &[*first, *second]),
        Obligation::Stable { op, other, .. } => Items::from_slice(alloc, &[*op, *other]),
    }
}

// The next constant, which is of this sort.
fn add_constant(sorts: &mut Items<u8>, sort: u8) -> Result<u32, AllocError>
    ensures number { IfOk result (λ n. n ≡ length sorts.old) }
    ensures sorts { OnOk result (sorts.new ≡ sorts.old ++ sort ∷ []) }
{
    let Ok(number) = u32::try_from(sorts.len()) else {
        return Err(AllocError);
    };
    sorts.push(sort)?;
    Ok(number)
}

// The parameters of an operation that is called, at new constants and integers.
fn add_args(
    alloc: Global,
    params: &[Param],
    sorts: &mut Items<u8>,
    ints: &mut u32,
) -> Result<Items<GroundArg>, AllocError>
    ensures args { IfOk result (λ args. args ≡ args_from (length sorts.old) ints.old params.now) }
    ensures sorts { OnOk result (sorts.new ≡ sorts.old ++ sorts_of_params params.now) }
    ensures ints { OnOk result (ints.new ≡ ints.old + ints_among params.now) }
{
    let mut args = Items::new(alloc);
    for param in params {
        match param.kind {
            Kind::Sort(sort) => args.push(GroundArg::Elem(add_constant(sorts, sort)?))?,
            Kind::Int => {
                args.push(GroundArg::Int(*ints))?;
                *ints = next_int(*ints)?;
            }
        }
    }
    Ok(args)
}

fn next_int(number: u32) -> Result<u32, AllocError>
    ensures { IfOk result (λ n. n ≡ number + 1) }
{
    number.checked_add(1).ok_or(AllocError)
}

// New constants of these sorts.
fn add_constants(
    alloc: Global,
    vars: &[u8],
    sorts: &mut Items<u8>,
) -> Result<Items<u32>, AllocError>
    ensures numbers { IfOk result (λ ns. ns ≡ range_with_len (length sorts.old) (length vars.now)) }
    ensures sorts { OnOk result (sorts.new ≡ sorts.old ++ vars.now) }
{
    let mut numbers = Items::new(alloc);
    for sort in vars {
        numbers.push(add_constant(sorts, *sort)?)?;
    }
    Ok(numbers)
}

// The variables of a line that a call chooses: those of `exists`.
fn chosen_vars(line: &Prefixed) -> &[u8]
    ensures { result.now ≡ chosen_vars line.now }
{
    match line.prefix {
        Prefix::Exists => line.vars.as_slice(),
        _ => &[],
    }
}

// New constants for the variables of each line with `exists`.
fn add_chosen(
    alloc: Global,
    lines: &[Prefixed],
    sorts: &mut Items<u8>,
) -> Result<Items<Items<u32>>, AllocError>
    ensures numbers { IfOk result (λ lists. lists
        ≡ chosen_from (length sorts.old) (map chosen_vars lines.now)) }
    ensures sorts { OnOk result (sorts.new ≡ sorts.old
        ++ concatenated (map chosen_vars lines.now)) }
{
    let mut lists = Items::new(alloc);
    for line in lines {
        lists.push(add_constants(alloc, chosen_vars(line), sorts)?)?;
    }
    Ok(lists)
}

/// The parameters of an operation; none where there is no such operation.
pub fn params_of(spec: &Spec, op: u8) -> &[Param]
    ensures { result.now ≡ (op_of spec.now op).params }
{
    match spec.operations.as_slice().get(op as usize) {
        Some(operation) => operation.params.as_slice(),
        None => &[],
    }
}

// The calls of these operations, at new constants and integers.
fn add_calls(
    alloc: Global,
    spec: &Spec,
    ops: &[u8],
    sorts: &mut Items<u8>,
) -> Result<Items<GroundCall>, AllocError>
    ensures calls { IfOk result (λ calls. calls
        ≡ calls_from spec.now (length sorts.old) 0 ops.now) }
    ensures sorts { OnOk result
        (sorts.new
        ≡ sorts.old ++ flat_map sorts_of_params (map (λ o. (op_of spec.now o).params) ops.now)) }
{
    let mut calls = Items::new(alloc);
    let mut ints = 0;
    for op in ops {
        let args = add_args(alloc, params_of(spec, *op), sorts, &mut ints)?;
        calls.push(GroundCall { op: *op, args })?;
    }
    Ok(calls)
}

// New constants for the requires lines of these operations.
fn add_all_chosen(
    alloc: Global,
    spec: &Spec,
    ops: &[u8],
    sorts: &mut Items<u8>,
) -> Result<Items<Items<Items<u32>>>, AllocError>
    ensures numbers { IfOk result
        (λ lists. lists
        ≡ all_chosen_from (length sorts.old)
        (map (λ o. map chosen_vars (op_of spec.now o).requires_) ops.now)) }
    ensures sorts { OnOk result
        (sorts.new
        ≡ sorts.old
        ++ flat_map concatenated
        (map (λ o. map chosen_vars (op_of spec.now o).requires_) ops.now)) }
{
    let mut lists = Items::new(alloc);
    for op in ops {
        lists.push(add_chosen(alloc, spec.requires_of(*op), sorts)?)?;
    }
    Ok(lists)
}

// The sorts of the declared constants.
fn declared_sorts(alloc: Global, spec: &Spec) -> Result<Items<u8>, AllocError>
    ensures { IfOk result (λ sorts. sorts ≡ map (λ c. c.sort) spec.now.consts) }
{
    let mut sorts = Items::new(alloc);
    for constant in spec.consts.as_slice() {
        sorts.push(constant.sort)?;
    }
    Ok(sorts)
}

/// The line of an invariant.
pub fn invariant_line(spec: &Spec, inv: u8) -> &Prefixed
    requires { inv < length spec.now.invariants }
    ensures { result.now ≡ invariant_line spec.now inv }
{
    &spec.invariants.as_slice()[inv as usize].line
}

/// A requires line of an operation.
pub fn requires_line(spec: &Spec, op: u8, line: u8) -> &Prefixed
    requires { line < length (op_of spec.now op).requires_ }
    ensures { result.now ≡ breaking.requires_line spec.now op line }
{
    let lines = spec.requires_of(op);
    &lines[line as usize]
}

fn failing_vars(line: &Prefixed) -> &[u8]
    ensures { result.now ≡ breaking.failing_vars line.now }
{
    match line.prefix {
        Prefix::Exists => &[],
        _ => line.vars.as_slice(),
    }
}

// The sorts of the elements at which the conclusion may fail.
fn elements_of<'a>(spec: &'a Spec, ob: &Obligation) -> &'a [u8]
    requires { IsObligation spec.now ob.now }
    ensures { result.now ≡ breaking.elements_of spec.now ob.now }
{
    match ob {
        Obligation::Init { inv } => failing_vars(invariant_line(spec, *inv)),
        Obligation::Safety { inv, .. } => failing_vars(invariant_line(spec, *inv)),
        Obligation::Commute { thing, .. } => spec.places_of(*thing),
        Obligation::Stable { op, line, .. } => failing_vars(requires_line(spec, *op, *line)),
    }
}

/// The constants and the calls of an obligation.
pub fn constants(alloc: Global, spec: &Spec, ob: &Obligation) -> Result<Named, AllocError>
    requires { IsObligation spec.now ob.now }
    ensures constants { IfOk result (λ c. constants_in c ≡ constants_of spec.now ob.now) }
    ensures calls { IfOk result (λ c. c.calls ≡ calls_of spec.now ob.now) }
{
    let ops = operations_of(alloc, ob)?;
    let mut sorts = or_drop!(declared_sorts(alloc, spec); ops);
    let calls = or_drop!(add_calls(alloc, spec, ops.as_slice(), &mut sorts); ops, sorts);
    let chosen =
        or_drop!(add_all_chosen(alloc, spec, ops.as_slice(), &mut sorts); ops, sorts, calls);
    drop(ops);
    let elements =
        or_drop!(add_constants(alloc, elements_of(spec, ob), &mut sorts); sorts, calls, chosen);
    Ok(Named {
        sorts,
        calls,
        chosen,
        elements,
    })
}
