// What is true at the entry: the invariants and the requires lines of the calls.
ghost use Rattle.std.specs.{Prelude.{◌≡◌, ◌≤◌, ◌-◌, [], length, get_or, IfOk}, List.{flat_map}};
ghost use Rattle.ground_problem.specs.Constants.{assignments};
ghost use Rattle.ground_problem.specs.Formulas.{at_stage, caller, instances};
ghost use Rattle.ground_problem.specs.Problem.{most_formulas};
ghost use Rattle.ground_atoms.specs.Formulas.{consts_of_args};
ghost use Rattle.ground_problem.specs.Entry as entry;
ghost use Rattle.spec_core.specs.Specification.{op_of};
ghost use Rattle.stage_defs.specs.Settings.{readings_in, caller_in};
ghost use Rattle.ground_groups.specs.{Limited.{Appends, HasRoomFor}, Calls.{constants_in}};
ghost use Rattle.ground_groups.specs.Lines.{line_at, lines_at};

use crate::adding::MOST_FORMULAS;
use crate::assigning::{count_choices, options_of};
use crate::gathering::Named;
use crate::grounding::Grounding;
use crate::instancing::{add_instances, add_true};
use crate::refused::GroundRefused;
use ground_atoms::GroundArg;
use items::Items;
use spec_core::{Invariant, Prefix, Prefixed, Spec};
use stage_defs::{Setting, Stage};
use std::alloc::{AllocError, Global};

// How many assignments of constants to its variables a line has, or fewer where a machine counts no further.
fn count_assignments(alloc: Global, named: &Named, line: &Prefixed) -> Result<usize, AllocError>
    ensures { IfOk result (λ n. n ≤ length (assignments (constants_in named.now) line.now.vars)) }
{
    let options = options_of(alloc, named.sorts.as_slice(), line.vars.as_slice())?;
    Ok(count_choices(options.as_slice()))
}

// How many assignments all these invariants have together, or fewer where a machine counts no further.
fn count_all(alloc: Global, named: &Named, invariants: &[Invariant]) -> Result<usize, AllocError>
    ensures { IfOk result
        (λ n. n ≤ length
        (flat_map (λ i. assignments (constants_in named.now) i.line.vars) invariants.now)) }
{
    let mut count: usize = 0;
    for invariant in invariants {
        let more = count_assignments(alloc, named, &invariant.line)?;
        count = count.saturating_add(more);
    }
    Ok(count)
}

// Whether there is room for each of these invariants once for each assignment. No formula is made for this.
fn has_room_for_all(
    grounding: &Grounding,
    named: &Named,
    invariants: &[Invariant],
) -> Result<(), GroundRefused>
    ensures { HasRoomFor result (most_formulas - length grounding.now.formulas)
        (length (flat_map (λ i. assignments (constants_in named.now) i.line.vars) invariants.now)) }
{
    let count = count_all(grounding.alloc, named, invariants)?;
    if count > MOST_FORMULAS.saturating_sub(grounding.formulas.len()) {
        return Err(GroundRefused::TooMany);
    }
    Ok(())
}

/// Appends each invariant, once for each assignment.
pub fn add_invariants(
    grounding: &mut Grounding,
    spec: &Spec,
    named: &Named,
) -> Result<(), GroundRefused>
    ensures { Appends result grounding.old
        (entry.invariants_hold spec.now (constants_in named.now)) grounding.new }
{
    let setting = Setting {
        spec,
        stage: Stage::Numbered(0),
        call: 0,
        args: &[],
    };
    add_all(grounding, &setting, named, spec.invariants.as_slice())
}

// Appends each of these invariants, once for each assignment, or says that there is no room for so many.
fn add_all(
    grounding: &mut Grounding,
    setting: &Setting<'_>,
    named: &Named,
    invariants: &[Invariant],
) -> Result<(), GroundRefused>
    ensures { Appends result grounding.old
        (flat_map
        (λ i. instances (constants_in named.now) (readings_in setting.now) (caller_in setting.now)
        i.line.vars i.line.body)
        invariants.now)
        grounding.new }
{
    if let Err(refused) = has_room_for_all(grounding, named, invariants) {
        return Err(refused);
    }
    add_each(grounding, setting, named, invariants)
}

fn add_each(
    grounding: &mut Grounding,
    setting: &Setting<'_>,
    named: &Named,
    invariants: &[Invariant],
) -> Result<(), GroundRefused>
    ensures { Appends result grounding.old
        (flat_map
        (λ i. instances (constants_in named.now) (readings_in setting.now) (caller_in setting.now)
        i.line.vars i.line.body)
        invariants.now)
        grounding.new }
{
    for invariant in invariants {
        match add_line(grounding, setting, named, &invariant.line) {
            Ok(()) => {}
            Err(refused) => return Err(refused),
        }
    }
    Ok(())
}

// Appends a line once for each assignment.
fn add_line(
    grounding: &mut Grounding,
    setting: &Setting<'_>,
    named: &Named,
    line: &Prefixed,
) -> Result<(), GroundRefused>
    ensures { Appends result grounding.old
        (instances (constants_in named.now) (readings_in setting.now) (caller_in setting.now)
        line.now.vars line.now.body)
        grounding.new }
{
    add_instances(grounding, setting, named, line.vars.as_slice(), &line.body)
}

/// Appends a requires line: with `exists` at its own constants, else once for each assignment.
pub fn add_requires(
    grounding: &mut Grounding,
    setting: &Setting<'_>,
    named: &Named,
    line: &Prefixed,
    own: &Items<u32>,
) -> Result<(), GroundRefused>
    ensures { Appends result grounding.old
        (line_at (constants_in named.now) (readings_in setting.now) (caller_in setting.now) line.now
        own.now)
        grounding.new }
{
    match line.prefix {
        Prefix::Exists => add_true(grounding, setting, own.as_slice(), &line.body),
        _ => add_line(grounding, setting, named, line),
    }
}

// Appends each requires line of a call.
fn add_lines(
    grounding: &mut Grounding,
    setting: &Setting<'_>,
    named: &Named,
    lines: &[Prefixed],
    owns: &[Items<u32>],
) -> Result<(), GroundRefused>
    ensures { Appends result grounding.old
        (lines_at (constants_in named.now) (readings_in setting.now) (caller_in setting.now) 0
        lines.now owns.now)
        grounding.new }
{
    let count = lines.len().min(owns.len());
    for place in 0..count {
        match add_requires(grounding, setting, named, &lines[place], &owns[place]) {
            Ok(()) => {}
            Err(refused) => return Err(refused),
        }
    }
    Ok(())
}

/// The arguments of a call, none where there is no such call.
pub fn args_of(named: &Named, call: u8) -> &[GroundArg]
    ensures { consts_of_args result.now ≡ get_or (constants_in named.now).params call [] }
{
    match named.calls.as_slice().get(call as usize) {
        Some(found) => found.args.as_slice(),
        None => &[],
    }
}

/// The readings at the entry, for the call at a place.
pub fn at_entry<'a>(spec: &'a Spec, named: &'a Named, call: u8) -> Setting<'a>
    ensures readings { readings_in result ≡ at_stage [] }
    ensures caller { caller_in result ≡ caller (constants_in named.now) call }
{
    Setting {
        spec,
        stage: Stage::Numbered(0),
        call,
        args: args_of(named, call),
    }
}

/// Appends each requires line of the call at a place, which is one of this operation.
pub fn add_call_ready(
    grounding: &mut Grounding,
    spec: &Spec,
    named: &Named,
    call: u8,
    op: u8,
    owns: &Items<Items<u32>>,
) -> Result<(), GroundRefused>
    ensures { Appends result grounding.old
        (entry.lines_hold (constants_in named.now) (caller (constants_in named.now) call)
        (op_of spec.now op).requires_ owns.now)
        grounding.new }
{
    let setting = at_entry(spec, named, call);
    let lines = spec.requires_of(op);
    add_lines(grounding, &setting, named, lines, owns.as_slice())
}
