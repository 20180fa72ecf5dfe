// Two calls don't conflict.
ghost use Rattle.std.specs.Prelude.{◌≡◌, ◌+◌, ◌++◌, ◌<◌, [], ◌==◌, length, cond, drop, take};
ghost use Rattle.std.specs.{Prelude.{slice_index, IfOk, OnOk}, List.{flat_map, list_any}};
ghost use Rattle.std.specs.Option.{option_map};
ghost use Rattle.spec_core.specs.Specification.{op_of};
ghost use Rattle.ground_problem.specs.Symbols as symbols;
ghost use Rattle.ground_problem.specs.Formulas.{consts_of};
ghost use Rattle.ground_problem.specs.Entry as entry;
ghost use Rattle.ground_atoms.specs.Formulas.{form_of};
ghost use Rattle.stage_defs.specs.{Settings.{caller_in, IsMade}, Parts.{make_parts}};
ghost use Rattle.ground_groups.specs.{Calls.{constants_in}, Limited.{Appends}};
ghost use Rattle.ground_groups.specs.Rules.{unmatched_as};

use crate::adding::has_room;
use crate::entry::at_entry;
use crate::gathering::Named;
use crate::grounding::Grounding;
use crate::parts::{all_of, join_same};
use crate::refused::GroundRefused;
use ground_atoms::{Atoms, GroundFormula};
use items::Items;
use spec_core::{Elem, Rule, Spec, Take};
use stage_defs::setting::const_of;
use stage_defs::{Setting, negated};
use std::alloc::{AllocError, Global};

// A call, and one of its takes lines.
#[derive(Clone, Copy)]
struct Taking<'a> {
    call: Setting<'a>,
    line: &'a Take,
}

// A call, and all its takes lines.
#[derive(Clone, Copy)]
struct AllTaking<'a> {
    call: Setting<'a>,
    lines: &'a [Take],
}

// Whether the tokens of two takes lines are those of a rule's patterns, and the lines aren't both shared.
fn are_ruled(rule: &Rule, left: &Take, right: &Take) -> bool
    ensures { result ≡ entry.are_ruled rule.now left.now right.now }
{
    !(left.shared && right.shared)
        && rule.left.token == left.token
        && rule.right.token == right.token
}

// Appends the constants that stand for these elements.
fn add_consts(
    setting: &Setting<'_>,
    elements: &[Elem],
    out: &mut Items<u32>,
) -> Result<(), AllocError>
    ensures { OnOk result (out.new ≡ out.old ++ consts_of (caller_in setting.now) [] elements.now) }
{
    for element in elements {
        out.push(const_of(setting, &[], *element))?;
    }
    Ok(())
}

// The constants of two takes lines.
fn consts_of_both(
    alloc: Global,
    left: &Taking<'_>,
    right: &Taking<'_>,
) -> Result<Items<u32>, AllocError>
    ensures { IfOk result
        (λ cs. cs
        ≡ consts_of (caller_in left.now.call) [] left.now.line.now.args
        ++ consts_of (caller_in right.now.call) [] right.now.line.now.args) }
{
    let mut consts = Items::new(alloc);
    add_consts(&left.call, left.line.args.as_slice(), &mut consts)?;
    add_consts(&right.call, right.line.args.as_slice(), &mut consts)?;
    Ok(consts)
}

// The variables of both patterns of a rule.
fn vars_of(alloc: Global, rule: &Rule) -> Result<Items<u8>, AllocError>
    ensures { IfOk result (λ vs. vs ≡ rule.now.left.vars ++ rule.now.right.vars) }
{
    let mut vars = Items::new(alloc);
    vars.extend_from_slice(rule.left.vars.as_slice())?;
    vars.extend_from_slice(rule.right.vars.as_slice())?;
    Ok(vars)
}

// Whether the variable at a place stands at an earlier one.
fn is_met(vars: &[u8], place: usize) -> bool
    requires { place < length vars.now }
    ensures { result ≡ list_any (λ u. slice_index vars.now place == u) (take place vars.now) }
{
    let var = vars[place];
    vars[..place].iter().any(|earlier| var == *earlier)
}

// Joins the equality of the constant at a place with each later one at a place of its variable.
fn same_later(
    atoms: &mut Atoms,
    alloc: Global,
    vars: &[u8],
    consts: &[u32],
    place: usize,
    mut done: Option<GroundFormula>,
) -> Result<Option<GroundFormula>, AllocError>
    requires vars { place < length vars.now }
    requires consts { place < length consts.now }
    ensures { IfOk result
        (λ all. make_parts (option_map form_of done) atoms.old
        (entry.same_later (slice_index vars.now place) (slice_index consts.now place)
        (drop (place + 1) vars.now) (drop (place + 1) consts.now))
        ≡ record { known = atoms.new; parts = option_map form_of all }) }
{
    let (var, constant) = (vars[place], consts[place]);
    let count = vars.len().min(consts.len());
    for later in place + 1..count {
        let counts = vars[later] == var;
        done = join_same(atoms, alloc, counts, constant, consts[later], done)?;
    }
    Ok(done)
}

// Joins the equalities of the constant at a place, unless its variable stands at an earlier one.
fn same_from(
    atoms: &mut Atoms,
    alloc: Global,
    vars: &[u8],
    consts: &[u32],
    place: usize,
    done: Option<GroundFormula>,
) -> Result<Option<GroundFormula>, AllocError>
    requires vars { place < length vars.now }
    requires consts { place < length consts.now }
    ensures { IfOk result
        (λ all. make_parts (option_map form_of done) atoms.old
        (cond (list_any (λ u. slice_index vars.now place == u) (take place vars.now)) []
        (entry.same_later (slice_index vars.now place) (slice_index consts.now place)
        (drop (place + 1) vars.now) (drop (place + 1) consts.now)))
        ≡ record { known = atoms.new; parts = option_map form_of all }) }
{
    if is_met(vars, place) {
        return Ok(done);
    }
    same_later(atoms, alloc, vars, consts, place, done)
}

// One assignment gives these constants to these variables.
fn one_element_each(
    atoms: &mut Atoms,
    alloc: Global,
    vars: &[u8],
    consts: &[u32],
) -> Result<GroundFormula, AllocError>
    ensures { IfOk result
        (λ f. IsMade atoms.old (symbols.all_parts (entry.one_element_each [] vars.now consts.now))
        atoms.new f) }
{
    let mut done = None;
    let count = vars.len().min(consts.len());
    for place in 0..count {
        done = same_from(atoms, alloc, vars, consts, place, done)?;
    }
    let all = all_of(done);
    Ok(all)
}

// Not one assignment gives a rule's variables the constants of two takes lines.
fn not_one_element_each(
    atoms: &mut Atoms,
    alloc: Global,
    rule: &Rule,
    left: &Taking<'_>,
    right: &Taking<'_>,
) -> Result<GroundFormula, AllocError>
    ensures { IfOk result
        (λ f. IsMade atoms.old
        (symbols.negated (symbols.all_parts (entry.one_element_each []
        (rule.now.left.vars ++ rule.now.right.vars)
        (consts_of (caller_in left.now.call) [] left.now.line.now.args
        ++ consts_of (caller_in right.now.call) [] right.now.line.now.args))))
        atoms.new f) }
{
    let vars = vars_of(alloc, rule)?;
    let consts = or_drop!(consts_of_both(alloc, left, right); vars);
    let matched = one_element_each(atoms, alloc, vars.as_slice(), consts.as_slice());
    drop(vars);
    drop(consts);
    negated(alloc, matched?)
}

// Appends that a rule doesn't match two takes lines, by its left pattern the first and by its right pattern the second.
fn add_unmatched(
    grounding: &mut Grounding,
    rule: &Rule,
    left: &Taking<'_>,
    right: &Taking<'_>,
) -> Result<(), GroundRefused>
    ensures { Appends result grounding.old
        (entry.unmatched rule.now (caller_in left.now.call) left.now.line.now
        (caller_in right.now.call) right.now.line.now)
        grounding.new }
{
    if !are_ruled(rule, left.line, right.line) {
        return Ok(());
    }
    has_room(grounding)?;
    let made = not_one_element_each(&mut grounding.atoms, grounding.alloc, rule, left, right)?;
    grounding.formulas.push(made)?;
    Ok(())
}

// The same with the left pattern at the second line where they are swapped.
fn add_unmatched_as(
    grounding: &mut Grounding,
    rule: &Rule,
    swapped: bool,
    left: &Taking<'_>,
    right: &Taking<'_>,
) -> Result<(), GroundRefused>
    ensures { Appends result grounding.old
        (unmatched_as swapped rule.now (caller_in left.now.call) left.now.line.now
        (caller_in right.now.call) right.now.line.now)
        grounding.new }
{
    if swapped {
        add_unmatched(grounding, rule, right, left)
    } else {
        add_unmatched(grounding, rule, left, right)
    }
}

// The same for one takes line and each of these of another call.
fn add_with_each(
    grounding: &mut Grounding,
    rule: &Rule,
    swapped: bool,
    left: &Taking<'_>,
    other: &Setting<'_>,
    lines: &[Take],
) -> Result<(), GroundRefused>
    ensures { Appends result grounding.old
        (flat_map
        (λ u. unmatched_as swapped rule.now (caller_in left.now.call) left.now.line.now
        (caller_in other.now) u)
        lines.now)
        grounding.new }
{
    for line in lines {
        let right = Taking { call: *other, line };
        match add_unmatched_as(grounding, rule, swapped, left, &right) {
            Ok(()) => {}
            Err(refused) => return Err(refused),
        }
    }
    Ok(())
}

// The same for each of these takes lines of a call and each of another call.
fn add_each_with_each(
    grounding: &mut Grounding,
    rule: &Rule,
    swapped: bool,
    call: &Setting<'_>,
    lines: &[Take],
    other: &AllTaking<'_>,
) -> Result<(), GroundRefused>
    ensures { Appends result grounding.old
        (flat_map
        (λ t. flat_map
        (λ u. unmatched_as swapped rule.now (caller_in call.now) t (caller_in other.now.call) u)
        other.now.lines.now)
        lines.now)
        grounding.new }
{
    for line in lines {
        let left = Taking { call: *call, line };
        match add_with_each(grounding, rule, swapped, &left, &other.call, other.lines) {
            Ok(()) => {}
            Err(refused) => return Err(refused),
        }
    }
    Ok(())
}

// Appends that a rule matches no takes line of the one call and none of the other, in either order.
fn add_rule(
    grounding: &mut Grounding,
    rule: &Rule,
    a: &AllTaking<'_>,
    b: &AllTaking<'_>,
) -> Result<(), GroundRefused>
    ensures { Appends result grounding.old
        (entry.rule_unmatched (caller_in a.now.call) a.now.lines.now (caller_in b.now.call)
        b.now.lines.now rule.now)
        grounding.new }
{
    match add_each_with_each(grounding, rule, false, &a.call, a.lines, b) {
        Ok(()) => {}
        Err(refused) => return Err(refused),
    }
    add_each_with_each(grounding, rule, true, &a.call, a.lines, b)
}

// The same for each of these rules.
fn add_rules(
    grounding: &mut Grounding,
    rules: &[Rule],
    a: &AllTaking<'_>,
    b: &AllTaking<'_>,
) -> Result<(), GroundRefused>
    ensures { Appends result grounding.old
        (flat_map
        (entry.rule_unmatched (caller_in a.now.call) a.now.lines.now (caller_in b.now.call)
        b.now.lines.now)
        rules.now)
        grounding.new }
{
    for rule in rules {
        match add_rule(grounding, rule, a, b) {
            Ok(()) => {}
            Err(refused) => return Err(refused),
        }
    }
    Ok(())
}

/// Appends that the calls of these operations don't conflict; one call alone has none to conflict with.
pub fn add_free(
    grounding: &mut Grounding,
    spec: &Spec,
    named: &Named,
    ops: &[u8],
) -> Result<(), GroundRefused>
    ensures { Appends result grounding.old
        (entry.calls_free spec.now (constants_in named.now) ops.now) grounding.new }
{
    match ops {
        [first, second, ..] => {
            let a = AllTaking {
                call: at_entry(spec, named, 0),
                lines: spec.takes_of(*first),
            };
            let b = AllTaking {
                call: at_entry(spec, named, 1),
                lines: spec.takes_of(*second),
            };
            add_rules(grounding, spec.rules.as_slice(), &a, &b)
        }
        _ => Ok(()),
    }
}
