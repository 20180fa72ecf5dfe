// Which calls can conflict: by the tokens of the takes lines of their operations, and by one argument of each where every rule
// that matches these tokens wants one element for both.

ghost use Rattle.std.specs.{Prelude.{◌≡◌, map, get_or, IfOk}, List.{list_any, list_all}};
ghost use Rattle.token_rules.specs.declared.rivals.Rivalry.TheVariants.{Free};
ghost use Rattle.token_rules.specs.Rivals.{tokens_match, some_rule_may, are_rivals, starts_with};
ghost use Rattle.token_rules.specs.Rivals.{same_first, tied_by, all_tied, are_tied, key_in, key_of};
ghost use Rattle.token_rules.specs.Rivals.{rivalry, rivals_of as rivals_with, element_at};
ghost use Rattle.token_rules.specs.Rivals.{may_conflict as may_conflict_by};

use spec_core::{Call, Elem, Operation, Rule, Spec, Take};
use std::alloc::{AllocError, Global};

/// How calls of another operation can conflict with calls of one.
#[derive(Clone, Copy)]
pub enum Rivalry {
    /// They don't.
    Never,
    /// Only where the argument of the other call at the first place is that of the call at the second place.
    Tied(u8, u8),
    /// This is to be asked.
    Free,
}

// The rule matches the tokens of two takes lines, its left pattern at the first.
fn tokens_match(rule: &Rule, t: &Take, u: &Take) -> bool
    ensures { result ≡ tokens_match rule.now t.now u.now }
{
    !(t.shared && u.shared) && rule.left.token == t.token && rule.right.token == u.token
}

// The rule matches the tokens of a takes line and of some of the others.
fn line_may(rule: &Rule, t: &Take, second: &[Take]) -> bool
    ensures { result ≡ list_any (λ u. tokens_match rule.now t.now u) second.now }
{
    second.iter().any(|u| tokens_match(rule, t, u))
}

// The rule matches the tokens of some takes line of the first list and of some of the second.
fn rule_may(rule: &Rule, first: &[Take], second: &[Take]) -> bool
    ensures { result ≡ list_any (λ t. list_any
        (λ u. tokens_match rule.now t u) second.now) first.now }
{
    first.iter().any(|t| line_may(rule, t, second))
}

// Some rule matches the tokens of some takes line of the first list and of some of the second.
fn some_rule_may(rules: &[Rule], first: &[Take], second: &[Take]) -> bool
    ensures { result ≡ some_rule_may rules.now first.now second.now }
{
    rules.iter().any(|rule| rule_may(rule, first, second))
}

// Some rule matches the tokens of some takes line of the one list and of some of the other, in either order.
fn are_rivals(rules: &[Rule], one: &[Take], other: &[Take]) -> bool
    ensures { result ≡ are_rivals rules.now one.now other.now }
{
    some_rule_may(rules, one, other) || some_rule_may(rules, other, one)
}

// The first of some elements is this parameter.
fn starts_with(param: u8, elems: &[Elem]) -> bool
    ensures { result ≡ starts_with param elems.now }
{
    match elems {
        [] => false,
        [first, ..] => match *first {
            Elem::Const(_) => false,
            Elem::Param(n) => n == param,
            Elem::Var(_) => false,
        },
    }
}

fn same_first(left: &[u8], right: &[u8]) -> bool
    ensures { result ≡ same_first left.now right.now }
{
    match left {
        [] => false,
        [one, ..] => match right {
            [] => false,
            [other, ..] => *one == *other,
        },
    }
}

// Where the rule matches the tokens of two takes lines, it wants one element for these parameters of theirs.
fn tied_by(first: u8, second: u8, rule: &Rule, t: &Take, u: &Take) -> bool
    ensures { result ≡ tied_by first second rule.now t.now u.now }
{
    !tokens_match(rule, t, u)
        || (same_first(rule.left.vars.as_slice(), rule.right.vars.as_slice())
            && (starts_with(first, t.args.as_slice()) && starts_with(second, u.args.as_slice())))
}

fn line_tied(first: u8, second: u8, rule: &Rule, t: &Take, others: &[Take]) -> bool
    ensures { result ≡ list_all (λ u. tied_by first second rule.now t.now u) others.now }
{
    others.iter().all(|u| tied_by(first, second, rule, t, u))
}

fn rule_tied(first: u8, second: u8, rule: &Rule, lines: &[Take], others: &[Take]) -> bool
    ensures { result ≡ list_all (λ t. list_all
        (λ u. tied_by first second rule.now t u) others.now) lines.now }
{
    lines
        .iter()
        .all(|t| line_tied(first, second, rule, t, others))
}

fn all_tied(first: u8, second: u8, rules: &[Rule], lines: &[Take], others: &[Take]) -> bool
    ensures { result ≡ all_tied first second rules.now lines.now others.now }
{
    rules
        .iter()
        .all(|rule| rule_tied(first, second, rule, lines, others))
}

// Each rule that matches tokens of two takes lines, one of each list, wants one element for these parameters of theirs.
fn are_tied(first: u8, second: u8, rules: &[Rule], one: &[Take], other: &[Take]) -> bool
    ensures { result ≡ are_tied first second rules.now one.now other.now }
{
    all_tied(first, second, rules, one, other) && all_tied(second, first, rules, other, one)
}

// The parameter with which a takes line begins, or else another number.
fn key_in(elems: &[Elem], next: u8) -> u8
    ensures { result ≡ key_in elems.now next }
{
    match elems {
        [] => next,
        [first, ..] => match *first {
            Elem::Const(_) => next,
            Elem::Param(n) => n,
            Elem::Var(_) => next,
        },
    }
}

// The first parameter with which a takes line begins.
fn key_of(takes: &[Take]) -> u8
    ensures { result ≡ key_of takes.now }
{
    match takes {
        [] => 0,
        [take, takes @ ..] => key_in(take.args.as_slice(), key_of(takes)),
    }
}

fn rivalry_between(rules: &[Rule], one: &[Take], other: &[Take]) -> Rivalry
    ensures { result ≡ rivalry rules.now one.now other.now }
{
    if !are_rivals(rules, one, other) {
        return Rivalry::Never;
    }
    let first = key_of(one);
    let second = key_of(other);
    if are_tied(first, second, rules, one, other) {
        Rivalry::Tied(first, second)
    } else {
        Rivalry::Free
    }
}

fn rivals_among(
    alloc: Global,
    rules: &[Rule],
    operations: &[Operation],
    takes: &[Take],
) -> Result<Vec<Rivalry>, AllocError>
    ensures { IfOk result (λ rivals. rivals.items
        ≡ map (λ o. rivalry rules.now o.takes takes.now) operations.now) }
{
    let mut rivals = Vec::new(alloc);
    for operation in operations {
        rivals.push(rivalry_between(rules, operation.takes.as_slice(), takes))?;
    }
    Ok(rivals)
}

/// For each operation, how its calls can conflict with calls of this one.
pub fn rivals_of(alloc: Global, spec: &Spec, op: u8) -> Result<Vec<Rivalry>, AllocError>
    ensures { IfOk result (λ rivals. rivals.items ≡ rivals_with spec.now op) }
{
    rivals_among(
        alloc,
        spec.rules.as_slice(),
        spec.operations.as_slice(),
        spec.takes_of(op),
    )
}

fn element_at(args: &[i64], place: u8) -> u64
    ensures { result ≡ element_at args.now place }
{
    args.get(place as usize)
        .copied()
        .unwrap_or(0)
        .unsigned_abs()
}

/// Whether another call can conflict with a call, as far as is known without the rules.
pub fn may_conflict(rivals: &[Rivalry], other: &Call, call: &Call) -> bool
    ensures { result
        ≡ may_conflict_by (get_or rivals.now other.now.op Free) other.now.args call.now.args }
{
    match rivals.get(other.op as usize) {
        None => true,
        Some(Rivalry::Never) => false,
        Some(Rivalry::Tied(first, second)) => {
            element_at(other.args.as_slice(), *first) == element_at(call.args.as_slice(), *second)
        }
        Some(Rivalry::Free) => true,
    }
}
