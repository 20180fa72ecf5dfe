// Whether two calls conflict. Nothing here takes memory.

ghost use Rattle.std.specs.{Prelude.{◌≡◌}, List.{list_any}};
ghost use Rattle.token_rules.specs.Conflict.{lines_match, matched, conflicts};

use crate::assignment::one_assignment;
use spec_core::{Call, Rule, Spec, Take, World};

// The rule matches the two takes lines, its left pattern at the first.
fn lines_match(world: &World, one: &[i64], other: &[i64], rule: &Rule, t: &Take, u: &Take) -> bool
    ensures { result ≡ lines_match world.now one.now other.now rule.now t.now u.now }
{
    !(t.shared && u.shared)
        && rule.left.token == t.token
        && rule.right.token == u.token
        && one_assignment(
            world,
            one,
            other,
            rule.left.vars.as_slice(),
            t.args.as_slice(),
            rule.right.vars.as_slice(),
            u.args.as_slice(),
        )
}

// The rule matches a takes line and some of the others, its left pattern at the line.
fn line_matches(
    world: &World,
    one: &[i64],
    other: &[i64],
    rule: &Rule,
    t: &Take,
    second: &[Take],
) -> bool
    ensures { result
        ≡ list_any (λ u. lines_match world.now one.now other.now rule.now t.now u) second.now }
{
    second
        .iter()
        .any(|u| lines_match(world, one, other, rule, t, u))
}

// The rule matches some takes line of the first list and some of the second, its left pattern at the first.
fn rule_matches(
    world: &World,
    one: &[i64],
    other: &[i64],
    rule: &Rule,
    first: &[Take],
    second: &[Take],
) -> bool
    ensures { result ≡ list_any (λ t. list_any
        (λ u. lines_match world.now one.now other.now rule.now t u) second.now) first.now }
{
    first
        .iter()
        .any(|t| line_matches(world, one, other, rule, t, second))
}

// Some rule matches a takes line of the first list and one of the second, its left pattern at the first.
fn some_rule_matches(
    world: &World,
    one: &[i64],
    other: &[i64],
    rules: &[Rule],
    first: &[Take],
    second: &[Take],
) -> bool
    ensures { result
        ≡ list_any
        (λ rule. list_any
        (λ t. list_any (λ u. lines_match world.now one.now other.now rule t u) second.now)
        first.now)
        rules.now }
{
    rules.iter().any(|rule| rule_matches(world, one, other, rule, first, second))
}

// Some rule matches a takes line of the one call and one of the other, its left pattern at the one.
fn matched(spec: &Spec, world: &World, one: &Call, other: &Call) -> bool
    ensures { result ≡ matched spec.now world.now one.now other.now }
{
    let first = spec.takes_of(one.op);
    let second = spec.takes_of(other.op);
    some_rule_matches(
        world,
        one.args.as_slice(),
        other.args.as_slice(),
        spec.rules.as_slice(),
        first,
        second,
    )
}

/// Whether two calls conflict: some rule matches a takes line of the one and a takes line of the other, in either order. Calls
/// that conflict are ordered by happens-before in every execution.
pub fn conflicts(spec: &Spec, world: &World, a: &Call, b: &Call) -> bool
    ensures { result ≡ conflicts spec.now world.now a.now b.now }
{
    matched(spec, world, a, b) || matched(spec, world, b, a)
}
