// Whether two specifications say the same, part by part.

use spec_core::{
    Body, Change, Cmp, Const, Counter, Elem, Formula, Invariant, Kind, Name, Operation, Param,
    Prefix, Prefixed, Relation, Rule, Spec, Spot, Summand, Take, Term, Thing, Token, Update,
};

/// Answers false for the function that it stands in where two lists differ.
macro_rules! all_same {
    ($a:expr, $b:expr, $same:ident) => {
        let (a, b) = ($a.as_slice(), $b.as_slice());
        if a.len() != b.len() {
            return false;
        }
        for i in 0..a.len() {
            if !$same(&a[i], &b[i]) {
                return false;
            }
        }
    };
}

// ---- names, elements and formulas

fn same_name(a: &Name, b: &Name) -> bool {
    a.bytes() == b.bytes()
}

fn same_elem(a: &Elem, b: &Elem) -> bool {
    match (*a, *b) {
        (Elem::Const(n), Elem::Const(m)) => n == m,
        (Elem::Param(n), Elem::Param(m)) => n == m,
        (Elem::Var(n), Elem::Var(m)) => n == m,
        _ => false,
    }
}

fn same_elems(a: &[Elem], b: &[Elem]) -> bool {
    if a.len() != b.len() {
        return false;
    }
    for i in 0..a.len() {
        if !same_elem(&a[i], &b[i]) {
            return false;
        }
    }
    true
}

fn same_body(a: &Body, b: &Body) -> bool {
    match a {
        Body::One => matches!(b, Body::One),
        Body::Param(n) => match b {
            Body::Param(m) => n == m,
            _ => false,
        },
        Body::Count(n, keys) => match b {
            Body::Count(m, others) => n == m && same_elems(keys.as_slice(), others.as_slice()),
            _ => false,
        },
    }
}

fn same_summand(a: &Summand, b: &Summand) -> bool {
    a.coef == b.coef && same_body(&a.body, &b.body)
}

fn same_term(a: &Term, b: &Term) -> bool {
    all_same!(a.summands, b.summands, same_summand);
    true
}

fn same_cmp(a: Cmp, b: Cmp) -> bool {
    matches!(
        (a, b),
        (Cmp::Less, Cmp::Less)
            | (Cmp::AtMost, Cmp::AtMost)
            | (Cmp::Equal, Cmp::Equal)
            | (Cmp::Unequal, Cmp::Unequal)
            | (Cmp::AtLeast, Cmp::AtLeast)
            | (Cmp::Greater, Cmp::Greater)
    )
}

fn same_formula(a: &Formula, b: &Formula) -> bool {
    match a {
        Formula::True => matches!(b, Formula::True),
        Formula::False => matches!(b, Formula::False),
        Formula::Not(f) => match b {
            Formula::Not(g) => same_formula(f, g),
            _ => false,
        },
        Formula::And(f, h) => match b {
            Formula::And(g, k) => same_formula(f, g) && same_formula(h, k),
            _ => false,
        },
        Formula::Or(f, h) => match b {
            Formula::Or(g, k) => same_formula(f, g) && same_formula(h, k),
            _ => false,
        },
        Formula::Implies(f, h) => match b {
            Formula::Implies(g, k) => same_formula(f, g) && same_formula(h, k),
            _ => false,
        },
        Formula::Has(n, f) => match b {
            Formula::Has(m, g) => n == m && same_elems(f.as_slice(), g.as_slice()),
            _ => false,
        },
        Formula::Same(x, y) => match b {
            Formula::Same(v, w) => same_elem(x, v) && same_elem(y, w),
            _ => false,
        },
        Formula::Differ(x, y) => match b {
            Formula::Differ(v, w) => same_elem(x, v) && same_elem(y, w),
            _ => false,
        },
        Formula::Compare(left, how, right) => match b {
            Formula::Compare(other_left, other_how, other_right) => {
                same_term(left, other_left)
                    && same_cmp(*how, *other_how)
                    && same_term(right, other_right)
            }
            _ => false,
        },
    }
}

fn same_prefix(a: Prefix, b: Prefix) -> bool {
    matches!(
        (a, b),
        (Prefix::Plain, Prefix::Plain)
            | (Prefix::Forall, Prefix::Forall)
            | (Prefix::Exists, Prefix::Exists)
    )
}

fn same_line(a: &Prefixed, b: &Prefixed) -> bool {
    same_prefix(a.prefix, b.prefix)
        && a.vars.as_slice() == b.vars.as_slice()
        && same_formula(&a.body, &b.body)
}

// ---- operations

fn same_param(a: &Param, b: &Param) -> bool {
    let kinds = match (a.kind, b.kind) {
        (Kind::Sort(n), Kind::Sort(m)) => n == m,
        (Kind::Int, Kind::Int) => true,
        _ => false,
    };
    kinds && same_name(&a.name, &b.name)
}

fn same_spot(a: &Spot, b: &Spot) -> bool {
    match (*a, *b) {
        (Spot::Every, Spot::Every) => true,
        (Spot::One(x), Spot::One(y)) => same_elem(&x, &y),
        _ => false,
    }
}

fn same_spots(a: &[Spot], b: &[Spot]) -> bool {
    if a.len() != b.len() {
        return false;
    }
    for i in 0..a.len() {
        if !same_spot(&a[i], &b[i]) {
            return false;
        }
    }
    true
}

fn same_change(a: &Change, b: &Change) -> bool {
    match a {
        Change::Insert => matches!(b, Change::Insert),
        Change::Remove => matches!(b, Change::Remove),
        Change::Add(t) => match b {
            Change::Add(u) => same_term(t, u),
            _ => false,
        },
        Change::Set(t) => match b {
            Change::Set(u) => same_term(t, u),
            _ => false,
        },
    }
}

fn same_update(a: &Update, b: &Update) -> bool {
    a.thing == b.thing
        && same_spots(a.at.as_slice(), b.at.as_slice())
        && same_change(&a.change, &b.change)
        && same_formula(&a.guard, &b.guard)
}

fn same_take(a: &Take, b: &Take) -> bool {
    a.token == b.token && a.shared == b.shared && same_elems(a.args.as_slice(), b.args.as_slice())
}

fn same_operation(a: &Operation, b: &Operation) -> bool {
    all_same!(a.params, b.params, same_param);
    all_same!(a.requires_, b.requires_, same_line);
    all_same!(a.updates, b.updates, same_update);
    all_same!(a.takes, b.takes, same_take);
    all_same!(a.observes, b.observes, same_line);
    same_name(&a.name, &b.name)
}

// ---- the other parts

fn same_const(a: &Const, b: &Const) -> bool {
    same_name(&a.name, &b.name) && a.sort == b.sort
}

fn same_counter(a: &Counter, b: &Counter) -> bool {
    same_name(&a.name, &b.name) && a.keys.as_slice() == b.keys.as_slice() && a.initial == b.initial
}

fn same_relation(a: &Relation, b: &Relation) -> bool {
    same_name(&a.name, &b.name)
        && a.places.as_slice() == b.places.as_slice()
        && a.initial == b.initial
}

fn same_token(a: &Token, b: &Token) -> bool {
    same_name(&a.name, &b.name) && a.places.as_slice() == b.places.as_slice()
}

fn same_rule(a: &Rule, b: &Rule) -> bool {
    a.left.token == b.left.token
        && a.left.vars.as_slice() == b.left.vars.as_slice()
        && a.right.token == b.right.token
        && a.right.vars.as_slice() == b.right.vars.as_slice()
}

fn same_invariant(a: &Invariant, b: &Invariant) -> bool {
    same_name(&a.name, &b.name) && same_line(&a.line, &b.line)
}

/// Whether two specifications are one.
pub fn same_spec(a: &Spec, b: &Spec) -> bool {
    all_same!(a.sorts, b.sorts, same_name);
    all_same!(a.consts, b.consts, same_const);
    all_same!(a.relations, b.relations, same_relation);
    all_same!(a.counters, b.counters, same_counter);
    all_same!(a.tokens, b.tokens, same_token);
    all_same!(a.rules, b.rules, same_rule);
    all_same!(a.invariants, b.invariants, same_invariant);
    all_same!(a.operations, b.operations, same_operation);
    a.version == b.version
}
