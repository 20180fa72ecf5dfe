// Copies of terms, formulas and lines.

ghost use Rattle.std.specs.Prelude.{◌≡◌, IfOk};
ghost use Rattle.spec_core.specs.Form.{form_of, and_form, or_form, implies_form, compare_form};

use items::Items;
use spec_core::{Body, Cmp, Formula, Prefixed, Summand, Term};
use std::alloc::{AllocError, Global};

fn copy_body(alloc: Global, body: &Body) -> Result<Body, AllocError>
    ensures { IfOk result (λ copy. copy ≡ body.now) }
{
    match body {
        Body::One => Ok(Body::One),
        Body::Param(n) => Ok(Body::Param(*n)),
        Body::Count(counter, keys) => {
            let keys = Items::from_slice(alloc, keys.as_slice())?;
            Ok(Body::Count(*counter, keys))
        }
    }
}

fn copy_summand(alloc: Global, summand: &Summand) -> Result<Summand, AllocError>
    ensures { IfOk result (λ copy. copy ≡ summand.now) }
{
    let body = copy_body(alloc, &summand.body)?;
    Ok(Summand {
        coef: summand.coef,
        body,
    })
}

fn copy_summands(alloc: Global, summands: &[Summand]) -> Result<Items<Summand>, AllocError>
    ensures { IfOk result (λ copies. copies ≡ summands.now) }
{
    let mut copies = Items::new(alloc);
    for summand in summands {
        let copy = or_drop!(copy_summand(alloc, summand); copies);
        or_drop!(copies.push(copy); copies);
    }
    Ok(copies)
}

/// A copy of a term.
pub fn copy_term(alloc: Global, term: &Term) -> Result<Term, AllocError>
    ensures { IfOk result (λ copy. copy ≡ term.now) }
{
    let summands = copy_summands(alloc, term.summands.as_slice())?;
    Ok(Term { summands })
}

fn one_boxed(alloc: Global, formula: Formula) -> Result<Box<Formula>, AllocError>
    ensures { IfOk result (λ made. made.value ≡ formula) }
{
    Ok(Box::new(alloc, formula)?)
}

/// The two sides of a connective.
fn boxed(
    alloc: Global,
    left: Formula,
    right: Formula,
) -> Result<(Box<Formula>, Box<Formula>), AllocError>
    ensures left { IfOk result (λ sides. sides.0.value ≡ left) }
    ensures right { IfOk result (λ sides. sides.1.value ≡ right) }
{
    let left = or_drop!(one_boxed(alloc, left); right);
    let right = or_drop!(one_boxed(alloc, right); left);
    Ok((left, right))
}

fn and(alloc: Global, left: Formula, right: Formula) -> Result<Formula, AllocError>
    ensures { IfOk result (λ made. form_of made ≡ and_form (form_of left) (form_of right)) }
{
    let (left, right) = boxed(alloc, left, right)?;
    Ok(Formula::And(left, right))
}

fn or(alloc: Global, left: Formula, right: Formula) -> Result<Formula, AllocError>
    ensures { IfOk result (λ made. form_of made ≡ or_form (form_of left) (form_of right)) }
{
    let (left, right) = boxed(alloc, left, right)?;
    Ok(Formula::Or(left, right))
}

fn implies(alloc: Global, left: Formula, right: Formula) -> Result<Formula, AllocError>
    ensures { IfOk result (λ made. form_of made ≡ implies_form (form_of left) (form_of right)) }
{
    let (left, right) = boxed(alloc, left, right)?;
    Ok(Formula::Implies(left, right))
}

fn compare(alloc: Global, left: &Term, cmp: Cmp, right: &Term) -> Result<Formula, AllocError>
    ensures { IfOk result (λ made. form_of made ≡ compare_form left.now cmp right.now) }
{
    let left = copy_term(alloc, left)?;
    let right = or_drop!(copy_term(alloc, right); left);
    Ok(Formula::Compare(left, cmp, right))
}

/// A copy of a formula.
pub fn copy_formula(alloc: Global, formula: &Formula) -> Result<Formula, AllocError>
    ensures { IfOk result (λ copy. form_of copy ≡ form_of formula.now) }
{
    match formula {
        Formula::True => Ok(Formula::True),
        Formula::False => Ok(Formula::False),
        Formula::Not(part) => {
            let part = copy_formula(alloc, part)?;
            Ok(Formula::Not(Box::new(alloc, part)?))
        }
        Formula::And(left, right) => {
            let left = copy_formula(alloc, left)?;
            let right = or_drop!(copy_formula(alloc, right); left);
            and(alloc, left, right)
        }
        Formula::Or(left, right) => {
            let left = copy_formula(alloc, left)?;
            let right = or_drop!(copy_formula(alloc, right); left);
            or(alloc, left, right)
        }
        Formula::Implies(left, right) => {
            let left = copy_formula(alloc, left)?;
            let right = or_drop!(copy_formula(alloc, right); left);
            implies(alloc, left, right)
        }
        Formula::Has(relation, elems) => {
            let elems = Items::from_slice(alloc, elems.as_slice())?;
            Ok(Formula::Has(*relation, elems))
        }
        Formula::Same(one, other) => Ok(Formula::Same(*one, *other)),
        Formula::Differ(one, other) => Ok(Formula::Differ(*one, *other)),
        Formula::Compare(left, cmp, right) => compare(alloc, left, *cmp, right),
    }
}

/// A copy of a line.
pub fn copy_line(alloc: Global, line: &Prefixed) -> Result<Prefixed, AllocError>
    ensures { IfOk result (λ copy. copy ≡ line.now) }
{
    let vars = Items::from_slice(alloc, line.vars.as_slice())?;
    let body = or_drop!(copy_formula(alloc, &line.body); vars);
    Ok(Prefixed {
        prefix: line.prefix,
        vars,
        body,
    })
}

/// A copy of some lines.
pub fn copy_lines(alloc: Global, lines: &[Prefixed]) -> Result<Items<Prefixed>, AllocError>
    ensures { IfOk result (λ copies. copies ≡ lines.now) }
{
    let mut copies = Items::new(alloc);
    for line in lines {
        let copy = or_drop!(copy_line(alloc, line); copies);
        or_drop!(copies.push(copy); copies);
    }
    Ok(copies)
}
