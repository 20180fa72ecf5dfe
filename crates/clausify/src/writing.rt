// The clauses of a plain formula: each "and" inside an "or" is named by a new atom. A sign goes with each part: where it is false, the
// negation of that part is written, so that an "and" is an "or" and an "or" is an "and".
ghost use Rattle.std.specs.Prelude.{◌≡◌, ◌+◌, ◌∷◌, ◌++◌, [], true, false, None, IfOk, OnOk};
ghost use Rattle.ground_numbers.specs.Clauses.{any, names, literals, new_names, inner_names};
ghost use Rattle.ground_numbers.specs.Clauses.{written, whole, parts, in_front, clause_of};
ghost use Rattle.ground_numbers.specs.Clauses.{clauses_of, names_of};
ghost use Rattle.proof_lines.specs.Clauses.{join, lit_of};
ghost use Rattle.ground_atoms.specs.Formulas.{form_of};
ghost use Rattle.clausify.specs.Formulas.{is_plain, is_plain_if_unsettled, normal, folded_of};

use crate::bare::{Folded, literal, signed};
use ground_atoms::GroundFormula;
use items::Items;
use proof_lines::{Clause, Lit};
use std::alloc::{AllocError, Global};

// Adds the atom that names an "and" to a clause, and answers the next one.
fn add_name(name: u32, clause: &mut Clause) -> Result<u32, AllocError>
    ensures made { OnOk result (clause.new ≡ join clause.old (lit_of name true ∷ [])) }
    ensures next { IfOk result (λ n. n ≡ name + 1) }
{
    clause.insert(literal(name, true))?;
    name.checked_add(1).ok_or(AllocError)
}

// Adds two literals to a clause.
fn add_two(first: Lit, second: Lit, clause: &mut Clause) -> Result<(), AllocError>
    ensures { OnOk result (clause.new ≡ join clause.old (first ∷ second ∷ [])) }
{
    clause.insert(first)?;
    clause.insert(second)
}

// Adds the parts of an "or" to a clause, and answers the naming atom that is next after `name`.
fn add_literals(
    sign: bool,
    name: u32,
    form: &GroundFormula,
    clause: &mut Clause,
) -> Result<u32, AllocError>
    requires { is_plain form.now ≡ true }
    ensures made { OnOk result (clause.new ≡ join clause.old
        (literals name (normal sign (form_of form.now)))) }
    ensures next { IfOk result (λ n. n ≡ name + names (normal sign (form_of form.now))) }
{
    match form {
        GroundFormula::Truth(_)
        | GroundFormula::Implied(_, _, _)
        | GroundFormula::Congruent { .. } => unreachable!(),
        GroundFormula::Lit(atom, positive) => {
            clause.insert(literal(*atom, signed(sign, *positive)))?;
            Ok(name)
        }
        GroundFormula::NotAtom(atom) => {
            clause.insert(literal(*atom, signed(!sign, true)))?;
            Ok(name)
        }
        GroundFormula::Not(inner) => add_literals(!sign, name, inner, clause),
        GroundFormula::BothAtoms(_, _) | GroundFormula::And(_) if sign => add_name(name, clause),
        GroundFormula::AtomImplies(_, _) | GroundFormula::Or(_) if !sign => add_name(name, clause),
        GroundFormula::BothAtoms(first, second) => {
            add_two(literal(*first, false), literal(*second, false), clause)?;
            Ok(name)
        }
        GroundFormula::AtomImplies(first, second) => {
            add_two(literal(*first, false), literal(*second, true), clause)?;
            Ok(name)
        }
        GroundFormula::And(both) | GroundFormula::Or(both) => {
            let next = add_literals(sign, name, &both.0, clause)?;
            add_literals(sign, next, &both.1, clause)
        }
    }
}

/// Where the writing of clauses stands: which atom names the next "and", and which is the next new one.
#[derive(Clone, Copy)]
pub struct Naming {
    pub name: u32,
    pub next: u32,
}

// The clause of the literal in front, if any.
fn clause_after(alloc: Global, front: Option<Lit>) -> Result<Clause, AllocError>
    ensures { IfOk result (λ c. c ≡ join [] (in_front front)) }
{
    let mut clause = Clause::empty(alloc);
    if let Some(lit) = front {
        clause.insert(lit)?;
    }
    Ok(clause)
}

// Appends the clause of a literal after the literal in front, if any.
fn write_one(
    alloc: Global,
    front: Option<Lit>,
    part: Lit,
    out: &mut Items<Clause>,
) -> Result<(), AllocError>
    ensures { OnOk result (out.new ≡ out.old ++ join [] (in_front front ++ part ∷ []) ∷ []) }
{
    let mut clause = clause_after(alloc, front)?;
    clause.insert(part)?;
    out.push(clause)
}

// Appends the clauses of two literals, each after the literal in front, if any.
fn write_two(
    alloc: Global,
    front: Option<Lit>,
    first: Lit,
    second: Lit,
    out: &mut Items<Clause>,
) -> Result<(), AllocError>
    ensures { OnOk result
        (out.new
        ≡ out.old
        ++ join [] (in_front front ++ first ∷ []) ∷ join [] (in_front front ++ second ∷ []) ∷ []) }
{
    write_one(alloc, front, first, out)?;
    write_one(alloc, front, second, out)
}

// Appends the clauses of two literals that an atom names together.
fn write_named(
    alloc: Global,
    at: Naming,
    first: Lit,
    second: Lit,
    out: &mut Items<Clause>,
) -> Result<Naming, AllocError>
    ensures made { OnOk result
        (out.new
        ≡ out.old
        ++ join [] (lit_of at.name false ∷ first ∷ [])
        ∷ join [] (lit_of at.name false ∷ second ∷ [])
        ∷ []) }
    ensures name { IfOk result (λ r. r.name ≡ at.name + 1) }
    ensures next { IfOk result (λ r. r.next ≡ at.next) }
{
    let front = Some(literal(at.name, false));
    write_two(alloc, front, first, second, out)?;
    let name = at.name.checked_add(1).ok_or(AllocError)?;
    Ok(Naming {
        name,
        next: at.next,
    })
}

// Appends the clause of the parts of an "or", after the literal in front, if any. `name` names its first "and".
// The answer is where the clauses on its named parts begin.
fn write_clause(
    alloc: Global,
    sign: bool,
    front: Option<Lit>,
    name: u32,
    form: &GroundFormula,
    out: &mut Items<Clause>,
) -> Result<Naming, AllocError>
    requires { is_plain form.now ≡ true }
    ensures made { OnOk result (out.new ≡ out.old
        ++ clause_of front name (normal sign (form_of form.now)) ∷ []) }
    ensures name { IfOk result (λ r. r.name ≡ name) }
    ensures next { IfOk result (λ r. r.next ≡ name + names (normal sign (form_of form.now))) }
{
    let mut clause = clause_after(alloc, front)?;
    let next = add_literals(sign, name, form, &mut clause)?;
    out.push(clause)?;
    Ok(Naming { name, next })
}

// Appends the clause of the parts of "or" of two formulas. `name` names its first "and". The answer is where the
// clauses on its named parts begin.
fn write_clause_of_two(
    alloc: Global,
    name: u32,
    left: &GroundFormula,
    right: &GroundFormula,
    out: &mut Items<Clause>,
) -> Result<Naming, AllocError>
    requires left { is_plain left.now ≡ true }
    requires right { is_plain right.now ≡ true }
    ensures made { OnOk result
        (out.new
        ≡ out.old
        ++ clause_of None name (any (normal true (form_of left.now)) (normal true (form_of right.now))) ∷ []) }
    ensures name { IfOk result (λ r. r.name ≡ name) }
    ensures next { IfOk result
        (λ r. r.next
        ≡ name
        + names (any (normal true (form_of left.now)) (normal true (form_of right.now)))) }
{
    let mut clause = Clause::empty(alloc);
    let beside = add_literals(true, name, left, &mut clause)?;
    let next = add_literals(true, beside, right, &mut clause)?;
    out.push(clause)?;
    Ok(Naming { name, next })
}

/// Appends the clauses of a plain formula, each after the literal in front, if any. `next` is the next naming atom.
#[cycle(writing)]
pub fn write_whole(
    alloc: Global,
    sign: bool,
    front: Option<Lit>,
    next: u32,
    form: &GroundFormula,
    out: &mut Items<Clause>,
) -> Result<u32, AllocError>
    requires { is_plain form.now ≡ true }
    ensures made { OnOk result (out.new ≡ out.old
        ++ written (whole front) next (normal sign (form_of form.now))) }
    ensures next { IfOk result (λ n. n ≡ next + new_names (normal sign (form_of form.now))) }
{
    match form {
        GroundFormula::Truth(_)
        | GroundFormula::Implied(_, _, _)
        | GroundFormula::Congruent { .. } => unreachable!(),
        GroundFormula::Not(inner) => write_whole(alloc, !sign, front, next, inner, out),
        GroundFormula::BothAtoms(first, second) if sign => {
            let (left, right) = (literal(*first, true), literal(*second, true));
            write_two(alloc, front, left, right, out)?;
            Ok(next)
        }
        GroundFormula::AtomImplies(first, second) if !sign => {
            let (left, right) = (literal(*first, true), literal(*second, false));
            write_two(alloc, front, left, right, out)?;
            Ok(next)
        }
        GroundFormula::Lit(_, _)
        | GroundFormula::NotAtom(_)
        | GroundFormula::BothAtoms(_, _)
        | GroundFormula::AtomImplies(_, _) => {
            let _ = write_clause(alloc, sign, front, next, form, out)?;
            Ok(next)
        }
        GroundFormula::And(both) if !sign => {
            let start = write_clause(alloc, false, front, next, form, out)?;
            let after = write_parts(alloc, false, start, &both.0, out)?;
            let end = write_parts(alloc, false, after, &both.1, out)?;
            Ok(end.next)
        }
        GroundFormula::Or(both) if sign => {
            let start = write_clause(alloc, true, front, next, form, out)?;
            let after = write_parts(alloc, true, start, &both.0, out)?;
            let end = write_parts(alloc, true, after, &both.1, out)?;
            Ok(end.next)
        }
        GroundFormula::And(both) | GroundFormula::Or(both) => {
            let after = write_whole(alloc, sign, front, next, &both.0, out)?;
            write_whole(alloc, sign, front, after, &both.1, out)
        }
    }
}

// Appends the clauses on the named parts of an "or".
#[cycle(writing)]
fn write_parts(
    alloc: Global,
    sign: bool,
    at: Naming,
    form: &GroundFormula,
    out: &mut Items<Clause>,
) -> Result<Naming, AllocError>
    requires { is_plain form.now ≡ true }
    ensures made { OnOk result (out.new ≡ out.old
        ++ written (parts at.name) at.next (normal sign (form_of form.now))) }
    ensures name { IfOk result (λ r. r.name ≡ at.name + names (normal sign (form_of form.now))) }
    ensures next { IfOk result (λ r. r.next ≡ at.next
        + inner_names (normal sign (form_of form.now))) }
{
    match form {
        GroundFormula::Truth(_)
        | GroundFormula::Implied(_, _, _)
        | GroundFormula::Congruent { .. } => unreachable!(),
        GroundFormula::Not(inner) => write_parts(alloc, !sign, at, inner, out),
        GroundFormula::BothAtoms(first, second) if sign => {
            let (left, right) = (literal(*first, true), literal(*second, true));
            write_named(alloc, at, left, right, out)
        }
        GroundFormula::AtomImplies(first, second) if !sign => {
            let (left, right) = (literal(*first, true), literal(*second, false));
            write_named(alloc, at, left, right, out)
        }
        GroundFormula::Lit(_, _)
        | GroundFormula::NotAtom(_)
        | GroundFormula::BothAtoms(_, _)
        | GroundFormula::AtomImplies(_, _) => Ok(at),
        GroundFormula::And(both) if !sign => {
            let after = write_parts(alloc, false, at, &both.0, out)?;
            write_parts(alloc, false, after, &both.1, out)
        }
        GroundFormula::Or(both) if sign => {
            let after = write_parts(alloc, true, at, &both.0, out)?;
            write_parts(alloc, true, after, &both.1, out)
        }
        GroundFormula::And(both) | GroundFormula::Or(both) => {
            let front = Some(literal(at.name, false));
            let after = write_whole(alloc, sign, front, at.next, &both.0, out)?;
            let next = write_whole(alloc, sign, front, after, &both.1, out)?;
            let name = at.name.checked_add(1).ok_or(AllocError)?;
            Ok(Naming { name, next })
        }
    }
}

/// Appends the clauses of "or" of two plain formulas. `next` is the next naming atom.
pub fn write_either(
    alloc: Global,
    next: u32,
    left: &GroundFormula,
    right: &GroundFormula,
    out: &mut Items<Clause>,
) -> Result<u32, AllocError>
    requires left { is_plain left.now ≡ true }
    requires right { is_plain right.now ≡ true }
    ensures made { OnOk result
        (out.new
        ≡ out.old
        ++ written (whole None) next (any (normal true (form_of left.now)) (normal true (form_of right.now)))) }
    ensures next { IfOk result
        (λ n. n ≡ next + new_names (any (normal true (form_of left.now)) (normal true (form_of right.now)))) }
{
    let start = write_clause_of_two(alloc, next, left, right, out)?;
    let after = write_parts(alloc, true, start, left, out)?;
    let end = write_parts(alloc, true, after, right, out)?;
    Ok(end.next)
}

/// Appends the clauses of a folded formula. `next` is the next naming atom.
pub fn write_folded(
    alloc: Global,
    next: u32,
    form: &Folded,
    out: &mut Items<Clause>,
) -> Result<u32, AllocError>
    requires { is_plain_if_unsettled form.now ≡ true }
    ensures made { OnOk result (out.new ≡ out.old ++ clauses_of next (folded_of form.now)) }
    ensures next { IfOk result (λ n. n ≡ next + names_of (folded_of form.now)) }
{
    match form {
        Folded::Settled(true) => Ok(next),
        Folded::Settled(false) => {
            out.push(Clause::empty(alloc))?;
            Ok(next)
        }
        Folded::Unsettled(plain) => write_whole(alloc, true, None, next, plain, out),
    }
}
