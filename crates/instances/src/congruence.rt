// Where two tuples are equal, a thing reads the same at them.
//
// The equality of two tuples is a premise, and that a thing reads the same at both is a conclusion. Where both are told by numbers alone,
// as most are, their formula takes no memory of its own.
ghost use Rattle.std.specs.Prelude.{◌≡◌, [], true, IfOk, OnOk};
ghost use Rattle.spec_core.specs.declared.update.Thing.TheVariants as thing;
ghost use Rattle.ground_problem.specs.Symbols as symbols;
ghost use Rattle.ground_problem.specs.Equality as equality;
ghost use Rattle.ground_numbers.specs.Numbered.{known, literal, negation, conjunction, disjunction};
ghost use Rattle.ground_numbers.specs.Numbers.{has_atom, number_of};
ghost use Rattle.ground_atoms.specs.{Known.{know_atom}, Making.{make}, Symbols.{integer_of}};
ghost use Rattle.ground_atoms.specs.Formulas.{form_of, readings_agree};
ghost use Rattle.ground_atoms.specs.declared.formula.Agreement.TheVariants as agreements;
ghost use Rattle.stage_defs.specs.Settings.{IsMade};
ghost use Rattle.instances.specs.Congruent.{premise_of, conclusion_of};

use ground_atoms::{Agreement, Atom, Atoms, GroundFormula, IntName, Places, Tuple, at_most_name};
use ground_groups::parts::{all_of, join_lengths, join_same};
use spec_core::Thing;
use stage_defs::{both, either, negated, same_const};
use std::alloc::{AllocError, Global};

/// The equality of two tuples: by the numbers of one or two equalities, or as any formula.
#[derive(Drop)]
pub enum Premise {
    Equal(Places, u32, u32),
    Other(GroundFormula),
}

/// That two readings are one: by the numbers of two atoms, or as any formula.
#[derive(Drop)]
pub enum Conclusion {
    Agree(Agreement, u32, u32),
    Other(GroundFormula),
}

// Two tuples of any lengths are equal, place by place.
fn places_same(
    atoms: &mut Atoms,
    alloc: Global,
    left: &[u32],
    right: &[u32],
) -> Result<GroundFormula, AllocError>
    ensures { IfOk result (λ f. IsMade atoms.old
        (symbols.all_parts (equality.tuples_same left.now right.now)) atoms.new f) }
{
    let mut done = None;
    let count = left.len().min(right.len());
    for place in 0..count {
        done = join_same(atoms, alloc, true, left[place], right[place], done)?;
    }
    let parts = join_lengths(alloc, left.len() == right.len(), done)?;
    let all = all_of(parts);
    Ok(all)
}

// The equality of one place of two tuples.
fn at_one(part: GroundFormula) -> Premise
    ensures { premise_of result ≡ form_of part }
{
    match part {
        GroundFormula::Lit(number, true) => Premise::Equal(Places::Only, number, 0),
        other => Premise::Other(other),
    }
}

// The equality of the second of two places, after the first whose constants differ.
fn after_number(alloc: Global, first: u32, second: GroundFormula) -> Result<Premise, AllocError>
    ensures { IfOk result
        (λ p. premise_of p ≡ conjunction (literal first true) (form_of second)) }
{
    match second {
        GroundFormula::Lit(number, true) => Ok(Premise::Equal(Places::Both, first, number)),
        GroundFormula::Truth(true) => Ok(Premise::Equal(Places::First, first, 0)),
        other => Ok(Premise::Other(both(alloc, GroundFormula::Lit(first, true), other)?)),
    }
}

// The same, after the first whose constants are one.
fn after_truth(alloc: Global, second: GroundFormula) -> Result<Premise, AllocError>
    ensures { IfOk result (λ p. premise_of p ≡ conjunction (known true) (form_of second)) }
{
    match second {
        GroundFormula::Lit(number, true) => Ok(Premise::Equal(Places::Second, number, 0)),
        other => Ok(Premise::Other(both(alloc, GroundFormula::Truth(true), other)?)),
    }
}

// The equality of two places.
fn at_two(alloc: Global, first: GroundFormula, second: GroundFormula) -> Result<Premise, AllocError>
    ensures { IfOk result
        (λ p. premise_of p ≡ conjunction (form_of first) (form_of second)) }
{
    match first {
        GroundFormula::Lit(number, true) => after_number(alloc, number, second),
        GroundFormula::Truth(true) => after_truth(alloc, second),
        other => Ok(Premise::Other(both(alloc, other, second)?)),
    }
}

// Two tuples of any lengths, as a premise.
fn at_all(
    atoms: &mut Atoms,
    alloc: Global,
    left: &[u32],
    right: &[u32],
) -> Result<Premise, AllocError>
    ensures { IfOk result (λ p. make atoms.old (symbols.all_parts (equality.tuples_same left.now right.now))
        ≡ record { known = atoms.new; form = premise_of p }) }
{
    Ok(Premise::Other(places_same(atoms, alloc, left, right)?))
}

// Two tuples are equal, place by place. Those of one or two places, which most are, take no memory.
fn tuples_same(
    atoms: &mut Atoms,
    alloc: Global,
    left: &[u32],
    right: &[u32],
) -> Result<Premise, AllocError>
    ensures { IfOk result (λ p. make atoms.old (symbols.all_parts (equality.tuples_same left.now right.now))
        ≡ record { known = atoms.new; form = premise_of p }) }
{
    match left {
        [a] => match right {
            [b] => {
                let part = same_const(atoms, *a, *b)?;
                Ok(at_one(part))
            }
            _ => at_all(atoms, alloc, left, right),
        },
        [a, c] => match right {
            [b, d] => {
                let first = same_const(atoms, *a, *b)?;
                let second = same_const(atoms, *c, *d)?;
                at_two(alloc, first, second)
            }
            _ => at_all(atoms, alloc, left, right),
        },
        _ => at_all(atoms, alloc, left, right),
    }
}

// The number of a relation's reading at the entry.
fn number_at(
    atoms: &mut Atoms,
    alloc: Global,
    relation: u8,
    tuple: &[u32],
) -> Result<u32, AllocError>
    ensures known { OnOk result (atoms.new ≡ know_atom atoms.old (has_atom [] relation tuple.now)) }
    ensures number { IfOk result (λ n. n ≡ number_of atoms.old.table
        (has_atom [] relation tuple.now)) }
{
    let tuple = Tuple::of(alloc, tuple)?;
    atoms.number_of(Atom::Has {
        stage: 0,
        relation,
        tuple,
    })
}

#[tactic(auto, using(crate::proofs::Twice::read_twice))]
// A relation holds of both tuples or of neither. Each reading is looked up once, and stands in the formula twice.
fn relation_same(
    atoms: &mut Atoms,
    alloc: Global,
    relation: u8,
    left: &[u32],
    right: &[u32],
) -> Result<Conclusion, AllocError>
    ensures { IfOk result
        (λ c. make atoms.old (equality.readings_same (thing.Relation relation) left.now right.now)
        ≡ record { known = atoms.new; form = conclusion_of c }) }
{
    let first = number_at(atoms, alloc, relation, left)?;
    let second = number_at(atoms, alloc, relation, right)?;
    Ok(Conclusion::Agree(Agreement::Relation, first, second))
}

// Two comparisons that are true together.
fn both_rows(
    alloc: Global,
    up: GroundFormula,
    down: GroundFormula,
) -> Result<Conclusion, AllocError>
    ensures { IfOk result
        (λ c. conclusion_of c ≡ conjunction (form_of up) (form_of down)) }
{
    match up {
        GroundFormula::Lit(first, true) => match down {
            GroundFormula::Lit(second, true) => {
                Ok(Conclusion::Agree(Agreement::Counter, first, second))
            }
            other => Ok(Conclusion::Other(both(alloc, GroundFormula::Lit(first, true), other)?)),
        },
        other => Ok(Conclusion::Other(both(alloc, other, down)?)),
    }
}

// The name of a counter's reading at the entry.
fn count_at(alloc: Global, counter: u8, key: &[u32]) -> Result<IntName, AllocError>
    ensures { IfOk result (λ x. integer_of x ≡ symbols.reading [] counter key.now) }
{
    Ok(IntName::Count {
        stage: 0,
        part: 0,
        counter,
        key: Tuple::of(alloc, key)?,
    })
}

#[tactic(auto, using(crate::proofs::Twice::count_twice))]
// A counter is the same at both tuples. Each reading is looked up once, and stands in both rows.
fn counter_same(
    atoms: &mut Atoms,
    alloc: Global,
    counter: u8,
    left: &[u32],
    right: &[u32],
) -> Result<Conclusion, AllocError>
    ensures { IfOk result
        (λ c. make atoms.old (equality.readings_same (thing.Counter counter) left.now right.now)
        ≡ record { known = atoms.new; form = conclusion_of c }) }
{
    let first = atoms.int_of(count_at(alloc, counter, left)?)?;
    let second = atoms.int_of(count_at(alloc, counter, right)?)?;
    let up = at_most_name(atoms, alloc, first, second)?;
    let down = at_most_name(atoms, alloc, second, first)?;
    both_rows(alloc, up, down)
}

// A thing reads the same at two tuples at the entry.
fn readings_same(
    atoms: &mut Atoms,
    alloc: Global,
    thing: Thing,
    left: &[u32],
    right: &[u32],
) -> Result<Conclusion, AllocError>
    ensures { IfOk result (λ c. make atoms.old (equality.readings_same thing left.now right.now)
        ≡ record { known = atoms.new; form = conclusion_of c }) }
{
    match thing {
        Thing::Relation(relation) => relation_same(atoms, alloc, relation, left, right),
        Thing::Counter(counter) => counter_same(atoms, alloc, counter, left, right),
    }
}

// A premise as a formula.
fn premise_formula(alloc: Global, premise: Premise) -> Result<GroundFormula, AllocError>
    ensures { IfOk result (λ f. form_of f ≡ premise_of premise) }
{
    match premise {
        Premise::Other(formula) => Ok(formula),
        Premise::Equal(places, equal, also) => {
            let one = GroundFormula::Lit(equal, true);
            match places {
                Places::Only => Ok(one),
                Places::First => both(alloc, one, GroundFormula::Truth(true)),
                Places::Second => both(alloc, GroundFormula::Truth(true), one),
                Places::Both => both(alloc, one, GroundFormula::Lit(also, true)),
            }
        }
    }
}

// Two readings of a relation agree, as a formula.
fn both_ways(alloc: Global, left: u32, right: u32) -> Result<GroundFormula, AllocError>
    ensures { IfOk result (λ f. form_of f ≡ readings_agree agreements.Relation left right) }
{
    let to = either(
        alloc,
        GroundFormula::NotAtom(left),
        GroundFormula::Lit(right, true),
    )?;
    let fro = either(
        alloc,
        GroundFormula::Lit(left, true),
        GroundFormula::NotAtom(right),
    )?;
    both(alloc, to, fro)
}

// A conclusion as a formula.
fn conclusion_formula(alloc: Global, conclusion: Conclusion) -> Result<GroundFormula, AllocError>
    ensures { IfOk result (λ f. form_of f ≡ conclusion_of conclusion) }
{
    match conclusion {
        Conclusion::Other(formula) => Ok(formula),
        Conclusion::Agree(Agreement::Relation, left, right) => both_ways(alloc, left, right),
        Conclusion::Agree(Agreement::Counter, left, right) => both(
            alloc,
            GroundFormula::Lit(left, true),
            GroundFormula::Lit(right, true),
        ),
    }
}

// Where a premise is true, so is a conclusion, which takes memory.
fn joined(
    alloc: Global,
    premise: Premise,
    conclusion: Conclusion,
) -> Result<GroundFormula, AllocError>
    ensures { IfOk result
        (λ f. form_of f ≡ disjunction (negation (premise_of premise)) (conclusion_of conclusion)) }
{
    let right = conclusion_formula(alloc, conclusion)?;
    let all = premise_formula(alloc, premise)?;
    let left = negated(alloc, all)?;
    either(alloc, left, right)
}

// Where a premise is true, so is a conclusion. Over numbers they take no memory.
fn concluded(
    alloc: Global,
    premise: Premise,
    conclusion: Conclusion,
) -> Result<GroundFormula, AllocError>
    ensures { IfOk result
        (λ f. form_of f ≡ disjunction (negation (premise_of premise)) (conclusion_of conclusion)) }
{
    match premise {
        Premise::Equal(places, equal, also) => match conclusion {
            Conclusion::Agree(agreement, left, right) => Ok(GroundFormula::Congruent {
                places,
                agreement,
                equal,
                also,
                left,
                right,
            }),
            Conclusion::Other(formula) => joined(
                alloc,
                Premise::Equal(places, equal, also),
                Conclusion::Other(formula),
            ),
        },
        Premise::Other(formula) => joined(alloc, Premise::Other(formula), conclusion),
    }
}

/// Where two tuples are equal, a thing reads the same at them.
pub fn congruent(
    atoms: &mut Atoms,
    alloc: Global,
    thing: Thing,
    left: &[u32],
    right: &[u32],
) -> Result<GroundFormula, AllocError>
    ensures { IfOk result (λ f. IsMade atoms.old
        (equality.congruent thing left.now right.now) atoms.new f) }
{
    let premise = tuples_same(atoms, alloc, left, right)?;
    let conclusion = readings_same(atoms, alloc, thing, left, right)?;
    concluded(alloc, premise, conclusion)
}
