// The search on clauses over plain atoms, with the solver of no rows.
ghost use Rattle.std.specs.Prelude.{◌≡◌, ◌<◌, ◌≤◌, true};
ghost use Rattle.sat_core.specs.Forcing.{is_plain, are_plain};

use crate::summaries::{Summary, is_found, made, summary_of};
use items::Items;
use proof_lines::{AtomKind, Clause, Lit, Problem};
use sat_core::{Answer, solve_plain};
use std::alloc::Global;
use std::process::Abort;
use theory_api::NoInts;

/// A literal.
pub fn lit(atom: u32, positive: bool) -> Lit {
    Lit { atom, positive }
}

/// A problem over plain atoms.
pub fn plain(rt: &impl Abort, alloc: Global, atoms: u32, clauses: Items<Clause>) -> Problem {
    made(rt, plain_kinds(rt, alloc, atoms), 0, clauses)
}

fn plain_kinds(rt: &impl Abort, alloc: Global, atoms: u32) -> Items<AtomKind> {
    let mut kinds = Items::new(alloc);
    for _ in 0..atoms {
        kinds.push(AtomKind::Plain).expect(rt, "memory");
    }
    kinds
}

/// A clause of some literals.
pub fn clause(rt: &impl Abort, alloc: Global, lits: &[Lit]) -> Clause {
    Clause::of(alloc, lits).expect(rt, "memory")
}

fn is_plain(atom: &AtomKind) -> bool
    ensures { result ≡ is_plain atom.now }
{
    match atom {
        AtomKind::Plain => true,
        AtomKind::Row(_) => false,
    }
}

fn are_plain(problem: &Problem) -> bool
    ensures { result ≡ are_plain problem.now.atoms }
{
    problem.atoms.iter().all(|atom| is_plain(atom))
}

fn int_count(problem: &Problem) -> u32
    ensures { result ≡ problem.now.ints }
{
    problem.ints
}

fn answer_bare(alloc: Global, problem: &Problem, budget: u32) -> Answer
    requires plain { are_plain problem.now.atoms ≡ true }
    requires no_ints { problem.now.ints ≡ 0 }
{
    solve_plain(alloc, problem, &mut NoInts, budget)
}

// The answer to a problem without rows.
fn answer(alloc: Global, problem: &Problem, budget: u32) -> Answer {
    if are_plain(problem) && int_count(problem) == 0 {
        answer_bare(alloc, problem, budget)
    } else {
        Answer::Memory
    }
}

// What the search answers to a problem without rows, in short.
fn asked(alloc: Global, problem: Problem, budget: u32) -> Summary {
    let found = answer(alloc, &problem, budget);
    let summary = summary_of(alloc, &problem, &found, budget);
    drop(found);
    drop(problem);
    summary
}

// One atom, with clauses of one literal each.
fn units(rt: &impl Abort, alloc: Global, signs: &[bool]) -> Problem {
    let mut clauses = Items::new(alloc);
    for sign in signs {
        clauses
            .push(clause(rt, alloc, &[lit(0, *sign)]))
            .expect(rt, "memory");
    }
    plain(rt, alloc, 1, clauses)
}

#[test]
fn one_atom_is_not_both(rt: HostRuntime) {
    let both = units(&rt, rt.alloc(), &[true, false]);
    assert!(rt; asked(rt.alloc(), both, 10) == Summary::Unsat(1));
}

// Whether the search finds an interpretation with just these truths.
fn is_answered(alloc: Global, problem: Problem, truths: &[bool]) -> bool {
    let found = answer(alloc, &problem, 10);
    drop(problem);
    let is = is_found(&found, truths, &[]);
    drop(found);
    is
}

#[test]
fn one_atom_is_true(rt: HostRuntime) {
    let one = units(&rt, rt.alloc(), &[true]);
    assert!(rt; is_answered(rt.alloc(), one, &[true]));
}

// A pigeon is in one of the holes. The atom `5 * hole + pigeon` says that the pigeon is in the hole.
fn housed(rt: &impl Abort, alloc: Global, pigeon: u32, holes: u32) -> Clause
    requires pigeon { pigeon < 5 }
    requires holes { holes ≤ 5 }
{
    let mut clause = Clause::empty(alloc);
    for hole in 0..holes {
        clause
            .insert(lit(5 * hole + pigeon, true))
            .expect(rt, "memory");
    }
    clause
}

// A hole doesn't hold a pigeon and an earlier one.
fn apart(rt: &impl Abort, alloc: Global, clauses: &mut Items<Clause>, hole: u32, pigeon: u32)
    requires hole { hole < 5 }
    requires pigeon { pigeon < 5 }
{
    for earlier in 0..pigeon {
        let lits = [
            lit(5 * hole + earlier, false),
            lit(5 * hole + pigeon, false),
        ];
        clauses.push(clause(rt, alloc, &lits)).expect(rt, "memory");
    }
}

fn all_apart(rt: &impl Abort, alloc: Global, clauses: &mut Items<Clause>, hole: u32)
    requires { hole < 5 }
{
    for pigeon in 0..5 {
        apart(rt, alloc, clauses, hole, pigeon);
    }
}

// Five pigeons are in some holes, no two in one.
fn pigeons(rt: &impl Abort, alloc: Global, holes: u32) -> Problem
    requires { holes ≤ 5 }
{
    let mut clauses = Items::new(alloc);
    for pigeon in 0..5 {
        clauses
            .push(housed(rt, alloc, pigeon, holes))
            .expect(rt, "memory");
    }
    for hole in 0..holes {
        all_apart(rt, alloc, &mut clauses, hole);
    }
    plain(rt, alloc, 5 * holes, clauses)
}

#[test]
fn five_pigeons_are_not_in_four_holes(rt: HostRuntime) {
    let found = asked(rt.alloc(), pigeons(&rt, rt.alloc(), 4), 10000);
    let stopped = asked(rt.alloc(), pigeons(&rt, rt.alloc(), 4), 3);
    assert!(rt; matches!(found, Summary::Unsat(_)) && stopped == Summary::Lines(3));
}

#[test]
fn five_pigeons_are_in_five_holes(rt: HostRuntime) {
    let roomy = pigeons(&rt, rt.alloc(), 5);
    assert!(rt; asked(rt.alloc(), roomy, 10000) == Summary::Sat(25));
}

// The first atom, and each atom implies the next.
fn chain(rt: &impl Abort, alloc: Global, atoms: u32) -> Problem
    requires { 0 < atoms }
{
    let mut clauses = Items::new(alloc);
    clauses
        .push(clause(rt, alloc, &[lit(0, true)]))
        .expect(rt, "memory");
    for atom in 0..atoms - 1 {
        let lits = [lit(atom, false), lit(atom + 1, true)];
        clauses.push(clause(rt, alloc, &lits)).expect(rt, "memory");
    }
    plain(rt, alloc, atoms, clauses)
}

#[test]
fn a_long_chain(rt: HostRuntime) {
    let implied = chain(&rt, rt.alloc(), 2000);
    assert!(rt; asked(rt.alloc(), implied, 1) == Summary::Sat(2000));
}
