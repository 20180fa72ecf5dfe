// A problem that takes more lines than the budget of a check in each order of decisions, but fewer by lookahead.
ghost use Rattle.std.specs.Prelude.{◌≡◌};

use crate::clauses::{lit, plain};
use crate::summaries::Said;
use crate::watched::asked::said_by_watching;
use items::Items;
use proof_lines::{Clause, Lit};
use std::alloc::{AllocError, Global};
use std::process::Abort;

const ATOMS: u32 = 120;

const CLAUSES: usize = 511;

const LITERALS: u64 = 240;

// So many literals are drawn for a clause of three atoms.
const DRAWS: usize = 12;

// Literals by the high bits of a linear congruential generator (Knuth's MMIX).
#[derive(Drop)]
struct Generator {
    state: u64,
}

impl Generator {
    fn literal(&mut self) -> Lit {
        self.state = self
            .state
            .wrapping_mul(6364136223846793005)
            .wrapping_add(1442695040888963407);
        let code = ((self.state >> 33) % LITERALS) as u32;
        Lit {
            atom: code / 2,
            positive: code % 2 == 1,
        }
    }
}

fn has_atom(clause: &Clause, atom: u32) -> bool {
    clause.holds(lit(atom, true)) || clause.holds(lit(atom, false))
}

// A clause of three atoms.
fn drawn(alloc: Global, generator: &mut Generator) -> Result<Clause, AllocError> {
    let mut clause = Clause::empty(alloc);
    for _ in 0..DRAWS {
        let lit = generator.literal();
        if clause.lits().len() < 3 && !has_atom(&clause, lit.atom) {
            clause.insert(lit)?;
        }
    }
    Ok(clause)
}

fn clauses(alloc: Global, seed: u64) -> Result<Items<Clause>, AllocError> {
    let mut generator = Generator { state: seed };
    let mut clauses = Items::new(alloc);
    for _ in 0..CLAUSES {
        clauses.push(drawn(alloc, &mut generator)?)?;
    }
    Ok(clauses)
}

fn said_of_seed(rt: &impl Abort, alloc: Global, seed: u64, budget: u32) -> Said {
    let Ok(clauses) = clauses(alloc, seed) else {
        return Said::Nothing;
    };
    let problem = plain(rt, alloc, ATOMS, clauses);
    let said = said_by_watching(alloc, &problem, budget);
    drop(problem);
    said
}

#[test]
fn random_clauses_over_120_atoms_are_refuted_with_the_budget_of_a_check(rt: HostRuntime) {
    assert!(rt; said_of_seed(&rt, rt.alloc(), 23, 10_000) == Said::Unsat);
}
