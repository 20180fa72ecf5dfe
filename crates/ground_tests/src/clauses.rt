// The clauses of a problem, where each "and" inside an "or" has a name.

use crate::examples::flag;
use crate::setting::{commute, problem_at, read, spec_of};
use proof_lines::{Clause, Lit};
use std::alloc::{AllocError, Global};

fn lit(atom: u32, positive: bool) -> Option<Lit> {
    Some(Lit { atom, positive })
}

// A clause of one or two literals.
type Row = (Option<Lit>, Option<Lit>);

fn row_of(clause: &Clause) -> Row {
    let lits = clause.lits();
    (lits.first().copied(), lits.get(1).copied())
}

fn rows_of(alloc: Global, clauses: &[Clause]) -> Result<Vec<Row>, AllocError> {
    let mut rows = Vec::new(alloc);
    for clause in clauses {
        rows.push(row_of(clause))?;
    }
    Ok(rows)
}

// Two calls of one operation raise a flag. It is up at the entry (atom 0), and after the calls in the one order (1) and in the other
// (2) it differs; after the first call alone it is atom 3, after the second alone 4.
#[test]
fn the_flag_has_ten_clauses(rt: HostRuntime) {
    let alloc = rt.alloc();
    let reading = read(&rt, alloc, flag());
    let problem = problem_at(&rt, alloc, spec_of(&rt, &reading), 2, commute(0, 0));
    reading.let_go();
    let rows = rows_of(alloc, problem.clauses.as_slice()).expect(&rt, "memory");
    drop(problem);
    let expected = [
        (lit(0, true), None),
        (lit(5, true), lit(6, true)),
        (lit(5, false), lit(1, true)),
        (lit(5, false), lit(2, false)),
        (lit(6, false), lit(1, false)),
        (lit(6, false), lit(2, true)),
        (lit(1, true), None),
        (lit(2, true), None),
        (lit(3, true), None),
        (lit(4, true), None),
    ];
    let same = rows.as_slice() == expected.as_slice();
    drop(rows);
    assert!(rt; same);
}
