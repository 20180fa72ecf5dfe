// Problems, rows and lines of the tests. What lacks memory, and a row or problem that is none, ends the test.
ghost use Rattle.std.specs.Prelude.{◌≡◌};
ghost use Rattle.lin_rows.specs.Numbers.{in_range};

use items::Items;
use lin_rows::{Row, RowTerm, row_of};
use proof_kernel::Kernel;
use proof_lines::{AtomKind, Clause, Line, LineRefused, Lit, Problem, RowStep};
use std::alloc::Global;
use std::process::Abort;

/// Two atoms, and their negations.
pub const FIRST: Lit = Lit {
    atom: 0,
    positive: true,
};

pub const SECOND: Lit = Lit {
    atom: 1,
    positive: true,
};

pub const NOT_FIRST: Lit = Lit {
    atom: 0,
    positive: false,
};

pub const NOT_SECOND: Lit = Lit {
    atom: 1,
    positive: false,
};

/// A line of a log in short.
#[derive(Clone, Copy)]
pub enum Short {
    Resolve(u32, u32, u32),
    Drop(&'static [u32]),
}

/// A list of these items.
pub fn items<T: Copy>(rt: &impl Abort, alloc: Global, list: &[T]) -> Items<T> {
    Items::from_slice(alloc, list).expect(rt, "memory")
}

pub fn farkas(rt: &impl Abort, alloc: Global, used: &[Lit], steps: &[RowStep]) -> Line {
    Line::Farkas {
        used: items(rt, alloc, used),
        steps: items(rt, alloc, steps),
    }
}

/// A line in full.
pub fn line(rt: &impl Abort, alloc: Global, short: Short) -> Line {
    match short {
        Short::Resolve(left, right, pivot) => Line::Resolve { left, right, pivot },
        Short::Drop(numbers) => Line::Drop {
            clauses: items(rt, alloc, numbers),
        },
    }
}

/// A log in full.
pub fn log_of(rt: &impl Abort, alloc: Global, lines: &[Short]) -> Items<Line> {
    let mut log = Items::new(alloc);
    for short in lines {
        log.push(line(rt, alloc, *short)).expect(rt, "memory");
    }
    log
}

fn fits(number: i128) -> bool
    ensures { result ≡ in_range number }
{
    number != i128::MIN
}

/// The row `first * x0 + second * x1 <= bound`.
pub fn linear(rt: &impl Abort, alloc: Global, first: i128, second: i128, bound: i128) -> Row {
    assert!(rt; fits(first) && fits(second) && fits(bound));
    let terms = [
        RowTerm {
            place: 0,
            coef: first,
        },
        RowTerm {
            place: 1,
            coef: second,
        },
    ];
    match row_of(alloc, &terms, bound) {
        Ok(row) => row,
        Err(_) => panic!(rt; "no row"),
    }
}

/// An atom for that row.
pub fn row(rt: &impl Abort, alloc: Global, first: i128, second: i128, bound: i128) -> AtomKind {
    AtomKind::Row(linear(rt, alloc, first, second, bound))
}

fn made(rt: &impl Abort, atoms: Items<AtomKind>, ints: u32, clauses: Items<Clause>) -> Problem {
    match Problem::new(atoms, ints, clauses) {
        Some(problem) => problem,
        None => panic!(rt; "no problem"),
    }
}

fn clause(rt: &impl Abort, alloc: Global, lits: &[Lit]) -> Clause {
    Clause::of(alloc, lits).expect(rt, "memory")
}

/// Plain atoms and these clauses.
pub fn plain(rt: &impl Abort, alloc: Global, atoms: u32, clauses: &[&[Lit]]) -> Problem {
    let mut kinds = Items::new(alloc);
    for _ in 0..atoms {
        kinds.push(AtomKind::Plain).expect(rt, "memory");
    }
    let mut list = Items::new(alloc);
    for lits in clauses {
        list.push(clause(rt, alloc, lits)).expect(rt, "memory");
    }
    made(rt, kinds, 0, list)
}

/// Atom 0 and atom 1 for two rows over x0 and x1, atom 2 plain, and no clauses.
pub fn rows(rt: &impl Abort, alloc: Global, first: AtomKind, second: AtomKind) -> Problem {
    let mut kinds = Items::new(alloc);
    kinds.push(first).expect(rt, "memory");
    kinds.push(second).expect(rt, "memory");
    kinds.push(AtomKind::Plain).expect(rt, "memory");
    made(rt, kinds, 2, Items::new(alloc))
}

/// Atoms for the rows `x0 <= 0`, `x0 <= 1` and so on.
pub fn many_rows(rt: &impl Abort, alloc: Global, count: u32) -> Problem {
    let mut kinds = Items::new(alloc);
    for bound in 0..count {
        let kind = row(rt, alloc, 1, 0, bound as i128);
        kinds.push(kind).expect(rt, "memory");
    }
    made(rt, kinds, 2, Items::new(alloc))
}

/// The answer of a kernel to a line.
pub fn add(kernel: &mut Kernel, line: Line) -> Result<(), LineRefused> {
    let told = kernel.add(&line);
    drop(line);
    told
}

/// The answer of a new kernel to a line.
pub fn answer(
    rt: &impl Abort,
    alloc: Global,
    problem: &Problem,
    line: Line,
) -> Result<(), LineRefused> {
    let own = problem.copy(alloc).expect(rt, "memory");
    let mut kernel = Kernel::new(alloc, own).expect(rt, "memory");
    let told = add(&mut kernel, line);
    drop(kernel);
    told
}
