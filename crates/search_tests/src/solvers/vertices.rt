// The simplex method, worked by hand over `-2 x <= -1`, `3 x - 2 y <= 0` and `4 y <= 2`.
//
// At 0 the first row is broken, so x becomes 1/2. That breaks the second, so y becomes 3/4, and the vertex satisfies both. It breaks the
// third: `4 y` is -3 times `-2 x` and -2 times `3 x - 2 y`. So three times the first row, twice the second and the third itself add up to
// `0 <= -3 + 0 + 2`.
use crate::solvers::asked::{Line, rows_of};
use lin_rows::Row;
use simplex::{Number, Pivoted, Slack, Tableau, add_row, numerator_at, solve, start, vertex_of};
use std::alloc::Global;

/// How the pivots end.
#[derive(Clone, Copy, PartialEq)]
enum Ended {
    /// With the numerators of both names over a common denominator.
    Vertex {
        numerators: [i128; 2],
        common: i128,
    },
    /// By the equation of this variable, which is the sum of these multiples of the variables of the columns.
    Refuted {
        basic: usize,
        columns: [usize; 2],
        multiples: [i128; 2],
    },
    /// A number had no room, or memory was wanting.
    Nothing,
}

const BROKEN: &[Line<'static>] = &[(&[-2], -1), (&[3, -2], 0), (&[0, 4], 2)];

fn broken() -> &'static [Line<'static>] {
    BROKEN
}

fn add_rows<N: Number>(tableau: &mut Tableau<N>, alloc: Global, rows: &[Row]) -> Option<()> {
    for row in rows {
        let slack = Slack {
            bound: N::of(row.bound())?,
            row: None,
        };
        add_row(tableau, alloc, row.terms(), slack)?;
    }
    Some(())
}

fn vertex<N: Number>(tableau: &Tableau<N>, alloc: Global) -> Option<Ended> {
    let vertex = vertex_of(tableau, alloc)?;
    let numerators = (numerator_at(&vertex, 0), numerator_at(&vertex, 1));
    let common = vertex.common.wide();
    drop(vertex);
    Some(Ended::Vertex {
        numerators: [numerators.0?.wide(), numerators.1?.wide()],
        common,
    })
}

fn refutation<N: Number>(tableau: &Tableau<N>, number: usize) -> Option<Ended> {
    let equation = tableau.equations.get(number)?;
    let [first, second] = tableau.columns.as_slice() else {
        return None;
    };
    let [one, other] = equation.numerators.as_slice() else {
        return None;
    };
    Some(Ended::Refuted {
        basic: equation.basic,
        columns: [*first, *second],
        multiples: [one.wide(), other.wide()],
    })
}

fn solved<N: Number>(tableau: &mut Tableau<N>, alloc: Global, rows: &[Row]) -> Option<Ended> {
    add_rows(tableau, alloc, rows)?;
    match solve(tableau, alloc)? {
        Pivoted::Feasible => vertex(tableau, alloc),
        Pivoted::Infeasible(number) => refutation(tableau, number),
        Pivoted::Spent => None,
    }
}

fn end_over<N: Number>(alloc: Global, rows: &[Row]) -> Option<Ended> {
    let mut tableau = start::<N>(alloc, 2)?;
    let ended = solved(&mut tableau, alloc, rows);
    drop(tableau);
    ended
}

/// How the pivots over two names end, with numbers of one width.
fn end_of<N: Number>(alloc: Global, lines: &[Line]) -> Ended {
    match rows_of(alloc, lines) {
        Ok(rows) => {
            let ended = end_over::<N>(alloc, rows.as_slice());
            drop(rows);
            ended.unwrap_or(Ended::Nothing)
        }
        Err(_) => Ended::Nothing,
    }
}

const AT_THE_VERTEX: Ended = Ended::Vertex {
    numerators: [2, 3],
    common: 4,
};

#[test]
fn a_vertex_satisfies_the_rows(rt: HostRuntime) {
    let rows = broken().get(..2).unwrap_or(&[]);
    assert!(rt; end_of::<i64>(rt.alloc(), rows) == AT_THE_VERTEX);
    assert!(rt; end_of::<i128>(rt.alloc(), rows) == AT_THE_VERTEX);
}

// The slacks of the three rows are the variables 2, 3 and 4.
const BY_MULTIPLES: Ended = Ended::Refuted {
    basic: 4,
    columns: [2, 3],
    multiples: [-3, -2],
};

#[test]
fn an_equation_refutes_the_rows(rt: HostRuntime) {
    assert!(rt; end_of::<i64>(rt.alloc(), broken()) == BY_MULTIPLES);
    assert!(rt; end_of::<i128>(rt.alloc(), broken()) == BY_MULTIPLES);
}
