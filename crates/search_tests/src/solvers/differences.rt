// Systems of difference rows, and what the solver of such rows says of them.
use crate::solvers::asked::{Line, all_within, first_of, row_with, rows_of};
use diff_bounds::{DiffBounds, takes};
use lin_rows::{Row, RowTerm};
use std::alloc::{AllocError, Global};
use std::process::Abort;
use theory_api::{Theory, TheoryAnswer};

/// The rows of a system, how many names they have, and what the solver says of them.
pub type Case = (&'static [Line<'static>], u32, Said);

/// What the solver of difference rows said.
#[derive(Clone, Copy, PartialEq)]
pub enum Said {
    /// The first value.
    Model { first: i128 },
    /// How many rows are used, in how many steps.
    Conflict { used: usize, steps: usize },
    /// Want of memory, or rows that the solver doesn't take.
    Nothing,
}

fn in_short(answer: &TheoryAnswer) -> Said {
    match answer {
        TheoryAnswer::Model(values) => Said::Model {
            first: first_of(values.as_slice()),
        },
        TheoryAnswer::Conflict { used, steps } => Said::Conflict {
            used: used.len(),
            steps: steps.len(),
        },
        _ => Said::Nothing,
    }
}

/// What the solver says of rows.
pub fn say(alloc: Global, rows: &[Row], ints: u32) -> Said {
    if !all_within(rows, ints) || !takes(rows, ints) {
        return Said::Nothing;
    }
    let answer = DiffBounds::new().check(alloc, rows, ints);
    let said = in_short(&answer);
    drop(answer);
    said
}

/// What the solver says of the rows of lines.
pub fn say_lines(alloc: Global, lines: &[Line], ints: u32) -> Said {
    match rows_of(alloc, lines) {
        Ok(rows) => {
            let said = say(alloc, rows.as_slice(), ints);
            drop(rows);
            said
        }
        Err(_) => Said::Nothing,
    }
}

/// Checks what the solver says of each system.
pub fn check_all(rt: &impl Abort, alloc: Global, cases: &[Case]) {
    for (lines, ints, want) in cases {
        assert!(rt; say_lines(alloc, lines, *ints) == *want, "at {lines:?}");
    }
}

// The row that says that one name is at most so far above another.
fn between(alloc: Global, above: u32, below: u32, bound: i128) -> Result<Row, AllocError> {
    let terms = [
        RowTerm {
            place: above,
            coef: 1,
        },
        RowTerm {
            place: below,
            coef: -1,
        },
    ];
    row_with(alloc, &terms, bound)
}

// Each name of a thousand is at most the one before it, and the first is below the last.
fn round(alloc: Global) -> Result<Vec<Row>, AllocError> {
    let mut rows = Vec::new(alloc);
    for place in 1..1000u32 {
        rows.push(between(alloc, place, place.saturating_sub(1), 0)?)?;
    }
    rows.push(between(alloc, 0, 999, -1)?)?;
    Ok(rows)
}

/// What the solver says of a thousand rows that go round.
pub fn say_round(alloc: Global) -> Said {
    match round(alloc) {
        Ok(rows) => {
            let said = say(alloc, rows.as_slice(), 1000);
            drop(rows);
            said
        }
        Err(_) => Said::Nothing,
    }
}
