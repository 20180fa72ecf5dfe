// What a search answers.
use items::Items;
use proof_lines::{Interpretation, Line, RangeEvidence, RowsEvidence};

/// The answer of a search for an interpretation that makes all clauses of a problem true.
#[derive(Drop)]
pub enum Answer {
    /// There is none: the log has an empty clause.
    Unsat(Items<Line>),
    /// There is this one.
    Sat(Interpretation),
    /// The budget of lines was spent, and the search would go on.
    Lines(Items<Line>),
    /// The solver of rows stopped, since there were too many rows.
    Rows(RowsEvidence),
    /// The solver of rows stopped at a number beyond its range.
    Range(RangeEvidence),
    Memory,
}
