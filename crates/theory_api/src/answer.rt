// What a solver says of the rows that it was given.
use items::Items;
use proof_lines::{RangeWhat, RowStep};

/// An answer of a solver. `used` holds numbers of given rows, counted from 0. In steps and in what stands besides, rows are
/// numbered as in a line of the proof kernel: the used ones first, in their order, then those of the steps.
#[derive(Drop)]
pub enum TheoryAnswer {
    /// Whole numbers, one for each integer name, that satisfy every row.
    Model(Items<i128>),
    /// The steps refute the used rows.
    Conflict {
        used: Items<u32>,
        steps: Items<RowStep>,
    },
    /// With `values` for the other names, the rows `low` and `high` leave no whole number for `place` but a gap that lies strictly
    /// between `at` and `at + 1`; so the search is to decide whether `place <= at`.
    Split {
        place: u32,
        at: i128,
        used: Items<u32>,
        steps: Items<RowStep>,
        low: u32,
        high: u32,
        values: Items<i128>,
    },
    /// The rows became too many.
    Rows {
        used: Items<u32>,
        steps: Items<RowStep>,
    },
    /// A number lies beyond its range.
    Range {
        used: Items<u32>,
        steps: Items<RowStep>,
        what: RangeWhat,
    },
    Memory,
}
