// Why an elimination ends before all places have values.
use items::Items;
use proof_lines::RangeWhat;

/// Why an elimination ends without a model. Rows are counted as in the tableau.
#[derive(Drop)]
pub enum Stop {
    /// The last held row is a contradiction.
    Contradiction,
    /// As many rows as the limit says are held.
    Full,
    /// With `values` for the other names, the rows `low` and `high` leave `place` a gap that lies strictly between `at` and `at + 1`.
    Gap {
        place: u32,
        at: i128,
        low: u32,
        high: u32,
        values: Items<i128>,
    },
    /// A number lies beyond its range.
    Beyond(RangeWhat),
    Memory,
}
