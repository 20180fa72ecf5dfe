// What a line of a report says.

use proof_lines::Line;
use report_lines::evidence::{RangeLine, RowsLine};
use report_lines::head::{Outcome, Tally};
use report_lines::verdict::VerdictWord;
use report_lines::witness::Shown;

/// What a line of a report says. Sorts and constants stand as places in the specification, obligations as places in its list.
#[derive(Drop)]
pub enum Event {
    /// The version in the first line.
    Title(u8),
    /// The most lines of a log.
    Budget(u32),
    /// How many obligations there are.
    Count(u32),
    /// The first line of a block.
    Opened(u64),
    /// The line of a verdict word.
    Begin(VerdictWord),
    /// A line of a log.
    Log(Line),
    /// A sort and its size.
    Size(usize, u32),
    /// A constant and its element.
    Const(usize, u32),
    /// A line of a witness behind those of its world.
    Shown(Shown),
    Rows(RowsLine),
    Range(RangeLine),
    Summary(Tally),
    Last(Outcome),
}
