// Where a reader of a report stands.

use items::Items;
use report_lines::head::Tally;
use report_lines::witness::{Fact, Reading};
use spec_core::{Call, World};

/// What the lines of a witness have shown so far, in their order.
#[derive(Drop)]
pub struct PartialWitness {
    pub world: World,
    pub facts: Items<Fact>,
    pub readings: Items<Reading>,
    pub calls: Items<Call>,
}

/// What a log belongs to.
#[derive(Clone, Copy)]
pub enum LogOf {
    Proved,
    Lines,
    Rows,
    Range,
}

/// What a witness may show next: facts, and what stands behind them; readings, and what stands behind them; or the next call, and
/// the elements behind all calls.
#[derive(Clone, Copy)]
pub enum Stage {
    Facts,
    Readings,
    Calls,
}

/// Which line may come next.
#[derive(Drop)]
pub enum Place {
    Title,
    Budget,
    Count,
    /// The first line of a block, or the summary where all blocks are there.
    Due,
    /// The line of a verdict word.
    Opened,
    /// So many lines of a log.
    Log(LogOf, u32),
    /// The evidence of too many rows.
    Rows,
    /// The evidence of a number beyond its range.
    Range,
    /// The size of the next sort.
    Sizes(World),
    /// The element of the next constant.
    Consts(World),
    /// What a witness shows in its world.
    Showing(Stage, PartialWitness),
    /// The last word.
    Last,
    /// Nothing.
    Over,
}

/// Where a reader stands: in which version of the format, at which place, and behind how many verdicts of each kind.
#[derive(Drop)]
pub struct State {
    pub version: u8,
    pub place: Place,
    pub tally: Tally,
}
