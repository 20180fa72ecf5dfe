// Verdicts on obligations, reports, and what single lines of a report tell.

use items::Items;
use obligation_list::Witness;
use proof_lines::{Line, Lit, RangeEvidence, RangeWhat, RowStep, RowsEvidence};
use report_lines::verdict::VerdictWord;

/// What is said of an obligation, with what it rests on.
#[derive(Drop)]
pub enum Verdict {
    /// The obligation holds: a log of the kernel's lines gives the empty clause.
    Proved(Items<Line>),
    /// The witness breaks the obligation.
    Refuted(Witness),
    /// The search gave up.
    Undecided(Cause),
}

/// Why a search gave up.
#[derive(Drop)]
pub enum Cause {
    /// There are too many ground formulas.
    Instances,
    /// The log has as many lines as the budget allows.
    Lines(Items<Line>),
    /// There are too many rows.
    Rows(RowsEvidence),
    /// A number is beyond its range.
    Range(RangeEvidence),
}

/// A report that was read whole: its version, the budget of log lines, and a block for each obligation in order.
#[derive(Drop)]
pub struct Report {
    pub version: u8,
    pub budget: u32,
    pub blocks: Items<Block>,
}

/// A verdict, and the number of the line that begins it. Lines are counted from 1.
#[derive(Drop)]
pub struct Block {
    pub line: u32,
    pub verdict: Verdict,
}

/// What ends a block. A log isn't kept here: its lines were told one by one.
#[derive(Drop)]
pub enum Ended {
    Proved,
    Refuted(Witness),
    Instances,
    Lines,
    Rows(Items<Lit>, Items<RowStep>),
    Range(Items<Lit>, Items<RowStep>, RangeWhat),
}

/// What a line tells: that it begins a verdict, that it is a line of a log, or that it is the last one of a block.
#[derive(Drop)]
pub struct Fed {
    pub begin: Option<VerdictWord>,
    pub log: Option<Line>,
    pub ended: Option<Ended>,
}
