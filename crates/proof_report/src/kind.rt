// What a report may be refused for.

/// What is wrong with a line of a report. The first three are faults of the text; the others are found by those who check logs,
/// witnesses and evidence.
#[derive(Clone, Copy, PartialEq, Eq, Debug)]
pub enum ReportKind {
    /// The line isn't of the form that is expected there, or is missing.
    Form,
    /// It isn't the first line of the block that is due, or the number of obligations is another.
    Obligation,
    /// The summary or the last word doesn't fit the blocks.
    Summary,
    Place,
    Pivot,
    Multiplier,
    Contradiction,
    Range,
    SplitAgain,
    SplitCause,
    NoEmpty,
    Witness,
    Evidence,
    Dropped,
}

/// The first line that is wrong, and what is wrong with it.
#[derive(Clone, Copy)]
pub struct Fault {
    pub number: u32,
    pub kind: ReportKind,
}

/// Why a report isn't taken.
#[derive(Clone, Copy, Debug)]
pub enum ReportRefused {
    /// The number of the first line that is wrong, counted from 1, and what is wrong with it. A missing line has the number after
    /// the last.
    Line { number: u32, kind: ReportKind },
    Memory,
}
