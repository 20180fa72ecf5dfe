// The answers to whole logs.
use proof_lines::Why;

/// Why a log doesn't show what it should.
#[derive(Clone, Copy, PartialEq, Eq, Debug)]
pub enum KernelRefused {
    /// The first line, counted from 0, that breaks a rule; or the number of lines, where evidence is missing.
    BadLine { line: u32, why: Why },
    /// All lines are good, and no clause is empty.
    NoEmptyClause,
    Memory,
}

/// A log that was accepted.
#[derive(Clone, Copy, PartialEq, Eq, Debug)]
pub struct Checked {
    pub lines: u32,
}
