// The lines of a log, and the rules that a line may break.
ghost use Rattle.std.specs.Prelude.{◌≡◌, IfOk};

use crate::clause::Lit;
use items::{Items, or_drop};
use std::alloc::{AllocError, Global};

/// A new row from two earlier ones: `first` times row `left` plus `second` times row `right`, tightened.
#[derive(Clone, Copy, PartialEq, Eq, Debug)]
pub struct RowStep {
    pub left: u32,
    pub first: i128,
    pub right: u32,
    pub second: i128,
}

/// A line of a log. Clauses and atoms are named by their numbers, which are given once: those of the problem come first.
#[derive(Drop)]
pub enum Line {
    /// Gives the resolvent of two clauses over the atom `pivot`.
    Resolve {
        left: u32,
        right: u32,
        pivot: u32,
    },
    /// Gives the clause of the opposites of the used literals, whose rows the steps refute.
    Farkas {
        used: Items<Lit>,
        steps: Items<RowStep>,
    },
    /// Gives a new atom with the row `place <= at`. The used literals and the steps give rows, of which, with `values` for the
    /// other names, the one numbered `low` and the one numbered `high` leave no whole number for `place` but a gap that lies
    /// strictly between `at` and `at + 1`.
    Split {
        place: u32,
        at: i128,
        used: Items<Lit>,
        steps: Items<RowStep>,
        low: u32,
        high: u32,
        values: Items<i128>,
    },
    /// Drops clauses that no later line names. They keep their numbers.
    Drop {
        clauses: Items<u32>,
    },
}

/// The rule that a line breaks, or the evidence that is missing.
#[derive(Clone, Copy, PartialEq, Eq, Debug)]
pub enum Why {
    /// A number names nothing.
    Place,
    /// The atom doesn't stand in the two clauses as it should.
    Pivot,
    /// A multiplier is negative.
    Multiplier,
    /// The last row isn't a contradiction.
    Contradiction,
    /// A negation, a product or a sum leaves the range of a row.
    Range,
    /// An atom has the row of the Split already.
    SplitAgain,
    /// The two rows of a Split don't separate its place from the whole numbers around the gap.
    SplitCause,
    /// All lines are good, and the evidence of an undecided verdict isn't there.
    Evidence,
    /// A clause was dropped, or is dropped twice.
    Dropped,
}

/// Why a line isn't taken.
#[derive(Clone, Copy, PartialEq, Eq, Debug)]
pub enum LineRefused {
    /// The first rule that the line breaks.
    Bad(Why),
    Memory,
}

/// Evidence that the rows of a search became too many.
#[derive(Drop)]
pub struct RowsEvidence {
    pub log: Items<Line>,
    pub used: Items<Lit>,
    pub steps: Items<RowStep>,
}

/// Evidence that a search met a number beyond its range.
#[derive(Drop)]
pub struct RangeEvidence {
    pub log: Items<Line>,
    pub used: Items<Lit>,
    pub steps: Items<RowStep>,
    pub what: RangeWhat,
}

/// Where the number beyond the range stands. Rows are numbered as in a line: the used ones, then those of the steps.
#[derive(Drop)]
pub enum RangeWhat {
    /// The least sum of two rows that cancels `place` leaves the range of a row.
    Product {
        left: u32,
        right: u32,
        place: u32,
    },
    /// With `values` for its other names, the row allows `place` no number in the range of a state.
    Value {
        row: u32,
        place: u32,
        values: Items<i128>,
    },
    /// A product or partial sum in putting `values` into the row leaves the range of a row.
    Sum {
        row: u32,
        place: u32,
        values: Items<i128>,
    },
}

// Copies of the used literals and of the steps of a line.
fn copy_rows(
    alloc: Global,
    used: &[Lit],
    steps: &[RowStep],
) -> Result<(Items<Lit>, Items<RowStep>), AllocError>
    ensures { IfOk result (λ x. (x.0 ≡ used.now) × (x.1 ≡ steps.now)) }
{
    let used = Items::from_slice(alloc, used)?;
    let steps = or_drop!(Items::from_slice(alloc, steps); used);
    Ok((used, steps))
}

impl Line {
    /// A copy of this line.
    pub fn copy(&self, alloc: Global) -> Result<Line, AllocError>
        ensures { IfOk result (λ line. line ≡ self.now) }
    {
        match self {
            Line::Resolve { left, right, pivot } => Ok(Line::Resolve {
                left: *left,
                right: *right,
                pivot: *pivot,
            }),
            Line::Farkas { used, steps } => {
                let (used, steps) = copy_rows(alloc, used.as_slice(), steps.as_slice())?;
                Ok(Line::Farkas { used, steps })
            }
            Line::Split {
                place,
                at,
                used,
                steps,
                low,
                high,
                values,
            } => {
                let values = Items::from_slice(alloc, values.as_slice())?;
                let (used, steps) =
                    or_drop!(copy_rows(alloc, used.as_slice(), steps.as_slice()); values);
                Ok(Line::Split {
                    place: *place,
                    at: *at,
                    used,
                    steps,
                    low: *low,
                    high: *high,
                    values,
                })
            }
            Line::Drop { clauses } => {
                let clauses = Items::from_slice(alloc, clauses.as_slice())?;
                Ok(Line::Drop { clauses })
            }
        }
    }
}

/// A copy of some lines.
pub fn copy_lines(alloc: Global, lines: &[Line]) -> Result<Items<Line>, AllocError>
    ensures { IfOk result (λ out. out ≡ lines.now) }
{
    let mut out = Items::new(alloc);
    for line in lines {
        out.push(line.copy(alloc)?)?;
    }
    Ok(out)
}

impl RangeWhat {
    /// A copy of this place.
    pub fn copy(&self, alloc: Global) -> Result<RangeWhat, AllocError>
        ensures { IfOk result (λ what. what ≡ self.now) }
    {
        match self {
            RangeWhat::Product { left, right, place } => Ok(RangeWhat::Product {
                left: *left,
                right: *right,
                place: *place,
            }),
            RangeWhat::Value { row, place, values } => {
                let values = Items::from_slice(alloc, values.as_slice())?;
                Ok(RangeWhat::Value {
                    row: *row,
                    place: *place,
                    values,
                })
            }
            RangeWhat::Sum { row, place, values } => {
                let values = Items::from_slice(alloc, values.as_slice())?;
                Ok(RangeWhat::Sum {
                    row: *row,
                    place: *place,
                    values,
                })
            }
        }
    }
}

impl RowsEvidence {
    /// A copy of this evidence.
    pub fn copy(&self, alloc: Global) -> Result<RowsEvidence, AllocError>
        ensures { IfOk result (λ evidence. evidence ≡ self.now) }
    {
        let (used, steps) = copy_rows(alloc, self.used.as_slice(), self.steps.as_slice())?;
        let log = or_drop!(copy_lines(alloc, self.log.as_slice()); used, steps);
        Ok(RowsEvidence { log, used, steps })
    }
}

impl RangeEvidence {
    /// A copy of this evidence.
    pub fn copy(&self, alloc: Global) -> Result<RangeEvidence, AllocError>
        ensures { IfOk result (λ evidence. evidence ≡ self.now) }
    {
        let what = self.what.copy(alloc)?;
        let (used, steps) =
            or_drop!(copy_rows(alloc, self.used.as_slice(), self.steps.as_slice()); what);
        let log = or_drop!(copy_lines(alloc, self.log.as_slice()); what, used, steps);
        Ok(RangeEvidence {
            log,
            used,
            steps,
            what,
        })
    }
}
