// Whether the lines of a report can hold a verdict.
//
// A line names rows, clauses and members of lists by numbers below 2^32, and has whole numbers in the range of a row. The numbers of a
// log that the kernel accepts are so, and a list in memory may still be longer; such a list can't be numbered.
ghost use Rattle.std.specs.{Prelude.{◌≡◌, nat_le, true, false, IfOk}, List.{list_all}};
ghost use Rattle.report_lines.specs.{Formats.{counted}, Fields.{most_count, integer_format}};
ghost use Rattle.report_lines.specs.Entries.{literal_format, step_format};
ghost use Rattle.report_lines.specs.Logs.{used_words, log_format};
ghost use Rattle.report_lines.specs.Evidence.{rows_format, range_format};
ghost use Rattle.proof_report.specs.Verdicts.{is_log};
ghost use Rattle.check_run.specs.Fitting.{holds_cause, holds_verdict};

use proof_lines::{Line, Lit, RangeEvidence, RangeWhat, RowStep, RowsEvidence};
use proof_report::{Cause, Verdict};
use std::alloc::AllocError;

fn is_count(n: usize) -> bool
    ensures { result ≡ nat_le n most_count }
{
    n <= u32::MAX as usize
}

fn is_whole(n: i128) -> bool
    ensures { result ≡ integer_format.fits n }
{
    n.unsigned_abs() <= i128::MAX as u128
}

// ---- parts of lines

fn holds_literal(lit: &Lit) -> bool
    ensures { result ≡ literal_format.fits lit.now }
{
    is_count(lit.atom as usize)
}

fn holds_each_literal(lits: &[Lit]) -> bool
    ensures { result ≡ list_all literal_format.fits lits.now }
{
    lits.iter().all(|lit| holds_literal(lit))
}

fn holds_literals(lits: &[Lit]) -> bool
    ensures { result ≡ (counted most_count literal_format).fits lits.now }
{
    is_count(lits.len()) && holds_each_literal(lits)
}

fn holds_step(step: &RowStep) -> bool
    ensures { result ≡ step_format.fits step.now }
{
    is_count(step.left as usize)
        && (is_whole(step.first) && (is_count(step.right as usize) && is_whole(step.second)))
}

fn holds_each_step(steps: &[RowStep]) -> bool
    ensures { result ≡ list_all step_format.fits steps.now }
{
    steps.iter().all(|step| holds_step(step))
}

fn holds_steps(steps: &[RowStep]) -> bool
    ensures { result ≡ (counted most_count step_format).fits steps.now }
{
    is_count(steps.len()) && holds_each_step(steps)
}

fn holds_rows(used: &[Lit], steps: &[RowStep]) -> bool
    ensures { result ≡ used_words.fits (used.now, steps.now) }
{
    holds_literals(used) && holds_steps(steps)
}

fn holds_each_value(values: &[i128]) -> bool
    ensures { result ≡ list_all integer_format.fits values.now }
{
    values.iter().all(|value| is_whole(*value))
}

fn holds_values(values: &[i128]) -> bool
    ensures { result ≡ (counted most_count integer_format).fits values.now }
{
    is_count(values.len()) && holds_each_value(values)
}

// ---- lines

fn holds_line(line: &Line) -> bool
    ensures { result ≡ (log_format false).fits line.now }
{
    match line {
        Line::Resolve { left, right, pivot } => {
            is_count(*left as usize) && (is_count(*right as usize) && is_count(*pivot as usize))
        }
        Line::Farkas { used, steps } => holds_rows(used.as_slice(), steps.as_slice()),
        Line::Split {
            place,
            at,
            used,
            steps,
            low,
            high,
            values,
        } => {
            is_count(*place as usize)
                && (is_whole(*at)
                    && (holds_rows(used.as_slice(), steps.as_slice())
                        && (is_count(*low as usize)
                            && (is_count(*high as usize) && holds_values(values.as_slice())))))
        }
        Line::Drop { clauses: _ } => false,
    }
}

fn holds_each_line(lines: &[Line]) -> bool
    ensures { result ≡ list_all (log_format false).fits lines.now }
{
    lines.iter().all(|line| holds_line(line))
}

fn holds_log(lines: &[Line]) -> bool
    ensures { result ≡ is_log false lines.now }
{
    is_count(lines.len()) && holds_each_line(lines)
}

// ---- evidence

fn holds_rows_evidence(evidence: &RowsEvidence) -> bool
    ensures { result
        ≡ rows_format.fits (record { used = evidence.now.used; steps = evidence.now.steps }) }
{
    holds_rows(evidence.used.as_slice(), evidence.steps.as_slice())
}

fn holds_range_evidence(evidence: &RangeEvidence) -> bool
    ensures { result
        ≡ range_format.fits
        (record {
          used = evidence.now.used;
          steps = evidence.now.steps;
          what = evidence.now.what;
        }) }
{
    let rows = holds_rows(evidence.used.as_slice(), evidence.steps.as_slice());
    match &evidence.what {
        RangeWhat::Product { left, right, place } => {
            rows && (is_count(*left as usize)
                && (is_count(*right as usize) && is_count(*place as usize)))
        }
        RangeWhat::Value { row, place, values } => {
            rows && (is_count(*row as usize)
                && (is_count(*place as usize) && holds_values(values.as_slice())))
        }
        RangeWhat::Sum { row, place, values } => {
            rows && (is_count(*row as usize)
                && (is_count(*place as usize) && holds_values(values.as_slice())))
        }
    }
}

// ---- verdicts

fn holds_cause(cause: &Cause) -> bool
    ensures { result ≡ holds_cause cause.now }
{
    match cause {
        Cause::Instances => true,
        Cause::Lines(log) => holds_log(log.as_slice()),
        Cause::Rows(evidence) => {
            holds_log(evidence.log.as_slice()) && holds_rows_evidence(evidence)
        }
        Cause::Range(evidence) => {
            holds_log(evidence.log.as_slice()) && holds_range_evidence(evidence)
        }
    }
}

fn holds_verdict(verdict: &Verdict) -> bool
    ensures { result ≡ holds_verdict verdict.now }
{
    match verdict {
        Verdict::Proved(log) => holds_log(log.as_slice()),
        Verdict::Refuted(_) => true,
        Verdict::Undecided(cause) => holds_cause(cause),
    }
}

/// The verdict itself; or want of memory, where one of its lists is too long to be numbered.
pub fn numbered(verdict: Verdict) -> Result<Verdict, AllocError>
    ensures same { IfOk result (λ v. v ≡ verdict) }
    ensures held { IfOk result (λ v. holds_verdict v ≡ true) }
{
    if holds_verdict(&verdict) {
        Ok(verdict)
    } else {
        drop(verdict);
        Err(AllocError)
    }
}
