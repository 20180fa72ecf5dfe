// Whole logs: the first line that breaks a rule, or what the log shows.
ghost use Rattle.std.specs.Prelude.{◌≡◌, ◌<◌, ◌^◌, true, ◌&&◌, MatchResult, OnOk, IfOk, IsOk, length, Ok};
ghost use Rattle.proof_lines.specs.Problems.{Meaning, makes_true, HasNoInterpretation};
ghost use Rattle.proof_kernel.specs.Rules.{run, run_from, holds};
ghost use Rattle.proof_kernel.specs.Answers.{IsRunTold, IsJudged, Answers, lines_judged, rows_judged, range_judged};

use crate::answer::{Checked, KernelRefused};
use crate::kernel::Kernel;
use proof_lines::line::{Line, LineRefused, RangeEvidence, RowsEvidence, Why};
use proof_lines::problem::Problem;
use std::alloc::Global;

// Takes the lines one by one.
fn take_all(kernel: &mut Kernel, lines: &[Line]) -> Result<(), KernelRefused>
    requires { length lines.now < 2 ^ 32 }
    ensures exact { MatchResult result (λ _. run_from 0 kernel.old lines.now ≡ Ok kernel.new)
        (λ e. IsRunTold e (run_from 0 kernel.old lines.now)) }
    ensures sound { OnOk result ((m : Meaning) → holds m kernel.old ≡ true
        → holds m kernel.new ≡ true) }
{
    for (i, line) in lines.iter().enumerate() {
        match kernel.add(line) {
            Ok(()) => {}
            Err(LineRefused::Bad(why)) => {
                return Err(KernelRefused::BadLine {
                    line: i as u32,
                    why,
                });
            }
            Err(LineRefused::Memory) => return Err(KernelRefused::Memory),
        }
    }
    Ok(())
}

// The kernel after all lines of a log. A log of 2^32 lines or more is answered as want of memory.
fn after(alloc: Global, problem: &Problem, lines: &[Line]) -> Result<Kernel, KernelRefused>
    ensures exact { MatchResult result (λ kernel. run problem.now lines.now ≡ Ok kernel)
        (λ e. IsRunTold e (run problem.now lines.now)) }
    ensures sound { IfOk result (λ kernel. (m : Meaning) → makes_true m problem.now ≡ true
        → holds m kernel ≡ true) }
    ensures few { IsOk result → length lines.now < 2 ^ 32 }
{
    if lines.len() > u32::MAX as usize {
        return Err(KernelRefused::Memory);
    }
    let Ok(own) = problem.copy(alloc) else {
        return Err(KernelRefused::Memory);
    };
    let Ok(mut kernel) = Kernel::new(alloc, own) else {
        return Err(KernelRefused::Memory);
    };
    match take_all(&mut kernel, lines) {
        Ok(()) => Ok(kernel),
        Err(refused) => Err(refused),
    }
}

/// Checks a whole log: Ok where all lines keep their rules and an empty clause was among the clauses, so that no interpretation
/// makes all clauses of the problem true.
pub fn check_log(alloc: Global, problem: &Problem, lines: &[Line]) -> Result<Checked, KernelRefused>
    ensures exact { IsJudged lines.now (run problem.now lines.now) result }
    ensures sound { IsOk result → HasNoInterpretation problem.now }
{
    let kernel = match after(alloc, problem, lines) {
        Ok(kernel) => kernel,
        Err(refused) => return Err(refused),
    };
    if kernel.has_empty() {
        Ok(Checked {
            lines: lines.len() as u32,
        })
    } else {
        Err(KernelRefused::NoEmptyClause)
    }
}

/// Checks the evidence of a spent budget: all lines keep their rules, and the log is fresh and has exactly `budget` lines.
pub fn check_lines(
    alloc: Global,
    problem: &Problem,
    lines: &[Line],
    budget: u32,
) -> Result<(), KernelRefused>
    ensures { Answers (lines_judged problem.now lines.now budget) result }
{
    let kernel = match after(alloc, problem, lines) {
        Ok(kernel) => kernel,
        Err(refused) => return Err(refused),
    };
    if lines.len() == budget as usize && kernel.all_fresh() {
        Ok(())
    } else {
        Err(KernelRefused::BadLine {
            line: lines.len() as u32,
            why: Why::Evidence,
        })
    }
}

/// Checks the evidence of too many rows: all lines keep their rules, the log is fresh, and `Kernel::rows_hold` after it.
pub fn check_rows(
    alloc: Global,
    problem: &Problem,
    evidence: &RowsEvidence,
) -> Result<(), KernelRefused>
    ensures { Answers (rows_judged problem.now evidence.now) result }
{
    let lines = evidence.log.as_slice();
    let kernel = match after(alloc, problem, lines) {
        Ok(kernel) => kernel,
        Err(refused) => return Err(refused),
    };
    let Ok(holds) = kernel.rows_hold(evidence.used.as_slice(), evidence.steps.as_slice()) else {
        return Err(KernelRefused::Memory);
    };
    if kernel.all_fresh() && holds {
        Ok(())
    } else {
        Err(KernelRefused::BadLine {
            line: lines.len() as u32,
            why: Why::Evidence,
        })
    }
}

/// Checks the evidence of a number beyond the range: all lines keep their rules, the log is fresh, and `Kernel::range_holds`
/// after it.
pub fn check_range(
    alloc: Global,
    problem: &Problem,
    evidence: &RangeEvidence,
) -> Result<(), KernelRefused>
    ensures { Answers (range_judged problem.now evidence.now) result }
{
    let lines = evidence.log.as_slice();
    let kernel = match after(alloc, problem, lines) {
        Ok(kernel) => kernel,
        Err(refused) => return Err(refused),
    };
    let used = evidence.used.as_slice();
    let Ok(holds) = kernel.range_holds(used, evidence.steps.as_slice(), &evidence.what) else {
        return Err(KernelRefused::Memory);
    };
    if kernel.all_fresh() && holds {
        Ok(())
    } else {
        Err(KernelRefused::BadLine {
            line: lines.len() as u32,
            why: Why::Evidence,
        })
    }
}
