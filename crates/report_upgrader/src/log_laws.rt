// What the upgraded log keeps of a log.

ghost use Rattle.std.specs.Prelude.{◌≡◌, List, Result, IsOk};
ghost use Rattle.proof_lines.specs.{declared.line.Line.{Line}, Problems.{PlainProblem}};
ghost use Rattle.proof_kernel.specs.{Rules.{run}, Answers.{IsJudged}};
ghost use Rattle.proof_kernel.specs.declared.answer.Checked.{Checked};
ghost use Rattle.proof_kernel.specs.declared.answer.KernelRefused.{KernelRefused};
ghost use Rattle.report_upgrader.specs.UpgradedLogs.{upgraded};
ghost use Rattle.report_upgrader.specs.Agreement.{IsAccepted, StandsUpgraded, Accepts};

/// Where a log breaks no rule, the upgraded one breaks none, and what stands after both agrees but for dropped clauses.
pub fn law_upgraded_log_stands()
    ensures { (p : PlainProblem) (log : List Line)
        → StandsUpgraded (run p log) (run p (upgraded log)) }
{}

/// Where a log shows that a problem has no interpretation, the upgraded one does.
pub fn law_upgraded_log_is_accepted()
    ensures { (p : PlainProblem) (log : List Line) → IsAccepted (run p log)
        → IsAccepted (run p (upgraded log)) }
{}

/// Where `check_log` accepts a log for a problem, it accepts the upgraded one, unless memory is wanting: its answers to the two
/// logs are what stands before and behind.
pub fn law_check_log_accepts_upgraded_log()
    ensures { (p : PlainProblem) (log : List Line) (first second : Result Checked KernelRefused)
        → IsJudged log (run p log) first → IsOk first
        → IsJudged (upgraded log) (run p (upgraded log)) second → Accepts second }
{}

/// An upgraded log is upgraded already.
pub fn law_upgraded_twice()
    ensures { (log : List Line) → upgraded (upgraded log) ≡ upgraded log }
{}
