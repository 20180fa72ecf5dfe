// The lines of a log, taken by the kernel.
ghost use Rattle.std.specs.Prelude.{◌≡◌};
ghost use Rattle.report_verifier.specs.Rules.{kind_of};

use proof_lines::Why;
use proof_report::ReportKind;

/// The kind of a log line that breaks a rule.
pub fn kind_of(why: Why) -> ReportKind
    ensures { result ≡ kind_of why }
{
    match why {
        Why::Place => ReportKind::Place,
        Why::Pivot => ReportKind::Pivot,
        Why::Multiplier => ReportKind::Multiplier,
        Why::Contradiction => ReportKind::Contradiction,
        Why::Range => ReportKind::Range,
        Why::SplitAgain => ReportKind::SplitAgain,
        Why::SplitCause => ReportKind::SplitCause,
        Why::Evidence => ReportKind::Evidence,
        Why::Dropped => ReportKind::Dropped,
    }
}
