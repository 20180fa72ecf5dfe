// The status that verdicts come to.
ghost use Rattle.std.specs.Prelude.{◌≡◌};
ghost use Rattle.proof_report.specs.Events.{outcome_of};
ghost use Rattle.check_run.specs.Reports.{status_of};

use byte_ports::{ACCEPTED, REJECTED, UNDECIDED};
use report_lines::head::Tally;

/// The status that so many verdicts of each kind come to.
pub fn status_of(tally: Tally) -> u8
    ensures { result ≡ status_of (outcome_of tally) }
{
    if 0 < tally.refuted {
        REJECTED
    } else if 0 < tally.undecided {
        UNDECIDED
    } else {
        ACCEPTED
    }
}
