// What `check` wrote is verified alike.
//
// The two stand apart: `check_run` says which verdicts are good, and `report_verifier` which verdicts have no fault. Here each good
// verdict is shown to have none: the logs are those that the kernel accepts, with the same evidence, and the state that a verifier
// reads from a witness is the one in which the witness breaks its obligation.

ghost use Rattle.std.specs.Prelude.{◌≡◌, ◌≤◌, ℕ, true, List, length, Result, Ok};
ghost use Rattle.spec_core.specs.{Specification.{Specification}, Typed.{is_specification}};
ghost use Rattle.report_lines.specs.declared.head.Tally.{Tally};
ghost use Rattle.check_run.specs.Reports.{IsChecked};
ghost use Rattle.report_verifier.specs.Verified.{most_report_bytes, IsVerified, IsOnAll};
ghost use Rattle.report_verifier.specs.declared.refused.VerifyRefused.{VerifyRefused};

use check_run::law_checked_is_read;
use report_verifier::{law_one_answer, law_valid_verdicts};

/// What a check wrote of a specification is accepted, where it isn't too long, with the verdicts that the check counted.
pub fn law_checked_is_verified()
    ensures { (d : Specification) (budget : ℕ) (tally : Tally) (text : List ℕ)
        → is_specification d ≡ true → 1 ≤ budget → budget ≤ 1000000 → IsChecked d budget tally text
        → length text ≤ most_report_bytes → IsVerified d text (Ok tally) }
{
    law_checked_is_read();
    law_valid_verdicts();
}

/// Nothing else is answered to it, but for want of memory and a failed read.
pub fn law_checked_has_one_answer()
    ensures { (d : Specification) (budget : ℕ) (tally : Tally) (text : List ℕ)
        (x : Result Tally VerifyRefused) → is_specification d ≡ true → 1 ≤ budget → budget ≤ 1000000
        → IsChecked d budget tally text → length text ≤ most_report_bytes → IsVerified d text x
        → IsOnAll x → x ≡ Ok tally }
{
    law_checked_is_verified();
    law_one_answer();
}
