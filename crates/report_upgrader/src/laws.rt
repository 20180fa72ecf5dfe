// What an upgraded report says: the same as the one that it was made of.

ghost use Rattle.std.specs.Prelude.{◌≡◌, ℕ, ◌≤◌, true, List, length, Result, Ok};
ghost use Rattle.spec_core.specs.{Specification.{Specification}, Typed.{is_specification}};
ghost use Rattle.report_lines.specs.declared.head.Tally.{Tally};
ghost use Rattle.report_verifier.specs.Verified.{most_report_bytes, IsAccepted, IsVerified};
ghost use Rattle.report_verifier.specs.Verified.{IsOnAll};
ghost use Rattle.report_verifier.specs.declared.refused.VerifyRefused.{VerifyRefused};
ghost use Rattle.report_upgrader.specs.Upgrading.{IsUpgradedText};

use crate::log_laws::law_upgraded_log_is_accepted;
use crate::report_laws::{
    law_report_upgraded_twice, law_upgraded_report_has_the_same_summary,
    law_upgraded_report_is_a_report,
};
use report_verifier::{law_one_answer, law_valid_verdicts};

/// The text of an upgraded report is that of a report without fault, with as many verdicts of each kind.
pub fn law_upgraded_report_is_accepted()
    ensures { (d : Specification) (bytes : List ℕ) (tally : Tally) (text : List ℕ)
        → length bytes ≤ most_report_bytes
        → IsUpgradedText d bytes tally text → IsAccepted d text tally }
{
    law_upgraded_log_is_accepted();
    law_valid_verdicts();
    law_upgraded_report_is_a_report();
    law_upgraded_report_has_the_same_summary();
}

/// Whatever is answered to all of that text, where it has at most 64 MiB too, is that it stands, with these counts. So its verification
/// ends as that of the report that it was made of.
pub fn law_upgraded_report_is_verified()
    ensures { (d : Specification) (bytes : List ℕ) (tally : Tally) (text : List ℕ)
        (result : Result Tally VerifyRefused) → is_specification d ≡ true
        → length bytes ≤ most_report_bytes → IsUpgradedText d bytes tally text → length text ≤ most_report_bytes
        → IsOnAll result → IsVerified d text result → result ≡ Ok tally }
{
    law_upgraded_report_is_accepted();
    law_one_answer();
}

/// Upgraded again it is the same text.
pub fn law_upgraded_text_is_upgraded()
    ensures { (d : Specification) (bytes : List ℕ) (tally : Tally) (text : List ℕ) (counted : Tally)
        (again : List ℕ) → is_specification d ≡ true
        → length bytes ≤ most_report_bytes → IsUpgradedText d bytes tally text → IsUpgradedText d text counted again → again ≡ text }
{
    law_upgraded_report_is_a_report();
    law_report_upgraded_twice();
}

/// Bytes have one upgraded text.
pub fn law_one_upgraded_text()
    ensures { (d : Specification) (bytes : List ℕ) (tally : Tally) (text : List ℕ) (counted : Tally)
        (other : List ℕ) → is_specification d ≡ true
        → IsUpgradedText d bytes tally text → IsUpgradedText d bytes counted other → text ≡ other }
{}
