// What an accepted report says of a specification.

ghost use Rattle.std.specs.Prelude.{◌≡◌, ◌≤◌, ◌↔◌, ℕ, true, None, Some, Ok, List, [], length};
ghost use Rattle.std.specs.Prelude.{slice_get, Result};
ghost use Rattle.spec_core.specs.{Specification.{Specification}, State.{Listing, reads}};
ghost use Rattle.spec_core.specs.Typed.{is_specification};
ghost use Rattle.executions.specs.Convergence.{Converges};
ghost use Rattle.obligation_list.specs.declared.obligation.Obligation.{Obligation};
ghost use Rattle.obligation_list.specs.Breaking.{Breaks, Holds, Safe};
ghost use Rattle.proof_lines.specs.declared.line.Line.{Line};
ghost use Rattle.report_lines.specs.declared.head.Tally.{Tally};
ghost use Rattle.report_lines.specs.declared.head.Outcome.TheVariants.{Accepted};
ghost use Rattle.proof_report.specs.declared.place.PartialWitness.{PartialWitness};
ghost use Rattle.proof_report.specs.Verdicts.{VerdictForm, proved, refuted, is_verdict};
ghost use Rattle.proof_report.specs.Verdicts.{obligation_at, ReportForm, is_report};
ghost use Rattle.proof_report.specs.Events.{outcome_of};
ghost use Rattle.report_reader.specs.Reader.{reads_of};
ghost use Rattle.report_bytes.specs.Bytes.{lines_of, unended};
ghost use Rattle.report_verifier.specs.Verifier.{first_verifier, verifier_after, IsFinished};
ghost use Rattle.report_verifier.specs.Rules.{rule_fault, verdict_fault};
ghost use Rattle.report_verifier.specs.Valid.{IsProof, IsValid, AreValid};
ghost use Rattle.report_verifier.specs.Verified.{most_report_bytes, IsAccepted, IsVerified};
ghost use Rattle.report_verifier.specs.Verified.{IsOnAll};
ghost use Rattle.report_verifier.specs.declared.refused.VerifyRefused.{VerifyRefused};

use ground_numbers::{law_obligation_fits, law_refuted_problem_holds};
use obligation_list::law_obligations;

/// A verdict that can stand in a report has no fault exactly where it is valid.
pub fn law_valid_verdicts()
    ensures { (d : Specification) (version budget line : ℕ) (ob : Obligation) (v : VerdictForm)
        → is_verdict d version ob v ≡ true
        → (rule_fault d budget line ob v ≡ None) ↔ IsValid d budget ob v }
{}

/// An obligation that a log proves holds.
pub fn law_proved_holds()
    ensures { (d : Specification) (ob : Obligation) (log : List Line) → is_specification d ≡ true
        → IsProof d ob log → Holds d ob }
{
    law_obligation_fits();
    law_refuted_problem_holds();
}

/// A specification on which a report is accepted whose verdicts are all proved is safe, and it converges.
pub fn law_accepted_is_safe()
    ensures safe { (d : Specification) (bytes : List ℕ) (tally : Tally) → is_specification d ≡ true
        → IsAccepted d bytes tally → outcome_of tally ≡ Accepted → Safe d }
    ensures converges { (d : Specification) (bytes : List ℕ) (tally : Tally)
        → is_specification d ≡ true → IsAccepted d bytes tally
        → outcome_of tally ≡ Accepted → Converges d }
{
    law_obligations();
    law_proved_holds();
}

/// What a refuted verdict of a report without fault shows breaks its obligation.
pub fn law_refuted_breaks()
    ensures { (d : Specification) (r : ReportForm) (i : ℕ) (p : PartialWitness) (es : List ℕ)
        → is_report d r ≡ true → verdict_fault d r ≡ None
        → slice_get r.verdicts i ≡ Some (refuted p es)
        → (s : Listing) × (reads s ≡ reads_of p)
        × Breaks d (obligation_at d i) p.world s p.calls es }
{}

/// Bytes have one answer, but for want of memory and a failed read.
pub fn law_one_answer()
    ensures { (d : Specification) (bytes : List ℕ) (x y : Result Tally VerifyRefused)
        → is_specification d ≡ true → IsOnAll x → IsOnAll y → IsVerified d bytes x
        → IsVerified d bytes y → x ≡ y }
{}

/// What a verifier answers behind the lines of bytes that end with a line feed is what is answered to the bytes.
pub fn law_lines_are_verified()
    ensures { (d : Specification) (bytes : List ℕ) (result : Result Tally VerifyRefused)
        → is_specification d ≡ true → length bytes ≤ most_report_bytes → unended bytes ≡ []
        → IsFinished (verifier_after (first_verifier d) (lines_of bytes)) result
        → IsVerified d bytes result }
{}
