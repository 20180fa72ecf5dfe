// What good verdicts say of a specification.

ghost use Rattle.std.specs.Prelude.{◌≡◌, ◌≤◌, ℕ, true, List, None};
ghost use Rattle.spec_core.specs.{Specification.{Specification}, Typed.{is_specification}};
ghost use Rattle.obligation_list.specs.declared.obligation.Obligation.{Obligation};
ghost use Rattle.obligation_list.specs.Obligations.{obligations_of};
ghost use Rattle.obligation_list.specs.Breaking.{Breaks, Holds, Safe};
ghost use Rattle.executions.specs.Convergence.{Converges};
ghost use Rattle.report_lines.specs.declared.head.Outcome.TheVariants.{Accepted};
ghost use Rattle.report_lines.specs.declared.head.Tally.{Tally};
ghost use Rattle.proof_lines.specs.declared.line.Line.{Line};
ghost use Rattle.proof_report.specs.declared.place.PartialWitness.{PartialWitness};
ghost use Rattle.proof_report.specs.Verdicts.{VerdictForm, proved, refuted, is_report};
ghost use Rattle.proof_report.specs.Events.{outcome_of};
ghost use Rattle.report_bytes.specs.{Bytes.{report_bytes}, Showing.{report_on}};
ghost use Rattle.report_bytes.specs.Reading.{first_fault};
ghost use Rattle.check_run.specs.{Shown.{listing_of}, Good.{IsGood, AreGood}};
ghost use Rattle.check_run.specs.Reports.{tally_of, written_version, IsChecked};

use ground_numbers::{law_obligation_fits, law_refuted_problem_holds};
use obligation_list::law_obligations;
use report_bytes::law_written_is_read;

/// An obligation with a good verdict that it is proved holds, and what a good refutation shows breaks it.
pub fn law_good_verdicts()
    ensures proved { (d : Specification) (budget : ℕ) (ob : Obligation) (log : List Line)
        → is_specification d ≡ true → IsGood d budget ob (proved log) → Holds d ob }
    ensures refuted { (d : Specification) (budget : ℕ) (ob : Obligation) (p : PartialWitness)
        (es : List ℕ)
        → IsGood d budget ob (refuted p es) → Breaks d ob p.world (listing_of d p) p.calls es }
{
    law_obligation_fits();
    law_refuted_problem_holds();
}

/// A specification with good verdicts on its obligations, which are all proved, is safe, and it converges.
pub fn law_safe()
    ensures safe { (d : Specification) (budget : ℕ) (vs : List VerdictForm)
        → is_specification d ≡ true → AreGood d budget (obligations_of d) vs
        → outcome_of (tally_of vs) ≡ Accepted → Safe d }
    ensures converges { (d : Specification) (budget : ℕ) (vs : List VerdictForm)
        → is_specification d ≡ true → AreGood d budget (obligations_of d) vs
        → outcome_of (tally_of vs) ≡ Accepted → Converges d }
{
    law_obligations();
    law_good_verdicts();
}

/// What a check wrote is the bytes of a report that can stand, which shows its verdicts; and they have no fault.
pub fn law_checked_is_read()
    ensures { (d : Specification) (budget : ℕ) (tally : Tally) (text : List ℕ)
        → is_specification d ≡ true → 1 ≤ budget → budget ≤ 1000000
        → (checked : IsChecked d budget tally text)
        → (is_report d (report_on d written_version budget checked.verdicts) ≡ true)
        × (text ≡ report_bytes d (report_on d written_version budget checked.verdicts))
        × (first_fault d text ≡ None) }
{
    law_written_is_read();
}
