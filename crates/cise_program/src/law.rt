// What the answers of the program say, that two answers to the same words and bytes agree, and that no two contradict each other.
ghost use Rattle.std.specs.Prelude.{◌≡◌, ℕ, true, List, Option, Some, IfSome};
ghost use Rattle.std.specs.Io.KnownBytes.{Appends};
ghost use Rattle.byte_ports.specs.Ending.{IsOne};
ghost use Rattle.spec_from_bytes.specs.Refusal.{Refusal, IsRefusal, refusal_text};
ghost use Rattle.cise_program.specs.declared.words.Task.{Task};
ghost use Rattle.cise_program.specs.declared.words.Task.TheVariants.{Suggest};
ghost use Rattle.cise_program.specs.{declared.words.Job.TheVariants.{OfSpec}, Outside.{Told, Held}};
ghost use Rattle.cise_program.specs.Words.{job_of, reads_spec, is_judging, judges, writes_report};
ghost use Rattle.cise_program.specs.Answer.{IsAnswer, IsAnswerOf, IsStopped, Agree};
ghost use Rattle.cise_program.specs.Headline.{IsProved, is_outcome, Refutes, StopsRightly};
ghost use Rattle.cise_program.specs.Headline.{VerifiesAlike, SuggestsRightly, RefusesRightly};

use crate::checked::law_checked_is_verified;
use check_run::{law_checked_is_read, law_good_verdicts, law_safe};
use obligation_list::law_obligations;
use report_upgrader::law_upgraded_report_is_accepted;
use report_verifier::{law_accepted_is_safe, law_one_answer, law_refuted_breaks};
use sample_specs::law_sample_is_well_formed;
use spec_from_bytes::law_least_refusal;
use suggest::law_least_pairs;
use typing_rules::law_typed_is_well_formed;

/// Where a check, or the verification or the upgrade of a report, is answered with status 0, the bytes are a specification that is safe
/// and converges. Where it is answered with the outcome of verdicts, each refutation breaks its obligation, and so does each in what a
/// stopped run has written. And what is answered to a suggestion is right.
pub fn law_headline()
    ensures proved { (words : List (List ℕ)) (spec extra : Option (List ℕ)) (text : List ℕ)
        → judges (job_of words) ≡ true → IsAnswer (job_of words) spec extra 0 text
        → IfSome spec IsProved }
    ensures refuted { (words : List (List ℕ)) (told : Told) (status : ℕ) (text : List ℕ)
        (held : Held)
        → is_outcome status ≡ true → IsAnswer (job_of words) told.spec told.extra status text
        → Appends held.before held.after text → Refutes (job_of words) told held }
    ensures stopped { (words : List (List ℕ)) (told : Told) (held : Held)
        → IsStopped (job_of words) told held → StopsRightly (job_of words) told.spec held }
    ensures suggested { (words : List (List ℕ)) (told : Told) (status : ℕ) (text : List ℕ)
        (held : Held)
        → job_of words ≡ Some (OfSpec Suggest) → is_outcome status ≡ true
        → IsAnswer (job_of words) told.spec told.extra status text
        → Appends held.before held.after text → SuggestsRightly told.spec status held }
{
    law_typed_is_well_formed();
    law_safe();
    law_good_verdicts();
    law_checked_is_read();
    law_accepted_is_safe();
    law_refuted_breaks();
    law_upgraded_report_is_accepted();
    law_least_pairs();
}

/// Two answers to the same words and bytes agree: they are the same, but for the verdicts of a report, the blocks of a suggestion and the
/// counts of a sample of which some verdict is undecided.
pub fn law_answers_agree()
    ensures { (words : List (List ℕ)) (spec extra : List ℕ) (status other_status : ℕ)
        (text other_text : List ℕ)
        → IsAnswer (job_of words) (Some spec) (Some extra) status text
        → IsAnswer (job_of words) (Some spec) (Some extra) other_status other_text
        → Agree (job_of words) status text other_status other_text }
{
    law_typed_is_well_formed();
    law_one_answer();
    law_sample_is_well_formed();
    law_good_verdicts();
}

/// No check, verification or upgrade ends with 0 where another one, on the same specification, ends with 1: whatever their budgets and the
/// reports are.
pub fn law_verdicts_never_contradict()
    ensures { (task other : Task) (bytes more other_more text other_text : List ℕ)
        → is_judging task ≡ true → is_judging other ≡ true
        → IsAnswerOf task bytes more 0 text → IsAnswerOf other bytes other_more 1 other_text → ⊥ }
{
    law_typed_is_well_formed();
    law_safe();
    law_good_verdicts();
    law_checked_is_read();
    law_accepted_is_safe();
    law_refuted_breaks();
    law_upgraded_report_is_accepted();
    law_obligations();
}

/// Where a specification is refused, every answer to every task refuses it so.
pub fn law_refused_for_all()
    ensures { (task : Task) (bytes more : List ℕ) (why : Refusal) (status : ℕ) (text : List ℕ)
        → IsRefusal bytes why → IsAnswerOf task bytes more status text
        → IsOne 3 (refusal_text why) status text }
{}

/// Where a check or an upgrade wrote a report, it is verified with the same status, where it has at most 64 MiB.
pub fn law_reports_are_verified()
    ensures { (words : List (List ℕ)) (told : Told) (status : ℕ) (text : List ℕ) (held : Held)
        → is_outcome status ≡ true → writes_report (job_of words) ≡ true
        → IsAnswer (job_of words) told.spec told.extra status text
        → Appends held.before held.after text → VerifiesAlike told.spec status held }
{
    law_typed_is_well_formed();
    law_one_answer();
    law_checked_is_verified();
    law_upgraded_report_is_accepted();
}

/// Where a specification is refused, what is written says why, and a fault of its tree is the least one.
pub fn law_least_fault_is_answered()
    ensures { (words : List (List ℕ)) (told : Told) (text : List ℕ) (held : Held)
        → reads_spec (job_of words) ≡ true → IsAnswer (job_of words) told.spec told.extra 3 text
        → Appends held.before held.after text → RefusesRightly told.spec held }
{
    law_least_refusal();
}
