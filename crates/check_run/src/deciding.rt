// The verdict on an obligation.
ghost use Rattle.std.specs.Prelude.{◌≡◌, ◌≤◌, ℕ, true, false, length, IfOk, IfSome};
ghost use Rattle.obligation_list.specs.{Obligations.{IsObligation}, Refuting.{IsRefutation}};
ghost use Rattle.ground_numbers.specs.Problem.{problem_of};
ghost use Rattle.sat_core.specs.Answers.{IsAnswer, IsModelOf};
ghost use Rattle.proof_report.specs.declared.verdict.Cause.TheVariants.{Instances};
ghost use Rattle.proof_report.specs.declared.verdict.Verdict.TheVariants.{Undecided};
ghost use Rattle.report_bytes.specs.Showing.{shown_verdict, IsFit};
ghost use Rattle.check_run.specs.{Good.{HasFew, HasMany, IsGood}, Fitting.{HasShown}};
ghost use Rattle.check_run.specs.Decided.{IsDecided};
ghost use Rattle.check_run.specs.Asked.{IsGoodFor, IsFitFor, HasDifferences, IsDecidedFor};
ghost use Rattle.check_run.specs.Reports.{written_version};
ghost use Rattle.lazy_ground.specs.{Cache.{AreKept}, Lazy.{IsLazyGround}};
ghost use Rattle.lazy_ground.specs.Kept.{IsKept, HasClauses, HasLazyKept};
ghost use Rattle.diff_bounds.specs.Differences.{problem_fits};
ghost use Rattle.instances.specs.{Ground.{IsGrounded}, Entry.{HasEntry}};

use crate::fitting::numbered;
use crate::question::Question;
use clausify::problem_of;
use ground_atoms::GroundFormula;
use ground_numbers::{law_clauses_make_formulas_true, law_obligation_fits};
use instances::{GroundRefused, Grounded};
use lazy_ground::{EitherGround, Kept, KeptCache, LazyGround, ground_lazily_from};
use lazy_search::{LazyAnswer, search_lazily};
use model_back::witness_of;
use needed_clauses::{search, search_whole_first};
use obligation_list::{Obligation, Witness, breaks};
use proof_lines::{Interpretation, Problem};
use proof_report::{Cause, Verdict};
use sat_core::Answer;
use spec_core::Spec;
use std::alloc::{AllocError, Global};
use std::mem;
use witness_shrinking::shrink;

// The problem of an obligation.
fn pose(
    alloc: Global,
    spec: &Spec,
    ob: &Obligation,
    ground: &Grounded,
) -> Result<Problem, AllocError>
    requires { IsGrounded spec.now ob.now ground.now }
    ensures { IfOk result (λ p. p ≡ problem_of spec.now ob.now) }
{
    law_obligation_fits();
    problem_of(alloc, &ground.atoms, ground.formulas.as_slice())
}

// The verdict of a witness that breaks the obligation, made smaller.
fn refute_by(
    alloc: Global,
    spec: &Spec,
    ob: &Obligation,
    witness: Witness,
) -> Result<Verdict, AllocError>
    requires member { IsObligation spec.now ob.now }
    requires breaks { IsRefutation spec.now ob.now witness.world witness.state witness.calls
        witness.elements }
    ensures good { (budget : ℕ)
        → IfOk result (λ v. IsGood spec.now budget ob.now (shown_verdict spec.now v)) }
    ensures shown { IfOk result (λ v. HasShown spec.now ob.now v) }
    ensures decided { (atoms budget : ℕ) → IfOk result (λ v. IsDecided atoms budget v) }
{
    let mut smaller = witness;
    shrink(alloc, spec, ob, &mut smaller)?;
    smaller.state.stays_in_range();
    Ok(Verdict::Refuted(smaller))
}

// Values that refute the obligation, from an interpretation of its problem.
fn refute(
    alloc: Global,
    spec: &Spec,
    ob: &Obligation,
    ground: &Grounded,
    found: &Interpretation,
) -> Result<Verdict, AllocError>
    requires member { IsObligation spec.now ob.now }
    requires ground { IsGrounded spec.now ob.now ground.now }
    requires found { IsModelOf (problem_of spec.now ob.now) found.now }
    ensures good { (budget : ℕ)
        → IfOk result (λ v. IsGood spec.now budget ob.now (shown_verdict spec.now v)) }
    ensures shown { IfOk result (λ v. HasShown spec.now ob.now v) }
    ensures decided { (atoms budget : ℕ) → IfOk result (λ v. IsDecided atoms budget v) }
{
    law_clauses_make_formulas_true();
    let witness = witness_of(alloc, spec, ob, ground, found)?;
    refute_by(alloc, spec, ob, witness)
}

/// The verdict that values give of themselves, where they refute the obligation, wherever they are from.
pub fn refuted_by(spec: &Spec, ob: &Obligation, witness: Witness) -> Option<Verdict>
    requires { IsObligation spec.now ob.now }
    ensures good { (budget : ℕ)
        → IfSome result (λ v. IsGood spec.now budget ob.now (shown_verdict spec.now v)) }
    ensures fit { IfSome result (λ v. IsFit spec.now written_version ob.now v) }
{
    if !breaks(spec, ob, &witness) {
        drop(witness);
        return None;
    }
    witness.state.stays_in_range();
    Some(Verdict::Refuted(witness))
}

// The verdict that an answer of the search gives.
fn verdict_of(
    alloc: Global,
    question: &Question,
    ground: &Grounded,
    answer: Answer,
) -> Result<Verdict, AllocError>
    requires member { IsObligation question.now.spec.now question.now.ob.now }
    requires few { HasFew question.now.spec.now question.now.ob.now }
    requires ground { IsGrounded question.now.spec.now question.now.ob.now ground.now }
    requires answer { let asked = question.now in
        IsAnswer true true (problem_of asked.spec.now asked.ob.now) asked.budget answer }
    requires fitting { let asked = question.now in
        let problem = problem_of asked.spec.now asked.ob.now in
        problem_fits problem ≡ true → IsAnswer false false problem asked.budget answer }
    ensures good { IfOk result (λ v. IsGoodFor question.now v) }
    ensures shown { IfOk result (λ v. HasShown question.now.spec.now question.now.ob.now v) }
    ensures decided { HasDifferences question.now → IfOk result (λ v. IsDecidedFor question.now v) }
{
    match answer {
        Answer::Unsat(log) => Ok(Verdict::Proved(log)),
        Answer::Sat(found) => refute(alloc, question.spec, question.ob, ground, &found),
        Answer::Lines(log) => Ok(Verdict::Undecided(Cause::Lines(log))),
        Answer::Rows(evidence) => Ok(Verdict::Undecided(Cause::Rows(evidence))),
        Answer::Range(evidence) => Ok(Verdict::Undecided(Cause::Range(evidence))),
        Answer::Memory => Err(AllocError),
    }
}

// How many clauses a formula on equality gives; none for any other.
fn clauses_on_equality(form: &GroundFormula) -> usize {
    match form {
        GroundFormula::Implied(_, _, _) => 1,
        GroundFormula::Congruent { .. } => 3,
        _ => 0,
    }
}

// How many clauses stand in front of those on equality, which are the last. It is a hint: nothing is promised of it.
fn front_of(problem: &Problem, formulas: &[GroundFormula]) -> usize {
    let mut behind = 0usize;
    for back in 0..formulas.len() {
        let clauses = clauses_on_equality(&formulas[formulas.len() - 1 - back]);
        if clauses == 0 {
            break;
        }
        behind = behind.wrapping_add(clauses);
    }
    problem.clauses.len().saturating_sub(behind)
}

// A search of a problem that probably has an interpretation or not.
fn search_for(
    alloc: Global,
    problem: &Problem,
    front: usize,
    budget: u32,
    is_likely: bool,
) -> Answer
    ensures answer { IsAnswer true true problem.now budget result }
    ensures fitting { problem_fits problem.now ≡ true
        → IsAnswer false false problem.now budget result }
{
    if is_likely {
        search_whole_first(alloc, problem, front, budget)
    } else {
        search(alloc, problem, front, budget)
    }
}

// Decides an obligation whose formulas are there, and whose problem probably has an interpretation or not.
fn decide_grounded(
    alloc: Global,
    question: &Question,
    ground: &Grounded,
    is_likely: bool,
) -> Result<Verdict, AllocError>
    requires member { IsObligation question.now.spec.now question.now.ob.now }
    requires few { HasFew question.now.spec.now question.now.ob.now }
    requires ground { IsGrounded question.now.spec.now question.now.ob.now ground.now }
    ensures good { IfOk result (λ v. IsGoodFor question.now v) }
    ensures fit { IfOk result (λ v. IsFitFor question.now v) }
    ensures decided { HasDifferences question.now → IfOk result (λ v. IsDecidedFor question.now v) }
{
    let problem = pose(alloc, question.spec, question.ob, ground)?;
    let front = front_of(&problem, ground.formulas.as_slice());
    let answer = search_for(alloc, &problem, front, question.budget, is_likely);
    drop(problem);
    numbered(verdict_of(alloc, question, ground, answer)?)
}

// Keeps this for the next obligation.
fn keep(kept: &mut Kept, next: Kept)
    ensures { kept.new ≡ next }
{
    let before = mem::replace(kept, next);
    drop(before);
}

// Decides an obligation by its whole ground problem.
fn decide_whole(
    alloc: Global,
    question: &Question,
    ground: Grounded,
    kept: &mut Kept,
) -> Result<Verdict, AllocError>
    requires member { IsObligation question.now.spec.now question.now.ob.now }
    requires few { HasFew question.now.spec.now question.now.ob.now }
    requires ground { IsGrounded question.now.spec.now question.now.ob.now ground }
    requires taken { HasEntry question.now.spec.now ground }
    ensures good { IfOk result (λ v. IsGoodFor question.now v) }
    ensures fit { IfOk result (λ v. IsFitFor question.now v) }
    ensures decided { HasDifferences question.now → IfOk result (λ v. IsDecidedFor question.now v) }
    ensures kept { IsKept question.now.spec.now kept.new }
{
    let verdict = decide_grounded(alloc, question, &ground, false);
    keep(kept, EitherGround::Whole(ground).into_kept());
    verdict
}

// Decides an obligation by its whole ground problem, completed from the lazy one; it probably has an interpretation or not.
fn decide_completed(
    alloc: Global,
    question: &Question,
    ground: LazyGround,
    is_likely: bool,
    kept: &mut Kept,
) -> Result<Verdict, AllocError>
    requires member { IsObligation question.now.spec.now question.now.ob.now }
    requires ground { IsLazyGround question.now.spec.now question.now.ob.now ground }
    requires taken { HasLazyKept question.now.spec.now ground }
    requires kept { IsKept question.now.spec.now kept.old }
    ensures good { IfOk result (λ v. IsGoodFor question.now v) }
    ensures fit { IfOk result (λ v. IsFitFor question.now v) }
    ensures decided { HasDifferences question.now → IfOk result (λ v. IsDecidedFor question.now v) }
    ensures kept { IsKept question.now.spec.now kept.new }
{
    let Ok(whole) = ground.into_whole(alloc, question.spec, question.ob) else {
        return Err(AllocError);
    };
    let verdict = decide_grounded(alloc, question, &whole.ground, is_likely);
    keep(kept, whole.into_kept());
    verdict
}

// Decides an obligation by its lazy ground problem, and by the whole one where that neither proves nor refutes it.
fn decide_lazily(
    alloc: Global,
    question: &Question,
    ground: LazyGround,
    kept: &mut Kept,
) -> Result<Verdict, AllocError>
    requires member { IsObligation question.now.spec.now question.now.ob.now }
    requires ground { IsLazyGround question.now.spec.now question.now.ob.now ground }
    requires clauses { HasClauses ground }
    requires taken { HasLazyKept question.now.spec.now ground }
    requires kept { IsKept question.now.spec.now kept.old }
    ensures good { IfOk result (λ v. IsGoodFor question.now v) }
    ensures fit { IfOk result (λ v. IsFitFor question.now v) }
    ensures decided { HasDifferences question.now → IfOk result (λ v. IsDecidedFor question.now v) }
    ensures kept { IsKept question.now.spec.now kept.new }
{
    match search_lazily(alloc, question.spec, question.ob, &ground, question.budget) {
        Ok(LazyAnswer::Refuted(log)) => {
            keep(kept, ground.into_kept());
            numbered(Verdict::Proved(log))
        }
        Ok(LazyAnswer::Broken(witness)) => {
            keep(kept, ground.into_kept());
            numbered(refute_by(alloc, question.spec, question.ob, witness)?)
        }
        Ok(LazyAnswer::Satisfiable) => decide_completed(alloc, question, ground, true, kept),
        Ok(LazyAnswer::Unknown) => decide_completed(alloc, question, ground, false, kept),
        Err(AllocError) => {
            drop(ground);
            Err(AllocError)
        }
    }
}

// Decides an obligation from what another one left, and leaves what serves others.
fn decide_from(alloc: Global, question: &Question, kept: &mut Kept) -> Result<Verdict, AllocError>
    requires member { IsObligation question.now.spec.now question.now.ob.now }
    requires kept { IsKept question.now.spec.now kept.old }
    ensures good { IfOk result (λ v. IsGoodFor question.now v) }
    ensures fit { IfOk result (λ v. IsFitFor question.now v) }
    ensures many { HasMany question.now.spec.now question.now.ob.now
        → IfOk result (λ v. v ≡ Undecided Instances) }
    ensures decided { HasFew question.now.spec.now question.now.ob.now → HasDifferences question.now
        → IfOk result (λ v. IsDecidedFor question.now v) }
    ensures kept { IsKept question.now.spec.now kept.new }
{
    let taken = mem::replace(kept, Kept::none());
    match ground_lazily_from(alloc, question.spec, question.ob, taken) {
        Ok(EitherGround::Whole(ground)) => decide_whole(alloc, question, ground, kept),
        Ok(EitherGround::Lazy(ground)) => decide_lazily(alloc, question, ground, kept),
        Ok(EitherGround::TooMany(left)) => {
            keep(kept, left);
            Ok(Verdict::Undecided(Cause::Instances))
        }
        Err(GroundRefused::TooMany) => Ok(Verdict::Undecided(Cause::Instances)),
        Err(GroundRefused::Memory) => Err(AllocError),
    }
}

/// Decides an obligation as `decide` does. What other obligations of the specification share with it is kept, for those to come.
pub fn decide_next(
    alloc: Global,
    spec: &Spec,
    ob: &Obligation,
    budget: u32,
    cache: &mut KeptCache,
) -> Result<Verdict, AllocError>
    requires member { IsObligation spec.now ob.now }
    requires budget { 1 ≤ budget }
    requires kept { AreKept spec.now cache.old }
    ensures good { IfOk result (λ v. IsGood spec.now budget ob.now (shown_verdict spec.now v)) }
    ensures fit { IfOk result (λ v. IsFit spec.now written_version ob.now v) }
    ensures many { HasMany spec.now ob.now → IfOk result (λ v. v ≡ Undecided Instances) }
    ensures decided { HasFew spec.now ob.now → problem_fits (problem_of spec.now ob.now) ≡ true
        → IfOk result (λ v. IsDecided (length (problem_of spec.now ob.now).atoms) budget v) }
    ensures kept { AreKept spec.now cache.new }
{
    let question = Question { spec, ob, budget };
    let mut kept = cache.take(alloc, spec, ob);
    let verdict = decide_from(alloc, &question, &mut kept);
    cache.put(spec, kept);
    verdict
}

/// Decides an obligation of the specification, with logs of at most `budget` lines: it is proved, with a log that the kernel accepts
/// on its problem; or refuted, with values that break it; or undecided, with evidence of the cause. That there are too many formulas is
/// the cause exactly where there are. The verdict can stand in a report. Where all rows of its problem are differences, it is proved or
/// refuted, unless the budget is too small.
pub fn decide(
    alloc: Global,
    spec: &Spec,
    ob: &Obligation,
    budget: u32,
) -> Result<Verdict, AllocError>
    requires member { IsObligation spec.now ob.now }
    requires budget { 1 ≤ budget }
    ensures good { IfOk result (λ v. IsGood spec.now budget ob.now (shown_verdict spec.now v)) }
    ensures fit { IfOk result (λ v. IsFit spec.now written_version ob.now v) }
    ensures many { HasMany spec.now ob.now → IfOk result (λ v. v ≡ Undecided Instances) }
    ensures decided { HasFew spec.now ob.now → problem_fits (problem_of spec.now ob.now) ≡ true
        → IfOk result (λ v. IsDecided (length (problem_of spec.now ob.now).atoms) budget v) }
{
    let question = Question { spec, ob, budget };
    let mut kept = Kept::none();
    let verdict = decide_from(alloc, &question, &mut kept);
    drop(kept);
    verdict
}
