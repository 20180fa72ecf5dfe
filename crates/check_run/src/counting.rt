// How many obligations of a specification are proved, refuted and undecided, without a report.
ghost use Rattle.std.specs.{Prelude.{◌≡◌, ◌<◌, ◌≤◌, ◌^◌, IfOk, length}, List.{Contains}};
ghost use Rattle.spec_core.specs.Specification.{Specification};
ghost use Rattle.obligation_list.specs.Obligations.{IsObligation};
ghost use Rattle.obligation_list.specs.declared.obligation.Obligation.{Obligation};
ghost use Rattle.proof_report.specs.Events.{told, with_verdict};
ghost use Rattle.report_bytes.specs.Showing.{shown_verdict};
ghost use Rattle.check_run.specs.{Reports.{AreDecided, IsDecided}, Checking.{IsCounted}};
ghost use Rattle.lazy_ground.specs.Cache.{AreKept};

use crate::deciding::decide_next;
use lazy_ground::KeptCache;
use obligation_list::{Obligation, list};
use proof_report::Verdict;
use report_lines::head::Tally;
use spec_core::Spec;
use std::alloc::{AllocError, Global};

// A tally with one more verdict.
pub(crate) fn counted(tally: Tally, verdict: &Verdict) -> Tally
    requires { told tally < 2 ^ 31 }
    ensures { (d : Specification) → result ≡ with_verdict (shown_verdict d verdict.now) tally }
{
    let mut counted = tally;
    match verdict {
        Verdict::Proved(_) => counted.proved += 1,
        Verdict::Refuted(_) => counted.refuted += 1,
        Verdict::Undecided(_) => counted.undecided += 1,
    }
    counted
}

// Decides an obligation, and counts its verdict.
fn decide_one(
    alloc: Global,
    spec: &Spec,
    budget: u32,
    ob: &Obligation,
    cache: &mut KeptCache,
    tally: Tally,
) -> Result<Tally, AllocError>
    requires member { IsObligation spec.now ob.now }
    requires budget { 1 ≤ budget }
    requires kept { AreKept spec.now cache.old }
    requires few { told tally < 2 ^ 31 }
    ensures kept { AreKept spec.now cache.new }
    ensures counted { IfOk result (λ counted. IsCounted spec.now budget ob.now tally counted) }
{
    let verdict = decide_next(alloc, spec, ob, budget, cache)?;
    let counted = counted(tally, &verdict);
    drop(verdict);
    Ok(counted)
}

// Decides obligations one by one, and counts their verdicts.
fn decide_from(
    alloc: Global,
    spec: &Spec,
    budget: u32,
    obligations: &[Obligation],
    cache: &mut KeptCache,
) -> Result<Tally, AllocError>
    requires members { (ob : Obligation) → Contains obligations.now ob → IsObligation spec.now ob }
    requires budget { 1 ≤ budget }
    requires few { length obligations.now ≤ 12208 }
    requires kept { AreKept spec.now cache.old }
    ensures { IfOk result (λ tally. AreDecided spec.now budget obligations.now tally) }
{
    let mut tally = Tally {
        proved: 0,
        refuted: 0,
        undecided: 0,
    };
    for ob in obligations {
        tally = decide_one(alloc, spec, budget, ob, cache, tally)?;
    }
    Ok(tally)
}

// The same, from nothing that was kept. What is kept is let go once, and not once for each way out of the loop.
fn decide_each(
    alloc: Global,
    spec: &Spec,
    budget: u32,
    obligations: &[Obligation],
) -> Result<Tally, AllocError>
    requires members { (ob : Obligation) → Contains obligations.now ob → IsObligation spec.now ob }
    requires budget { 1 ≤ budget }
    requires few { length obligations.now ≤ 12208 }
    ensures { IfOk result (λ tally. AreDecided spec.now budget obligations.now tally) }
{
    let mut cache = KeptCache::new(alloc);
    let result = decide_from(alloc, spec, budget, obligations, &mut cache);
    drop(cache);
    result
}

/// Decides each obligation of a specification, with logs of at most `budget` lines, and answers how many verdicts of each kind
/// there are. Nothing is written. One obligation's problem is kept at a time, and the
/// formulas that later ones share with it.
pub fn decide_all(alloc: Global, spec: &Spec, budget: u32) -> Result<Tally, AllocError>
    requires least { 1 ≤ budget }
    ensures { IfOk result (λ tally. IsDecided spec.now budget tally) }
{
    let obligations = list(alloc, spec)?;
    decide_each(alloc, spec, budget, obligations.as_slice())
}
