// What is kept of the verdicts of a report, as a reader tells of its lines.
ghost use Rattle.std.specs.Prelude.{◌≡◌, ℕ, true, None, Some, OnOk};
ghost use Rattle.obligation_list.specs.Obligations.{IsObligation};
ghost use Rattle.proof_report.specs.declared.verdict.Ended.TheVariants as ends;
ghost use Rattle.lazy_ground.specs.Cache.{AreKept};
ghost use Rattle.report_verifier.specs.Verifier.{obligation_due, posed, has_log, begun, begun_in};
ghost use Rattle.report_verifier.specs.{Taking.{ended_as, taken_as}, Listed.{IsListed}};
ghost use Rattle.report_verifier.specs.Posing.{IsPosed};
ghost use Rattle.report_verifier.specs.Deferring.{with_kernel, judgement_of, HasDeferred};
ghost use Rattle.report_verifier.specs.Deferring.{IsRefutedBy};

use crate::deferring::{DeferredLog, Judging, is_deferred, is_refuted, log_or_defer, settle};
use crate::judgement::{end, has_log, with_ended};
use crate::obligations::{Listed, obligation_due};
use crate::posing::{Posed, Poser};
use obligation_list::Obligation;
use proof_report::{Ended, Fed};
use report_lines::verdict::VerdictWord;
use spec_core::Spec;
use std::alloc::AllocError;
use std::mem;

// The log of a verdict begins, on whose obligation a problem is posed: it is deferred, or the kernel stands before its first line.
fn begin_log(
    poser: &mut Poser,
    spec: &Spec,
    ob: &Obligation,
    word: &VerdictWord,
    problem: Posed,
    judging: &mut Judging,
) -> Result<(), AllocError>
    requires posed { IsPosed spec.now ob.now problem }
    requires kept { AreKept spec.now poser.old.cache }
    requires due { obligation_due spec.now judging.old.judgement ≡ ob.now }
    requires kernel { judging.old.judgement.kernel ≡ None }
    requires none { judging.old.deferred ≡ None }
    ensures kept { AreKept spec.now poser.new.cache }
    ensures deferred { OnOk result (HasDeferred spec.now judging.new) }
    ensures begun { OnOk result (judgement_of spec.now judging.new
        ≡ with_kernel (posed spec.now ob.now true) judging.old.judgement) }
{
    match problem {
        Posed::Many => {}
        Posed::Whole(ground) => {
            judging.judgement.kernel = Some(poser.kernel(spec, ob, ground)?);
        }
        Posed::Lazy(ground) => {
            if is_deferred(word) {
                judging.deferred = Some(DeferredLog::new(poser.alloc, ground));
            } else {
                judging.judgement.kernel = Some(poser.complete(spec, ob, ground)?);
            }
        }
    }
    Ok(())
}

// A verdict begins, whose obligation this is.
fn begin_on(
    poser: &mut Poser,
    spec: &Spec,
    ob: &Obligation,
    number: u32,
    word: &VerdictWord,
    judging: &mut Judging,
) -> Result<(), AllocError>
    requires member { IsObligation spec.now ob.now }
    requires kept { AreKept spec.now poser.old.cache }
    requires due { obligation_due spec.now judging.old.judgement ≡ ob.now }
    requires none { judging.old.deferred ≡ None }
    ensures kept { AreKept spec.now poser.new.cache }
    ensures deferred { OnOk result (HasDeferred spec.now judging.new) }
    ensures begun { OnOk result (judgement_of spec.now judging.new
        ≡ begun_in spec.now ob.now number (has_log word.now) judging.old.judgement) }
{
    let problem = poser.pose(spec, ob)?;
    judging.judgement.line = number;
    judging.judgement.log = 0;
    judging.judgement.many = problem.is_many();
    judging.judgement.kernel = None;
    if has_log(word) {
        return begin_log(poser, spec, ob, word, problem, judging);
    }
    poser.let_go(spec, ob, problem);
    Ok(())
}

fn begin(
    poser: &mut Poser,
    listed: &Listed<'_>,
    number: u32,
    word: &VerdictWord,
    judging: &mut Judging,
) -> Result<(), AllocError>
    requires listed { IsListed listed.now }
    requires kept { AreKept listed.now.spec.now poser.old.cache }
    requires deferred { HasDeferred listed.now.spec.now judging.old }
    ensures kept { AreKept listed.now.spec.now poser.new.cache }
    ensures deferred { OnOk result (HasDeferred listed.now.spec.now judging.new) }
    ensures begun { OnOk result (judgement_of listed.now.spec.now judging.new
        ≡ begun listed.now.spec.now number (Some word.now)
        (judgement_of listed.now.spec.now judging.old)) }
{
    settle(poser, listed, judging)?;
    if judging.judgement.fault.is_some() {
        judging.judgement.line = number;
        judging.judgement.many = false;
        judging.judgement.kernel = None;
        judging.judgement.log = 0;
        return Ok(());
    }
    let ob = obligation_due(listed, &judging.judgement.tally)?;
    begin_on(poser, listed.spec, ob, number, word, judging)
}

// A proved verdict ends, whose lines were deferred and refute its problem.
fn end_proved(poser: &mut Poser, spec: &Spec, judging: &mut Judging) -> Result<(), AllocError>
    requires kept { AreKept spec.now poser.old.cache }
    requires deferred { HasDeferred spec.now judging.old }
    requires refuted { IsRefutedBy spec.now judging.old }
    ensures kept { AreKept spec.now poser.new.cache }
    ensures none { judging.new.deferred ≡ None }
    ensures ended { OnOk result ((budget : ℕ) → judging.new.judgement
        ≡ ended_as spec.now budget (Some ends.Proved) (judgement_of spec.now judging.old)) }
{
    let Some(log) = mem::replace(&mut judging.deferred, None) else {
        return Ok(());
    };
    let DeferredLog { ground, lines, .. } = log;
    poser.keep(spec, ground);
    let many = lines.len();
    drop(lines);
    let Ok(more) = u32::try_from(many) else {
        return Err(AllocError);
    };
    let Some(log) = judging.judgement.log.checked_add(more) else {
        return Err(AllocError);
    };
    judging.judgement.tally = with_ended(&Ended::Proved, judging.judgement.tally)?;
    judging.judgement.log = log;
    judging.judgement.kernel = None;
    Ok(())
}

// A verdict ends. Where its lines were deferred and are known to refute its problem, the whole problem isn't made.
fn end_or_settle(
    poser: &mut Poser,
    listed: &Listed<'_>,
    budget: u32,
    ended: &Ended,
    judging: &mut Judging,
) -> Result<(), AllocError>
    requires listed { IsListed listed.now }
    requires kept { AreKept listed.now.spec.now poser.old.cache }
    requires deferred { HasDeferred listed.now.spec.now judging.old }
    ensures kept { AreKept listed.now.spec.now poser.new.cache }
    ensures none { OnOk result (judging.new.deferred ≡ None) }
    ensures ended { OnOk result
        (judging.new.judgement ≡ ended_as listed.now.spec.now budget (Some ended.now)
        (judgement_of listed.now.spec.now judging.old)) }
{
    if let Ended::Proved = ended {
        if is_refuted(poser.alloc, listed.spec, judging)? {
            return end_proved(poser, listed.spec, judging);
        }
    }
    settle(poser, listed, judging)?;
    end(listed, budget, ended, &mut judging.judgement)
}

/// Takes what a reader tells of the line of this number.
pub fn take(
    poser: &mut Poser,
    listed: &Listed<'_>,
    budget: u32,
    number: u32,
    fed: &Fed,
    judging: &mut Judging,
) -> Result<(), AllocError>
    requires listed { IsListed listed.now }
    requires kept { AreKept listed.now.spec.now poser.old.cache }
    requires deferred { HasDeferred listed.now.spec.now judging.old }
    ensures kept { AreKept listed.now.spec.now poser.new.cache }
    ensures deferred { OnOk result (HasDeferred listed.now.spec.now judging.new) }
    ensures taken { OnOk result (judgement_of listed.now.spec.now judging.new
        ≡ taken_as listed.now.spec.now budget number fed.now
        (judgement_of listed.now.spec.now judging.old)) }
{
    if let Some(word) = &fed.begin {
        begin(poser, listed, number, word, judging)?;
    }
    if let Some(line) = &fed.log {
        log_or_defer(poser, listed, number, line, judging)?;
    }
    if let Some(ended) = &fed.ended {
        end_or_settle(poser, listed, budget, ended, judging)?;
    }
    Ok(())
}
