// The end of a verdict: whether it rests on what it says.
ghost use Rattle.std.specs.Prelude.{◌≡◌, ◌==◌, ◌&&◌, IfOk};
ghost use Rattle.obligation_list.specs.Obligations.{IsObligation};
ghost use Rattle.proof_kernel.specs.Evidence.{is_fresh, rows_hold, range_holds};
ghost use Rattle.report_verifier.specs.Rules.{unless, fault_at};
ghost use Rattle.report_verifier.specs.Verifier.{kernel_fault, unrefuted};
ghost use Rattle.report_verifier.specs.Taking.{witness_refutes, end_fault_of};

use crate::judgement::Judgement;
use obligation_list::{Obligation, Witness, breaks};
use proof_lines::{Lit, RangeWhat, RowStep};
use proof_report::{Ended, Fault, ReportKind};
use spec_core::Spec;
use std::alloc::AllocError;

// A fault at a line where something isn't there.
fn unless(there: bool, line: u32, kind: ReportKind) -> Option<Fault>
    ensures { result ≡ unless there (fault_at line kind) }
{
    if there {
        None
    } else {
        Some(Fault { number: line, kind })
    }
}

fn refutes(spec: &Spec, ob: &Obligation, witness: &Witness) -> bool
    requires { IsObligation spec.now ob.now }
    ensures { result ≡ witness_refutes spec.now ob.now witness.now }
{
    breaks(spec, ob, witness)
}

fn missing(line: u32) -> Option<Fault>
    ensures { result ≡ fault_at line ReportKind.Evidence }
{
    Some(Fault {
        number: line,
        kind: ReportKind::Evidence,
    })
}

fn proof_fault(judgement: &Judgement) -> Option<Fault>
    ensures { result
        ≡ kernel_fault judgement.now.line
        (λ s. unless s.empty (fault_at judgement.now.line ReportKind.NoEmpty))
        judgement.now.kernel }
{
    match &judgement.kernel {
        Some(kernel) => unless(kernel.has_empty(), judgement.line, ReportKind::NoEmpty),
        None => missing(judgement.line),
    }
}

fn spent_fault(judgement: &Judgement, budget: u32) -> Option<Fault>
    ensures { result
        ≡ kernel_fault judgement.now.line
        (λ s. unless ((judgement.now.log == budget) && is_fresh s)
        (fault_at judgement.now.line ReportKind.Evidence)) judgement.now.kernel }
{
    match &judgement.kernel {
        Some(kernel) => {
            let there = judgement.log == budget && kernel.all_fresh();
            unless(there, judgement.line, ReportKind::Evidence)
        }
        None => missing(judgement.line),
    }
}

fn rows_fault(
    judgement: &Judgement,
    used: &[Lit],
    steps: &[RowStep],
) -> Result<Option<Fault>, AllocError>
    ensures { IfOk result
        (λ fault. fault ≡ kernel_fault judgement.now.line
        (λ s. unless (is_fresh s && rows_hold s used.now steps.now)
        (fault_at judgement.now.line ReportKind.Evidence)) judgement.now.kernel) }
{
    match &judgement.kernel {
        Some(kernel) => {
            let there = kernel.rows_hold(used, steps)? && kernel.all_fresh();
            Ok(unless(there, judgement.line, ReportKind::Evidence))
        }
        None => Ok(missing(judgement.line)),
    }
}

fn range_fault(
    judgement: &Judgement,
    used: &[Lit],
    steps: &[RowStep],
    what: &RangeWhat,
) -> Result<Option<Fault>, AllocError>
    ensures { IfOk result
        (λ fault. fault ≡ kernel_fault judgement.now.line
        (λ s. unless (is_fresh s && range_holds s used.now steps.now what.now)
        (fault_at judgement.now.line ReportKind.Evidence)) judgement.now.kernel) }
{
    match &judgement.kernel {
        Some(kernel) => {
            let there = kernel.range_holds(used, steps, what)? && kernel.all_fresh();
            Ok(unless(there, judgement.line, ReportKind::Evidence))
        }
        None => Ok(missing(judgement.line)),
    }
}

fn refuted_fault(
    spec: &Spec,
    ob: &Obligation,
    judgement: &Judgement,
    witness: &Witness,
) -> Option<Fault>
    requires { IsObligation spec.now ob.now }
    ensures { result
        ≡ unless (witness_refutes spec.now ob.now witness.now)
        (fault_at judgement.now.line (unrefuted judgement.now.many)) }
{
    let kind = if judgement.many {
        ReportKind::Evidence
    } else {
        ReportKind::Witness
    };
    unless(refutes(spec, ob, witness), judgement.line, kind)
}

/// What is missing at the end of a verdict, if something is.
pub fn end_fault(
    spec: &Spec,
    ob: &Obligation,
    budget: u32,
    judgement: &Judgement,
    ended: &Ended,
) -> Result<Option<Fault>, AllocError>
    requires { IsObligation spec.now ob.now }
    ensures { IfOk result
        (λ fault. fault ≡ end_fault_of spec.now ob.now budget judgement.now ended.now) }
{
    match ended {
        Ended::Proved => Ok(proof_fault(judgement)),
        Ended::Refuted(witness) => Ok(refuted_fault(spec, ob, judgement, witness)),
        Ended::Instances => Ok(unless(judgement.many, judgement.line, ReportKind::Evidence)),
        Ended::Lines => Ok(spent_fault(judgement, budget)),
        Ended::Rows(used, steps) => rows_fault(judgement, used.as_slice(), steps.as_slice()),
        Ended::Range(used, steps, what) => {
            range_fault(judgement, used.as_slice(), steps.as_slice(), what)
        }
    }
}
