// A specification with the list of its obligations, on each of which a report has a verdict.
ghost use Rattle.std.specs.Prelude.{◌≡◌, IfOk};
ghost use Rattle.obligation_list.specs.Obligations.{IsObligation};
ghost use Rattle.proof_report.specs.{Events.{told}, Verdicts.{obligation_at}};
ghost use Rattle.report_verifier.specs.Listed.{IsListed};

use obligation_list::Obligation;
use report_lines::head::Tally;
use spec_core::Spec;
use std::alloc::AllocError;

/// A specification, and the list of its obligations.
#[derive(Clone, Copy)]
pub struct Listed<'a> {
    pub spec: &'a Spec,
    pub obligations: &'a [Obligation],
}

// How many verdicts there are. More than 32 bits hold are answered as want of memory.
fn told(tally: &Tally) -> Result<usize, AllocError>
    ensures { IfOk result (λ n. n ≡ told tally.now) }
{
    let sum = u64::from(tally.proved) + (u64::from(tally.refuted) + u64::from(tally.undecided));
    match usize::try_from(sum) {
        Ok(sum) => Ok(sum),
        Err(_) => Err(AllocError),
    }
}

/// The obligation of the next verdict. A report tells of no verdict beyond the last one.
pub fn obligation_due<'a>(listed: &Listed<'a>, tally: &Tally) -> Result<&'a Obligation, AllocError>
    requires { IsListed listed.now }
    ensures due { IfOk result (λ ob. obligation_at listed.now.spec.now (told tally.now) ≡ ob.now) }
    ensures member { IfOk result (λ ob. IsObligation listed.now.spec.now ob.now) }
{
    match listed.obligations.get(told(tally)?) {
        Some(ob) => Ok(ob),
        None => Err(AllocError),
    }
}
