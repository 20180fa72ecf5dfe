// Values that broke an obligation of a pair are tried before an obligation is decided anew.
//
// The specifications of a pair differ in what conflicts. So values that break an obligation in one of them break it in another one too,
// unless their calls conflict there. Many parameters have such values among those of the parameters before them. To try values is to
// evaluate a few formulas, where to decide an obligation is to make its problem and to search.

ghost use Rattle.std.specs.Prelude.{◌≡◌, ◌≤◌, ℕ, IfOk, IfSome};
ghost use Rattle.obligation_list.specs.Obligations.{IsObligation};
ghost use Rattle.report_bytes.specs.Showing.{shown_verdict, IsFit};
ghost use Rattle.check_run.specs.{Good.{IsGood}, Reports.{written_version}};

use check_run::{decide, refuted_by};
use items::Items;
use obligation_list::{Obligation, Witness, breaks};
use proof_report::Verdict;
use spec_core::{Call, Spec, World};
use std::alloc::{AllocError, Global};

/// The most values that are kept of a pair.
const MOST: usize = 16;

/// Values that broke obligations of a pair, each where other calls conflict.
#[derive(Drop)]
pub struct Known {
    /// The allocator, for these values and for what is found with them.
    pub alloc: Global,
    witnesses: Items<Witness>,
}

// ---- copies

fn copied_call(alloc: Global, call: &Call) -> Result<Call, AllocError> {
    let args = Items::from_slice(alloc, call.args.as_slice())?;
    Ok(Call { op: call.op, args })
}

fn copied_calls(alloc: Global, calls: &[Call]) -> Result<Items<Call>, AllocError> {
    let mut copies = Items::new(alloc);
    for call in calls {
        let copy = or_drop!(copied_call(alloc, call); copies);
        or_drop!(copies.push(copy); copies);
    }
    Ok(copies)
}

fn copied_world(alloc: Global, world: &World) -> Result<World, AllocError> {
    let sizes = Items::from_slice(alloc, world.sizes.as_slice())?;
    let consts = or_drop!(Items::from_slice(alloc, world.consts.as_slice()); sizes);
    Ok(World { sizes, consts })
}

fn copied(alloc: Global, witness: &Witness) -> Result<Witness, AllocError> {
    let world = copied_world(alloc, &witness.world)?;
    let state = or_drop!(witness.state.copy(); world);
    let calls = or_drop!(copied_calls(alloc, witness.calls.as_slice()); world, state);
    let elements =
        or_drop!(Items::from_slice(alloc, witness.elements.as_slice()); world, state, calls);
    Ok(Witness {
        world,
        state,
        calls,
        elements,
    })
}

// ---- trying them

// The verdict that the first values give that break an obligation.
fn verdict_by(
    alloc: Global,
    spec: &Spec,
    ob: &Obligation,
    witnesses: &[Witness],
) -> Result<Option<Verdict>, AllocError>
    requires { IsObligation spec.now ob.now }
    ensures good { (budget : ℕ)
        → IfOk result (λ o. IfSome o
        (λ v. IsGood spec.now budget ob.now (shown_verdict spec.now v))) }
    ensures fit { IfOk result (λ o. IfSome o (λ v. IsFit spec.now written_version ob.now v)) }
{
    for witness in witnesses {
        if breaks(spec, ob, witness) {
            let copy = copied(alloc, witness)?;
            return Ok(refuted_by(spec, ob, copy));
        }
    }
    Ok(None)
}

impl Known {
    /// No values yet.
    pub fn new(alloc: Global) -> Known {
        Known {
            alloc,
            witnesses: Items::new(alloc),
        }
    }

    // Keeps the values of a verdict that refutes.
    fn note(&mut self, verdict: &Verdict) -> Result<(), AllocError> {
        match verdict {
            Verdict::Refuted(witness) if self.witnesses.len() < MOST => {
                let copy = copied(self.alloc, witness)?;
                self.witnesses.push(copy)
            }
            _ => Ok(()),
        }
    }

    /// The verdict on an obligation, with logs of at most `budget` lines: by these values where they break it, else decided anew.
    pub fn decide(
        &mut self,
        spec: &Spec,
        ob: &Obligation,
        budget: u32,
    ) -> Result<Verdict, AllocError>
        requires member { IsObligation spec.now ob.now }
        requires budget { 1 ≤ budget }
        ensures good { IfOk result (λ v. IsGood spec.now budget ob.now (shown_verdict spec.now v)) }
        ensures fit { IfOk result (λ v. IsFit spec.now written_version ob.now v) }
    {
        if let Some(verdict) = verdict_by(self.alloc, spec, ob, self.witnesses.as_slice())? {
            return Ok(verdict);
        }
        let verdict = decide(self.alloc, spec, ob, budget)?;
        or_drop!(self.note(&verdict); verdict);
        Ok(verdict)
    }
}
