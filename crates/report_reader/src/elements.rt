// The elements at which the conclusion of an obligation may fail.

ghost use Rattle.std.specs.Prelude.{◌≡◌, ◌≤◌, length};
ghost use Rattle.spec_core.specs.{Specification.{no_invariant}, Meaning.{invariant_line}};
ghost use Rattle.obligation_list.specs.Breaking.{failing_vars, requires_line, elements_of};
ghost use Rattle.proof_report.specs.Verdicts.{element_count};

use obligation_list::Obligation;
use spec_core::{Prefix, Prefixed, Spec};

fn failing(line: &Prefixed) -> usize
    ensures { result ≡ length (failing_vars line.now) }
{
    match line.prefix {
        Prefix::Exists => 0,
        Prefix::Plain => line.vars.len(),
        Prefix::Forall => line.vars.len(),
    }
}

fn of_invariant(spec: &Spec, inv: u8) -> usize
    ensures { result ≡ length (failing_vars (invariant_line spec.now inv)) }
{
    match spec.invariants.as_slice().get(inv as usize) {
        Some(invariant) => failing(&invariant.line),
        None => 0,
    }
}

fn of_requires(spec: &Spec, op: u8, line: u8) -> usize
    ensures { result ≡ length (failing_vars (requires_line spec.now op line)) }
{
    match spec.requires_of(op).get(line as usize) {
        Some(line) => failing(line),
        None => 0,
    }
}

fn count(spec: &Spec, obligation: Obligation) -> usize
    ensures { result ≡ element_count spec.now obligation }
{
    match obligation {
        Obligation::Init { inv } => of_invariant(spec, inv),
        Obligation::Safety { inv, .. } => of_invariant(spec, inv),
        Obligation::Commute { thing, .. } => spec.places_of(thing).len(),
        Obligation::Stable { op, line, .. } => of_requires(spec, op, line),
    }
}

/// At how many elements the conclusion of an obligation may fail.
#[tactic(auto, using(crate::proofs::FewElements::few_elements))]
pub fn element_count(spec: &Spec, obligation: Obligation) -> u32
    ensures { result ≡ element_count spec.now obligation }
{
    spec.well_formed();
    count(spec, obligation) as u32
}
