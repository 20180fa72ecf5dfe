// The generated specification of a number.

ghost use Rattle.std.specs.Prelude.{◌≡◌, ◌≤◌, ℕ, true, IfOk};
ghost use Rattle.spec_core.specs.Typed.{is_specification};
ghost use Rattle.sample_specs.specs.Sample.{sample};

use crate::declarations::{invariants, relations, rules, sorts, tokens};
use crate::operations::operations;
use items::Items;
use spec_core::Spec;
use std::alloc::{AllocError, Global};

/// The specification `sample n`, for an n from 1 to 12.
pub fn sample_spec(alloc: Global, n: u8) -> Result<Spec, AllocError>
    requires some { 1 ≤ n }
    requires few { n ≤ 12 }
    ensures { IfOk result (λ spec. spec ≡ sample n) }
{
    let sorts = sorts(alloc)?;
    let relations = or_drop!(relations(alloc, n); sorts);
    let tokens = or_drop!(tokens(alloc); sorts, relations);
    let rules = or_drop!(rules(alloc); sorts, relations, tokens);
    let invariants = or_drop!(invariants(alloc, n); sorts, relations, tokens, rules);
    let operations = or_drop!(operations(alloc, n); sorts, relations, tokens, rules, invariants);
    let spec = Spec {
        version: 1,
        sorts,
        consts: Items::new(alloc),
        relations,
        counters: Items::new(alloc),
        tokens,
        rules,
        invariants,
        operations,
    };
    Ok(spec)
}

/// The generated specifications are well formed.
#[tactic(auto, using(crate::proofs::WellFormed::well_formed))]
pub fn law_sample_is_well_formed()
    ensures { (n : ℕ) → 1 ≤ n → n ≤ 12 → is_specification (sample n) ≡ true }
{}
