// What is asked of a pair of operations.

ghost use Rattle.std.specs.Prelude.{◌≡◌, ◌≤◌, IfOk};
ghost use Rattle.conflict_variants.specs.Bare.{bare as bare_of};
ghost use Rattle.conflict_variants.specs.Keyed.{CanBeKeyed, keyed as keyed_of};
ghost use Rattle.suggest.specs.Pairs.{IsPair};

use crate::answer::{Key, Pair};
use conflict_variants::keyed;
use spec_core::Spec;
use std::alloc::{AllocError, Global};

/// A pair of operations of a specification, of which is asked whether it is needed, with logs of at
/// most `budget` lines. Nothing conflicts in the bare specification.
#[derive(Drop)]
pub struct Question<'a> {
    pub spec: &'a Spec,
    pub bare: &'a Spec,
    pub budget: u32,
    pub pair: Pair,
    ghost least: { 1 ≤ budget },
    ghost is_pair: { IsPair spec.now pair.first pair.second },
    ghost bare_is: { bare.now ≡ bare_of spec.now },
}

/// The keyed specification of the pair that is asked, at two parameters.
pub fn keyed_at(alloc: Global, question: &Question, key: Key) -> Result<Spec, AllocError>
    requires { let asked = question.now in
        CanBeKeyed asked.spec.now asked.pair.first key.p asked.pair.second key.q }
    ensures { let asked = question.now in IfOk result
        (λ keyed. keyed
        ≡ keyed_of asked.spec.now asked.pair.first key.p asked.pair.second key.q) }
{
    let pair = question.pair;
    keyed(alloc, question.spec, pair.first, key.p, pair.second, key.q)
}
