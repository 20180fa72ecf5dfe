// The answers for all pairs, without a text.

ghost use Rattle.std.specs.{Prelude.{◌≡◌, ◌≤◌, IfOk}, List.{Contains}};
ghost use Rattle.conflict_variants.specs.Bare.{bare as bare_of};
ghost use Rattle.conflict_variants.specs.Keyed.{CanBeKeyed, keyed as keyed_of};
ghost use Rattle.suggest.specs.Pairs.{IsPair, pairs_of, keys_of};
ghost use Rattle.suggest.specs.Answers.{HaveLogs, IsFoundIn, AreKeyAnswers, IsAnswer, AreAnswers};
ghost use Rattle.suggest.specs.{Answers.{keys_after}, declared.answer.Pair.{Pair}};
ghost use Rattle.suggest.specs.declared.answer.Key.{Key};

use crate::answer::{Found, Key, KeyAnswer, Pair, PairAnswer};
use crate::finding::{find_bare, find_in};
use crate::known::Known;
use crate::listing::{list_keys, list_pairs};
use crate::question::{Question, keyed_at};
use crate::writing::is_refuted;
use conflict_variants::bare;
use items::Items;
use obligation_list::Obligation;
use spec_core::Spec;
use std::alloc::{AllocError, Global};

fn key_answer(
    question: &Question,
    key: Key,
    free: &[Obligation],
    known: &mut Known,
) -> Result<KeyAnswer, AllocError>
    requires keyed { let asked = question.now in
        CanBeKeyed asked.spec.now asked.pair.first key.p asked.pair.second key.q }
    requires free { HaveLogs (bare_of question.now.spec.now) question.now.budget free.now }
    ensures key { IfOk result (λ y. y.key ≡ key) }
    ensures found { let asked = question.now in IfOk result
        (λ y. IsFoundIn (keyed_of asked.spec.now asked.pair.first key.p asked.pair.second key.q)
        asked.budget asked.pair.first asked.pair.second y.found) }
{
    let pair = question.pair;
    let keyed = keyed_at(known.alloc, question, key)?;
    let found = or_drop!(find_in(&keyed, question.budget, pair, free, known); keyed);
    drop(keyed);
    Ok(KeyAnswer { key, found })
}

fn key_answers(
    question: &Question,
    keys: &[Key],
    free: &[Obligation],
    known: &mut Known,
) -> Result<Items<KeyAnswer>, AllocError>
    requires keyed { let asked = question.now in (k : Key) → Contains keys.now k
        → CanBeKeyed asked.spec.now asked.pair.first k.p asked.pair.second k.q }
    requires free { HaveLogs (bare_of question.now.spec.now) question.now.budget free.now }
    ensures { let asked = question.now in IfOk result
        (λ ys. AreKeyAnswers asked.spec.now asked.budget asked.pair.first asked.pair.second
        keys.now ys) }
{
    let mut answers = Items::new(known.alloc);
    for key in keys {
        let answer = or_drop!(key_answer(question, *key, free, known); answers);
        or_drop!(answers.push(answer); answers);
    }
    Ok(answers)
}

fn keys_for(
    question: &Question,
    found: &Found,
    free: &[Obligation],
    known: &mut Known,
) -> Result<Items<KeyAnswer>, AllocError>
    requires free { HaveLogs (bare_of question.now.spec.now) question.now.budget free.now }
    ensures { let asked = question.now in IfOk result
        (λ ys. AreKeyAnswers asked.spec.now asked.budget asked.pair.first asked.pair.second
        (keys_after found.now (keys_of asked.spec.now asked.pair.first asked.pair.second)) ys) }
{
    if !is_refuted(found) {
        return Ok(Items::new(known.alloc));
    }
    let keys = list_keys(known.alloc, question.spec, question.pair)?;
    let answers = or_drop!(key_answers(question, keys.as_slice(), free, known); keys);
    drop(keys);
    Ok(answers)
}

fn pair_answer(alloc: Global, question: &Question) -> Result<PairAnswer, AllocError>
    ensures { let asked = question.now in IfOk result
        (λ x. IsAnswer asked.spec.now asked.budget asked.pair x) }
{
    let pair = question.pair;
    let mut known = Known::new(alloc);
    let mut proved = Items::new(alloc);
    let found = or_drop!(
        find_bare(question.bare, question.budget, pair, &mut known, &mut proved);
        known, proved
    );
    let keys = or_drop!(
        keys_for(question, &found, proved.as_slice(), &mut known);
        found, known, proved
    );
    drop(known);
    drop(proved);
    Ok(PairAnswer { pair, found, keys })
}

fn pair_answers(
    alloc: Global,
    spec: &Spec,
    bare: &Spec,
    budget: u32,
    pairs: &[Pair],
) -> Result<Items<PairAnswer>, AllocError>
    requires members { (x : Pair) → Contains pairs.now x → IsPair spec.now x.first x.second }
    requires budget { 1 ≤ budget }
    requires bare { bare.now ≡ bare_of spec.now }
    ensures { IfOk result (λ xs. AreAnswers spec.now budget pairs.now xs) }
{
    let mut answers = Items::new(alloc);
    for pair in pairs {
        let question = Question {
            spec,
            bare,
            budget,
            pair: *pair,
        };
        let answer = or_drop!(pair_answer(alloc, &question); answers);
        or_drop!(answers.push(answer); answers);
    }
    Ok(answers)
}

/// The answer for each pair of operations, with logs of at most `budget` lines.
pub fn pairs(alloc: Global, spec: &Spec, budget: u32) -> Result<Items<PairAnswer>, AllocError>
    requires least { 1 ≤ budget }
    requires most { budget ≤ 1000000 }
    ensures { IfOk result (λ answers. AreAnswers spec.now budget (pairs_of spec.now) answers) }
{
    let pairs = list_pairs(alloc, spec)?;
    let bare = or_drop!(bare(alloc, spec); pairs);
    let answers = or_drop!(pair_answers(alloc, spec, &bare, budget, pairs.as_slice()); bare);
    drop(bare);
    Ok(answers)
}
