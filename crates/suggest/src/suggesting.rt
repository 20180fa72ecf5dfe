// The text of a suggestion, written pair by pair.

ghost use Rattle.std.specs.Prelude.{◌≡◌, ◌≤◌, length, IfErr};
ghost use Rattle.byte_ports.specs.{Faults.{IsFault}, declared.text.WriteOut.TheVariants.{Fault}};
ghost use Rattle.byte_ports.specs.Written.{IsText};
ghost use Rattle.check_run.specs.Checking.{HasTold, progress};
ghost use Rattle.conflict_variants.specs.Bare.{bare as bare_of};
ghost use Rattle.suggest.specs.{Pairs.{pairs_of}, Texts.{head_text, end_text}};
ghost use Rattle.suggest.specs.Writing.{AreListed, IsPairWritten, ArePairs, IsSuggested};

use crate::answer::{Pair, SuggestTally};
use crate::listing::list_pairs;
use crate::question::Question;
use crate::writing::{write_end, write_head, write_pair};
use byte_ports::{Sink, WriteOut, write_text};
use conflict_variants::bare;
use spec_core::Spec;
use std::alloc::Global;

// Decides a pair, and writes its answer. Answers the tally with it.
fn suggest_one<K: Sink>(
    alloc: Global,
    question: &Question,
    tally: SuggestTally,
    out: &mut K,
) -> Result<SuggestTally, WriteOut>
    ensures pair { let asked = question.now in
        IsPairWritten asked.spec.now asked.budget asked.pair (progress tally (K.held out.old))
        (K.held out.new) result }
    ensures fault { HasTold (K.faults out.old) (K.faults out.new) result }
    ensures never_falls { K.faults out.old ≤ K.faults out.new }
{
    let mut text = Vec::new(alloc);
    let Ok(now) = write_pair(alloc, question, tally, &mut text) else {
        return Err(WriteOut::Memory);
    };
    match write_text(out, text.as_slice()) {
        Ok(()) => Ok(now),
        Err(why) => Err(why),
    }
}

// Decides pairs one by one, and writes each answer as soon as it is there.
fn suggest_each<K: Sink>(
    alloc: Global,
    spec: &Spec,
    bare: &Spec,
    budget: u32,
    pairs: &[Pair],
    out: &mut K,
) -> Result<SuggestTally, WriteOut>
    requires listed { AreListed spec.now pairs.now }
    requires budget { 1 ≤ budget }
    requires bare { bare.now ≡ bare_of spec.now }
    ensures pairs { ArePairs spec.now budget (K.held out.old) (K.held out.new) result }
    ensures fault { HasTold (K.faults out.old) (K.faults out.new) result }
    ensures never_falls { K.faults out.old ≤ K.faults out.new }
{
    let mut tally = SuggestTally {
        needed: 0,
        free: 0,
        unknown: 0,
    };
    for pair in pairs {
        let question = Question {
            spec,
            bare,
            budget,
            pair: *pair,
        };
        match suggest_one(alloc, &question, tally, out) {
            Ok(now) => tally = now,
            Err(why) => return Err(why),
        }
    }
    Ok(tally)
}

// The lines before the pairs.
fn write_opening<K: Sink>(
    alloc: Global,
    spec: &Spec,
    pairs: usize,
    out: &mut K,
) -> Result<(), WriteOut>
    requires { pairs ≡ length (pairs_of spec.now) }
    ensures text { IsText (head_text spec.now) (K.held out.old) (K.held out.new) result }
    ensures fault { HasTold (K.faults out.old) (K.faults out.new) result }
    ensures never_falls { K.faults out.old ≤ K.faults out.new }
{
    let mut text = Vec::new(alloc);
    let Ok(()) = write_head(spec, pairs, &mut text) else {
        return Err(WriteOut::Memory);
    };
    write_text(out, text.as_slice())
}

// The lines behind the pairs.
fn write_closing<K: Sink>(alloc: Global, tally: SuggestTally, out: &mut K) -> Result<(), WriteOut>
    ensures text { IsText (end_text tally) (K.held out.old) (K.held out.new) result }
    ensures fault { HasTold (K.faults out.old) (K.faults out.new) result }
    ensures never_falls { K.faults out.old ≤ K.faults out.new }
{
    let mut text = Vec::new(alloc);
    let Ok(()) = write_end(tally, &mut text) else {
        return Err(WriteOut::Memory);
    };
    write_text(out, text.as_slice())
}

// The suggestion for these pairs.
fn suggest_listed<K: Sink>(
    alloc: Global,
    spec: &Spec,
    bare: &Spec,
    budget: u32,
    pairs: &[Pair],
    out: &mut K,
) -> Result<SuggestTally, WriteOut>
    requires listed { AreListed spec.now pairs.now }
    requires budget { 1 ≤ budget }
    requires bare { bare.now ≡ bare_of spec.now }
    ensures suggested { IsSuggested spec.now budget (K.held out.old) (K.held out.new) result }
    ensures fault { HasTold (K.faults out.old) (K.faults out.new) result }
    ensures never_falls { K.faults out.old ≤ K.faults out.new }
{
    match write_opening(alloc, spec, pairs.len(), out) {
        Ok(()) => {}
        Err(why) => return Err(why),
    }
    let tally = match suggest_each(alloc, spec, bare, budget, pairs, out) {
        Ok(tally) => tally,
        Err(why) => return Err(why),
    };
    match write_closing(alloc, tally, out) {
        Ok(()) => Ok(tally),
        Err(why) => Err(why),
    }
}

/// Finds which pairs of operations have to conflict, and on which parameters that is enough, with logs of at most `budget` lines: writes
/// the answer for each pair as soon as it is there. Answers how many pairs are needed, free and unknown.
pub fn suggest_all<K: Sink>(
    alloc: Global,
    spec: &Spec,
    budget: u32,
    out: &mut K,
) -> Result<SuggestTally, WriteOut>
    requires least { 1 ≤ budget }
    requires most { budget ≤ 1000000 }
    ensures suggested { IsSuggested spec.now budget (K.held out.old) (K.held out.new) result }
    ensures fault { IfErr result
        (λ why. why ≡ Fault → IsFault (K.faults out.old) (K.faults out.new)) }
    ensures never_falls { K.faults out.old ≤ K.faults out.new }
{
    let Ok(pairs) = list_pairs(alloc, spec) else {
        return Err(WriteOut::Memory);
    };
    let Ok(bare) = bare(alloc, spec) else {
        return Err(WriteOut::Memory);
    };
    let suggested = suggest_listed(alloc, spec, &bare, budget, pairs.as_slice(), out);
    drop(bare);
    suggested
}
