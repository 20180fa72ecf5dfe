// The report of a specification, written block by block.
ghost use Rattle.std.specs.Prelude.{◌≡◌, ◌<◌, ◌≤◌, ◌^◌, IfErr};
ghost use Rattle.byte_ports.specs.{Faults.{IsFault}, Written.{IsText}};
ghost use Rattle.byte_ports.specs.declared.text.WriteOut.TheVariants.{Fault};
ghost use Rattle.obligation_list.specs.Obligations.{IsObligation};
ghost use Rattle.proof_report.specs.{Verdicts.{obligation_count}, Texts.{head_text, end_text}};
ghost use Rattle.proof_report.specs.Events.{told};
ghost use Rattle.lazy_ground.specs.Cache.{AreKept};
ghost use Rattle.check_run.specs.Reports.{written_version};
ghost use Rattle.check_run.specs.Checking.{AreListed, HasTold, progress, IsBlock};
ghost use Rattle.check_run.specs.Checking.{AreBlocks, IsReport};

use crate::counting::counted;
use crate::deciding::decide_next;
use crate::question::Question;
use byte_ports::{Sink, WriteOut, write_text};
use lazy_ground::KeptCache;
use obligation_list::{Obligation, list};
use proof_report::{write_end, write_head, write_verdict};
use report_lines::head::Tally;
use spec_core::Spec;
use std::alloc::Global;

// Decides an obligation, and writes its block.
fn check_one<K: Sink>(
    alloc: Global,
    question: &Question,
    cache: &mut KeptCache,
    tally: &mut Tally,
    out: &mut K,
) -> Result<(), WriteOut>
    requires member { IsObligation question.now.spec.now question.now.ob.now }
    requires kept { AreKept question.now.spec.now cache.old }
    requires few { told tally.old < 2 ^ 31 }
    ensures block { let asked = question.now in
        IsBlock asked.spec.now asked.budget asked.ob.now (progress tally.old (K.held out.old))
        (progress tally.new (K.held out.new)) result }
    ensures fault { HasTold (K.faults out.old) (K.faults out.new) result }
    ensures never_falls { K.faults out.old ≤ K.faults out.new }
    ensures kept { AreKept question.now.spec.now cache.new }
{
    let ob = question.ob;
    let Ok(verdict) = decide_next(alloc, question.spec, ob, question.budget, cache) else {
        return Err(WriteOut::Memory);
    };
    let mut text = Vec::new(alloc);
    let made = write_verdict(alloc, question.spec, *ob, &verdict, &mut text);
    let counted = counted(*tally, &verdict);
    drop(verdict);
    let Ok(()) = made else {
        drop(text);
        return Err(WriteOut::Memory);
    };
    let written = write_text(out, text.as_slice());
    drop(text);
    match written {
        Ok(()) => {
            *tally = counted;
            Ok(())
        }
        Err(why) => Err(why),
    }
}

// Decides obligations one by one, and writes each block as soon as its verdict is there.
fn check_from<K: Sink>(
    alloc: Global,
    spec: &Spec,
    budget: u32,
    obligations: &[Obligation],
    cache: &mut KeptCache,
    out: &mut K,
) -> Result<Tally, WriteOut>
    requires listed { AreListed spec.now obligations.now }
    requires budget { 1 ≤ budget }
    requires kept { AreKept spec.now cache.old }
    ensures blocks { AreBlocks spec.now budget (K.held out.old) (K.held out.new) result }
    ensures fault { HasTold (K.faults out.old) (K.faults out.new) result }
    ensures never_falls { K.faults out.old ≤ K.faults out.new }
{
    let mut tally = Tally {
        proved: 0,
        refuted: 0,
        undecided: 0,
    };
    for ob in obligations {
        let question = Question { spec, ob, budget };
        match check_one(alloc, &question, cache, &mut tally, out) {
            Ok(()) => {}
            Err(why) => return Err(why),
        }
    }
    Ok(tally)
}

// The same, from nothing that was kept.
fn check_each<K: Sink>(
    alloc: Global,
    spec: &Spec,
    budget: u32,
    obligations: &[Obligation],
    out: &mut K,
) -> Result<Tally, WriteOut>
    requires listed { AreListed spec.now obligations.now }
    requires budget { 1 ≤ budget }
    ensures blocks { AreBlocks spec.now budget (K.held out.old) (K.held out.new) result }
    ensures fault { HasTold (K.faults out.old) (K.faults out.new) result }
    ensures never_falls { K.faults out.old ≤ K.faults out.new }
{
    let mut cache = KeptCache::new(alloc);
    let result = check_from(alloc, spec, budget, obligations, &mut cache, out);
    drop(cache);
    result
}

// The lines before the blocks.
fn write_opening<K: Sink>(
    alloc: Global,
    spec: &Spec,
    budget: u32,
    obligations: u32,
    out: &mut K,
) -> Result<(), WriteOut>
    requires { obligations ≡ obligation_count spec.now }
    ensures text { IsText (head_text spec.now written_version budget) (K.held out.old)
        (K.held out.new) result }
    ensures fault { HasTold (K.faults out.old) (K.faults out.new) result }
    ensures never_falls { K.faults out.old ≤ K.faults out.new }
{
    let mut text = Vec::new(alloc);
    let Ok(()) = write_head(alloc, spec, 1, budget, obligations, &mut text) else {
        return Err(WriteOut::Memory);
    };
    write_text(out, text.as_slice())
}

// The lines behind the blocks.
fn write_closing<K: Sink>(alloc: Global, tally: Tally, out: &mut K) -> Result<(), WriteOut>
    ensures text { IsText (end_text tally) (K.held out.old) (K.held out.new) result }
    ensures fault { HasTold (K.faults out.old) (K.faults out.new) result }
    ensures never_falls { K.faults out.old ≤ K.faults out.new }
{
    let mut text = Vec::new(alloc);
    let Ok(()) = write_end(alloc, tally, &mut text) else {
        return Err(WriteOut::Memory);
    };
    write_text(out, text.as_slice())
}

// The report of these obligations.
fn check_listed<K: Sink>(
    alloc: Global,
    spec: &Spec,
    budget: u32,
    obligations: &[Obligation],
    out: &mut K,
) -> Result<Tally, WriteOut>
    requires listed { AreListed spec.now obligations.now }
    requires budget { 1 ≤ budget }
    ensures report { IsReport spec.now budget (K.held out.old) (K.held out.new) result }
    ensures fault { HasTold (K.faults out.old) (K.faults out.new) result }
    ensures never_falls { K.faults out.old ≤ K.faults out.new }
{
    match write_opening(alloc, spec, budget, obligations.len() as u32, out) {
        Ok(()) => {}
        Err(why) => return Err(why),
    }
    let tally = match check_each(alloc, spec, budget, obligations, out) {
        Ok(tally) => tally,
        Err(why) => return Err(why),
    };
    match write_closing(alloc, tally, out) {
        Ok(()) => Ok(tally),
        Err(why) => Err(why),
    }
}

/// Checks a specification, with logs of at most `budget` lines: decides each of its obligations, and writes the report, block by
/// block. Answers how many verdicts of each kind there are. One obligation's problem is kept at a time, and what others share.
pub fn check_all<K: Sink>(
    alloc: Global,
    spec: &Spec,
    budget: u32,
    out: &mut K,
) -> Result<Tally, WriteOut>
    requires least { 1 ≤ budget }
    requires most { budget ≤ 1000000 }
    ensures report { IsReport spec.now budget (K.held out.old) (K.held out.new) result }
    ensures fault { IfErr result
        (λ why. why ≡ Fault → IsFault (K.faults out.old) (K.faults out.new)) }
    ensures never_falls { K.faults out.old ≤ K.faults out.new }
{
    let Ok(obligations) = list(alloc, spec) else {
        return Err(WriteOut::Memory);
    };
    check_listed(alloc, spec, budget, obligations.as_slice(), out)
}
