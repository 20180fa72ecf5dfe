// The log of a proved verdict, whose lines are deferred to its end.
//
// A log names few of the clauses of its obligation's problem, and most that prove are accepted over these alone (`lazy_logs`), whether or
// not they drop clauses. So the whole problem isn't made before the lines are there. Where they aren't known to refute it, where a line
// is a Split line, and where there is no room for more of them, the whole problem is made, and its kernel takes the lines as if it had
// been there from the first one on.
ghost use Rattle.std.specs.Prelude.{◌≡◌, suc, ◌+◌, false, length, ◌++◌, ◌∷◌, [], Some, None, IfOk};
ghost use Rattle.std.specs.Prelude.{OnOk, IsTrue};
ghost use Rattle.lazy_ground.specs.Cache.{AreKept};
ghost use Rattle.report_verifier.specs.Verifier.{no_judgement, obligation_due, log_all, logged};
ghost use Rattle.report_verifier.specs.{Listed.{IsListed}, Posing.{IsLazyOf}};
ghost use Rattle.report_verifier.specs.Deferring.{after_deferred, judgement_of, HasDeferred};
ghost use Rattle.report_verifier.specs.Deferring.{IsRefutedBy};

use crate::judgement::{Judgement, log_line, no_judgement};
use crate::obligations::{Listed, obligation_due};
use crate::posing::Poser;
use items::Items;
use lazy_ground::LazyGround;
use lazy_logs::is_refuted_by;
use proof_lines::Line;
use report_lines::verdict::VerdictWord;
use spec_core::Spec;
use std::alloc::{AllocError, Global};
use std::mem;

/// So many lines of a log at most are deferred: twice what a check writes that searched a part of a problem, since an upgraded log has a
/// line that drops clauses for each other one at most.
const MOST_LINES: u32 = 4000;

/// So many literals, steps and dropped clauses at most have the lines that are deferred.
const MOST_PARTS: usize = 40_000;

/// The lines of a log that the kernel hasn't taken yet, how many literals, steps and dropped clauses they have, and the lazy ground
/// problem of their obligation.
#[derive(Drop)]
pub struct DeferredLog {
    pub ground: LazyGround,
    pub lines: Items<Line>,
    pub parts: usize,
}

/// What is kept of the verdicts of a report, and the lines of the last one's log that were deferred.
#[derive(Drop)]
pub struct Judging {
    pub judgement: Judgement,
    pub deferred: Option<DeferredLog>,
}

/// Before the first verdict.
pub fn no_judging() -> Judging
    ensures judgement { result.judgement ≡ no_judgement }
    ensures deferred { result.deferred ≡ None }
{
    Judging {
        judgement: no_judgement(),
        deferred: None,
    }
}

/// Whether the log behind this word is deferred: one that proves, of few enough lines.
pub fn is_deferred(word: &VerdictWord) -> bool {
    match word {
        VerdictWord::Proved(lines) => *lines <= MOST_LINES,
        _ => false,
    }
}

impl DeferredLog {
    /// A log on a lazy ground problem, before its first line.
    pub fn new(alloc: Global, ground: LazyGround) -> DeferredLog
        ensures ground { result.ground ≡ ground }
        ensures lines { result.lines ≡ [] }
    {
        DeferredLog {
            ground,
            lines: Items::new(alloc),
            parts: 0,
        }
    }

    // How many literals, steps and dropped clauses there are with those of a line more; nothing where it is a Split line.
    fn parts_with(&self, line: &Line) -> Option<usize> {
        match line {
            Line::Resolve { .. } => Some(self.parts),
            Line::Farkas { used, steps } => {
                self.parts.checked_add(used.len())?.checked_add(steps.len())
            }
            Line::Drop { clauses } => self.parts.checked_add(clauses.len()),
            Line::Split { .. } => None,
        }
    }

    // Whether a line of this number comes next, behind the word of this number, and may be deferred.
    fn has_room(&self, word: u32, number: u32, line: &Line) -> bool
        ensures { IsTrue result → number ≡ suc word + length self.now.lines }
    {
        let many = self.lines.len();
        match self.parts_with(line) {
            Some(parts) => {
                parts <= MOST_PARTS
                    && many < MOST_LINES as usize
                    && number as usize == word as usize + 1 + many
            }
            None => false,
        }
    }

    // Adds a line.
    fn push(&mut self, alloc: Global, line: &Line) -> Result<(), AllocError>
        ensures lines { OnOk result (self.new.lines ≡ self.old.lines ++ line.now ∷ []) }
        ensures ground { self.new.ground ≡ self.old.ground }
    {
        let parts = match self.parts_with(line) {
            Some(parts) => parts,
            None => self.parts,
        };
        self.lines.push(line.copy(alloc)?)?;
        self.parts = parts;
        Ok(())
    }
}

// The kernel takes lines, of which the first comes next behind the verdict's first line.
fn add_lines(lines: &[Line], judgement: &mut Judgement) -> Result<(), AllocError>
    ensures { OnOk result
        (judgement.new ≡ log_all (suc judgement.old.line) lines.now judgement.old) }
{
    let mut number = judgement.line;
    for line in lines {
        let Some(next) = number.checked_add(1) else {
            return Err(AllocError);
        };
        number = next;
        log_line(number, line, judgement)?;
    }
    Ok(())
}

// The kernel of the whole problem takes the lines of a log that were deferred.
fn settle_log(
    poser: &mut Poser,
    listed: &Listed<'_>,
    log: DeferredLog,
    judgement: &mut Judgement,
) -> Result<(), AllocError>
    requires listed { IsListed listed.now }
    requires kept { AreKept listed.now.spec.now poser.old.cache }
    requires log { IsLazyOf listed.now.spec.now (obligation_due listed.now.spec.now judgement.old)
        log.ground }
    ensures kept { AreKept listed.now.spec.now poser.new.cache }
    ensures settled { OnOk result
        (judgement.new ≡ after_deferred listed.now.spec.now judgement.old (Some log)) }
{
    let DeferredLog { ground, lines, .. } = log;
    let ob = or_drop!(obligation_due(listed, &judgement.tally); ground, lines);
    let kernel = or_drop!(poser.complete(listed.spec, ob, ground); lines);
    judgement.kernel = Some(kernel);
    let added = add_lines(lines.as_slice(), judgement);
    drop(lines);
    added
}

/// The kernel of the whole problem takes the lines that were deferred, if any were.
pub fn settle(
    poser: &mut Poser,
    listed: &Listed<'_>,
    judging: &mut Judging,
) -> Result<(), AllocError>
    requires listed { IsListed listed.now }
    requires kept { AreKept listed.now.spec.now poser.old.cache }
    requires deferred { HasDeferred listed.now.spec.now judging.old }
    ensures kept { AreKept listed.now.spec.now poser.new.cache }
    ensures settled { OnOk result
        (judging.new.judgement ≡ judgement_of listed.now.spec.now judging.old) }
    ensures none { judging.new.deferred ≡ None }
{
    match mem::replace(&mut judging.deferred, None) {
        Some(log) => settle_log(poser, listed, log, &mut judging.judgement),
        None => Ok(()),
    }
}

// Defers a line, where it may be. It says whether it did.
fn defer(
    alloc: Global,
    spec: &Spec,
    number: u32,
    line: &Line,
    judging: &mut Judging,
) -> Result<bool, AllocError>
    requires deferred { HasDeferred spec.now judging.old }
    ensures deferred { OnOk result (HasDeferred spec.now judging.new) }
    ensures taken { IfOk result (λ is. IsTrue is → judgement_of spec.now judging.new
        ≡ logged number (Some line.now) (judgement_of spec.now judging.old)) }
    ensures left { IfOk result (λ is. is ≡ false → judging.new ≡ judging.old) }
{
    let _spec = spec;
    let Some(log) = &mut judging.deferred else {
        return Ok(false);
    };
    if !log.has_room(judging.judgement.line, number, line) {
        return Ok(false);
    }
    log.push(alloc, line)?;
    Ok(true)
}

/// A line of a log. It is deferred where lines before it were, and it may be; else the kernel takes it.
pub fn log_or_defer(
    poser: &mut Poser,
    listed: &Listed<'_>,
    number: u32,
    line: &Line,
    judging: &mut Judging,
) -> Result<(), AllocError>
    requires listed { IsListed listed.now }
    requires kept { AreKept listed.now.spec.now poser.old.cache }
    requires deferred { HasDeferred listed.now.spec.now judging.old }
    ensures kept { AreKept listed.now.spec.now poser.new.cache }
    ensures deferred { OnOk result (HasDeferred listed.now.spec.now judging.new) }
    ensures taken { OnOk result (judgement_of listed.now.spec.now judging.new
        ≡ logged number (Some line.now) (judgement_of listed.now.spec.now judging.old)) }
{
    if defer(poser.alloc, listed.spec, number, line, judging)? {
        return Ok(());
    }
    settle(poser, listed, judging)?;
    log_line(number, line, &mut judging.judgement)
}

/// Whether the lines that were deferred are known to refute their problem.
pub fn is_refuted(alloc: Global, spec: &Spec, judging: &Judging) -> Result<bool, AllocError>
    requires { HasDeferred spec.now judging.now }
    ensures { IfOk result (λ b. IsTrue b → IsRefutedBy spec.now judging.now) }
{
    let _spec = spec;
    match &judging.deferred {
        Some(log) => is_refuted_by(alloc, &log.ground, log.lines.as_slice()),
        None => Ok(false),
    }
}
