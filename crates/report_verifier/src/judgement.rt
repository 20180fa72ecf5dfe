// What is kept of the verdicts of a report, line by line.
ghost use Rattle.std.specs.Prelude.{◌≡◌, suc, Some, IfOk, OnOk};
ghost use Rattle.report_verifier.specs.{Rules.{or_else}, Verifier.{no_judgement, has_log, logged}};
ghost use Rattle.report_verifier.specs.{Taking.{ended_as, with_ended_as}, Listed.{IsListed}};

use crate::ending::end_fault;
use crate::logs::kind_of;
use crate::obligations::{Listed, obligation_due};
use proof_kernel::Kernel;
use proof_lines::{Line, LineRefused};
use proof_report::{Ended, Fault};
use report_lines::head::Tally;
use report_lines::verdict::VerdictWord;
use std::alloc::AllocError;

/// How many verdicts of each kind there are; of the last one its line, whether its obligation has too many formulas, the kernel after
/// the lines of its log so far, and how many these are; and the first fault of a verdict. There is no kernel outside a log, where there
/// are too many formulas, and behind a fault.
#[derive(Drop)]
pub struct Judgement {
    pub tally: Tally,
    pub line: u32,
    pub many: bool,
    pub kernel: Option<Kernel>,
    pub log: u32,
    pub fault: Option<Fault>,
}

/// Before the first verdict.
pub fn no_judgement() -> Judgement
    ensures { result ≡ no_judgement }
{
    Judgement {
        tally: Tally {
            proved: 0,
            refuted: 0,
            undecided: 0,
        },
        line: 0,
        many: false,
        kernel: None,
        log: 0,
        fault: None,
    }
}

/// Whether a log follows the word.
pub fn has_log(word: &VerdictWord) -> bool
    ensures { result ≡ has_log word.now }
{
    match word {
        VerdictWord::Refuted => false,
        VerdictWord::Instances => false,
        _ => true,
    }
}

fn or_else(first: Option<Fault>, later: Option<Fault>) -> Option<Fault>
    ensures { result ≡ or_else first later }
{
    match first {
        Some(fault) => Some(fault),
        None => later,
    }
}

/// A line of a log. The kernel takes it where it stands, since to move a kernel is dearer than most lines.
pub fn log_line(number: u32, line: &Line, judgement: &mut Judgement) -> Result<(), AllocError>
    ensures { OnOk result (judgement.new ≡ logged number (Some line.now) judgement.old) }
{
    let Some(log) = judgement.log.checked_add(1) else {
        return Err(AllocError);
    };
    judgement.log = log;
    let Some(kernel) = &mut judgement.kernel else {
        return Ok(());
    };
    match kernel.add(line) {
        Ok(()) => Ok(()),
        Err(LineRefused::Bad(why)) => {
            judgement.kernel = None;
            let fault = Fault {
                number,
                kind: kind_of(why),
            };
            judgement.fault = or_else(judgement.fault, Some(fault));
            Ok(())
        }
        Err(LineRefused::Memory) => Err(AllocError),
    }
}

fn one_more(count: u32) -> Result<u32, AllocError>
    ensures { IfOk result (λ n. n ≡ suc count) }
{
    match count.checked_add(1) {
        Some(more) => Ok(more),
        None => Err(AllocError),
    }
}

/// How many verdicts of each kind there are behind one that ends so.
pub fn with_ended(ended: &Ended, tally: Tally) -> Result<Tally, AllocError>
    ensures { IfOk result (λ t. t ≡ with_ended_as ended.now tally) }
{
    let mut counted = tally;
    match ended {
        Ended::Proved => counted.proved = one_more(tally.proved)?,
        Ended::Refuted(_) => counted.refuted = one_more(tally.refuted)?,
        _ => counted.undecided = one_more(tally.undecided)?,
    }
    Ok(counted)
}

/// A verdict ends, whose log the kernel has taken.
pub fn end(
    listed: &Listed<'_>,
    budget: u32,
    ended: &Ended,
    judgement: &mut Judgement,
) -> Result<(), AllocError>
    requires { IsListed listed.now }
    ensures { OnOk result
        (judgement.new ≡ ended_as listed.now.spec.now budget (Some ended.now) judgement.old) }
{
    let ob = obligation_due(listed, &judgement.tally)?;
    let tally = with_ended(ended, judgement.tally)?;
    let fault = end_fault(listed.spec, ob, budget, judgement, ended)?;
    judgement.tally = tally;
    judgement.kernel = None;
    judgement.fault = or_else(judgement.fault, fault);
    Ok(())
}
