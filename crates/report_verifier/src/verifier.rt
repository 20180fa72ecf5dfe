// A verifier of a report, line by line.
ghost use Rattle.std.specs.Prelude.{◌≡◌, ◌≤◌, IfOk, OnOk, OnErr, IsErr, true, false};
ghost use Rattle.report_reader.specs.Resolving.{resolve_told};
ghost use Rattle.report_bytes.specs.Collecting.{budget_in};
ghost use Rattle.report_verifier.specs.{Notes.{IsPair}, Taking.{IsTold}};
ghost use Rattle.report_verifier.specs.Verifier.{first_verifier, next_verifier, IsTaken};
ghost use Rattle.report_verifier.specs.{Verifier.{IsFinished}, Verifier.{IsCutOff}};
ghost use Rattle.report_verifier.specs.Verifier.{IsJudgement, IsMissing, clauses_in, most_kept};

use crate::deferring::{Judging, log_or_defer, no_judging, settle};
use crate::judgement::Judgement;
use crate::judging::take;
use crate::notes::ResolvedPair;
use crate::obligations::Listed;
use crate::posing::Poser;
use crate::refused::VerifyRefused;
use items::Items;
use obligation_list::{Obligation, list};
use proof_lines::Line;
use proof_report::{Fed, ReportKind, ReportRefused};
use report_lines::head::Tally;
use report_reader::{ReportReader, ResolveLine};
use spec_core::Spec;
use std::alloc::{AllocError, Global};
use std::marker::Model;

/// Verifies a report line by line. It keeps one block, of its log the lines that were deferred, or the clauses that weren't dropped
/// (those that were, until they are half of all), and what problems of other blocks share with its. Contracts see it as a `VerifierForm`.
#[derive(Drop)]
pub struct Verifier<'a> {
    poser: Poser,
    spec: &'a Spec,
    obligations: Items<Obligation>,
    reader: ReportReader<'a>,
    judging: Judging,
    failed: bool,
}

impl<'a> Model for Verifier<'a> {
    ghost use Rattle.std.specs.{Prelude.{◌≡◌}, Coded.{codes}, List.{Contains}};
    ghost use Rattle.spec_core.specs.Code.{coded_form};
    ghost use Rattle.obligation_list.specs.declared.obligation.Obligation.{Obligation};
    ghost use Rattle.obligation_list.specs.Obligations.{obligations_of, IsObligation};
    ghost use Rattle.lazy_ground.specs.Cache.{AreKept};
    ghost use Rattle.report_verifier.specs.Verifier.{VerifierForm, IsWithin};
    ghost use Rattle.report_verifier.specs.Deferring.{judgement_of, HasDeferred};

    ghost Value = { VerifierForm };

    ghost coded = { Prim.hlevel (codes, coded_form) };

    ghost view = { λ a. record {
      reader = a.reader;
      judgement = judgement_of a.spec.now a.judging;
      failed = a.failed;
    } };

    ghost invariant = { λ a. (a.obligations ≡ obligations_of a.spec.now) × (a.reader.spec ≡ a.spec.now) × ((ob : Obligation) → Contains a.obligations ob → IsObligation a.spec.now ob) × IsWithin a.spec.now (judgement_of a.spec.now a.judging) × AreKept a.spec.now a.poser.cache × HasDeferred a.spec.now a.judging };
}

// The budget of log lines, where it was stated.
fn budget_in(reader: &ReportReader<'_>) -> u32
    ensures { result ≡ budget_in reader.now.budget }
{
    match reader.budget() {
        Some(budget) => budget,
        None => 0,
    }
}

// How many clauses are in the kernel.
fn clauses_in(judgement: &Judgement) -> u32
    ensures { result ≡ clauses_in judgement.now.kernel }
{
    match &judgement.kernel {
        Some(kernel) => kernel.clause_count(),
        None => 0,
    }
}

impl<'a> Verifier<'a> {
    /// The verifier before the first line.
    pub fn new(alloc: Global, spec: &'a Spec) -> Result<Verifier<'a>, AllocError>
        ensures { IfOk result (λ v. v ≡ first_verifier spec.now) }
    {
        let obligations = list(alloc, spec)?;
        let Ok(reader) = ReportReader::new(alloc, spec) else {
            drop(obligations);
            return Err(AllocError);
        };
        let poser = Poser::new(alloc, spec);
        Ok(Verifier {
            poser,
            spec,
            obligations,
            reader,
            judging: no_judging(),
            failed: false,
        })
    }

    // Has failed, for want of memory.
    fn fail(&mut self) -> Result<(), AllocError>
        ensures failed { self.new.failed ≡ true }
        ensures error { IsErr result }
    {
        self.judging = no_judging();
        self.failed = true;
        Err(AllocError)
    }

    // Takes what the reader tells of its last line.
    fn take(&mut self, fed: &Fed) -> Result<(), AllocError>
        requires { self.old.failed ≡ false }
        ensures { IsTold self.old fed.now self.new result }
    {
        match take(
            &mut self.poser,
            &Listed {
                spec: self.spec,
                obligations: self.obligations.as_slice(),
            },
            budget_in(&self.reader),
            self.reader.taken(),
            fed,
            &mut self.judging,
        ) {
            Ok(()) => Ok(()),
            Err(error) => {
                self.judging = no_judging();
                self.failed = true;
                Err(error)
            }
        }
    }

    // Takes a line that resolves two clauses, of which the reader has told.
    fn take_resolve(&mut self, line: ResolveLine) -> Result<(), AllocError>
        requires { self.old.failed ≡ false }
        ensures { IsTold self.old (resolve_told line) self.new result }
    {
        let line = Line::Resolve {
            left: line.left,
            right: line.right,
            pivot: line.pivot,
        };
        match log_or_defer(
            &mut self.poser,
            &Listed {
                spec: self.spec,
                obligations: self.obligations.as_slice(),
            },
            self.reader.taken(),
            &line,
            &mut self.judging,
        ) {
            Ok(()) => Ok(()),
            Err(error) => {
                self.judging = no_judging();
                self.failed = true;
                Err(error)
            }
        }
    }

    /// Takes the next line, without its line feed. What is wrong with it is answered at the end. After a refusal, which is for want of
    /// memory, each later line is refused too.
    #[inline(always)]
    pub fn feed(&mut self, text: &[u8]) -> Result<(), AllocError>
        ensures { IsTaken self.old text.now self.new result }
    {
        match self.feed_noted(text) {
            Ok(_) => Ok(()),
            Err(error) => Err(error),
        }
    }

    /// Takes the next line as `feed` does. Where it resolves two clauses and isn't the last one of its log, it answers them.
    pub fn feed_noted(&mut self, text: &[u8]) -> Result<Option<ResolvedPair>, AllocError>
        ensures taken { IfOk result (λ pair. (self.old.failed ≡ false)
            × (self.new ≡ next_verifier self.old text.now)) }
        ensures is { IfOk result (λ pair. IsPair pair text.now) }
        ensures failed { OnErr result (self.new.failed ≡ true) }
    {
        if self.failed {
            return Err(AllocError);
        }
        self.spec.well_formed();
        match self.reader.feed_resolve(text) {
            Some(line) => match self.take_resolve(line) {
                Ok(()) => Ok(Some(ResolvedPair {
                    left: line.left,
                    right: line.right,
                })),
                Err(error) => Err(error),
            },
            None => match self.feed_any(text) {
                Ok(()) => Ok(None),
                Err(error) => Err(error),
            },
        }
    }

    // The same, of a line of any kind.
    fn feed_any(&mut self, text: &[u8]) -> Result<(), AllocError>
        ensures { IsTaken self.old text.now self.new result }
    {
        if self.failed {
            return Err(AllocError);
        }
        match self.reader.feed(text) {
            Ok(fed) => {
                let taken = self.take(&fed);
                drop(fed);
                taken
            }
            Err(ReportRefused::Line { .. }) => Ok(()),
            Err(ReportRefused::Memory) => self.fail(),
        }
    }

    // How many lines were read. A line that has a fault isn't, and none behind it.
    pub(crate) fn taken(&self) -> u32
        ensures { result ≡ self.now.reader.number }
    {
        self.reader.taken()
    }

    // The kernel takes the lines that were deferred.
    fn settle(&mut self) -> Result<(), AllocError>
        ensures same { OnOk result (self.new ≡ self.old) }
        ensures failed { OnErr result (self.new.failed ≡ true) }
    {
        match settle(
            &mut self.poser,
            &Listed {
                spec: self.spec,
                obligations: self.obligations.as_slice(),
            },
            &mut self.judging,
        ) {
            Ok(()) => Ok(()),
            Err(error) => {
                self.judging = no_judging();
                self.failed = true;
                Err(error)
            }
        }
    }

    /// How many clauses the kernel has had, dropped or not: none outside a log; in a log at most those of the problem of its obligation,
    /// and one for each line of the log so far. It takes the lines that were deferred first. A refusal is for want of memory, and each
    /// later line is refused then too.
    pub fn kept(&mut self) -> Result<u32, AllocError>
        ensures clauses { IfOk result (λ n. n ≡ clauses_in self.new.judgement.kernel) }
        ensures bound { IfOk result (λ n. n ≤ most_kept self.new.reader.spec self.new.judgement) }
        ensures same { OnOk result (self.new ≡ self.old) }
        ensures failed { OnErr result (self.new.failed ≡ true) }
    {
        match settle(
            &mut self.poser,
            &Listed {
                spec: self.spec,
                obligations: self.obligations.as_slice(),
            },
            &mut self.judging,
        ) {
            Ok(()) => Ok(clauses_in(&self.judging.judgement)),
            Err(error) => {
                self.judging = no_judging();
                self.failed = true;
                Err(error)
            }
        }
    }

    // What is answered to the first fault of a verdict, or where there is none. The lines that were deferred were taken before.
    fn judged(&self) -> Result<Tally, VerifyRefused>
        ensures { IsJudgement self.now.judgement result }
    {
        if self.judging.deferred.is_some() {
            return Err(VerifyRefused::Memory);
        }
        match self.judging.judgement.fault {
            Some(fault) => Err(VerifyRefused::Line {
                number: fault.number,
                kind: fault.kind,
            }),
            None => Ok(self.judging.judgement.tally),
        }
    }

    // The line behind the last one has no form.
    fn missing(&self) -> Result<Tally, VerifyRefused>
        ensures { IsMissing self.now.reader.number result }
    {
        let number = self.reader.taken();
        if number == u32::MAX {
            return Err(VerifyRefused::Memory);
        }
        Err(VerifyRefused::Line {
            number: number + 1,
            kind: ReportKind::Form,
        })
    }

    // What is answered behind the last line.
    pub(crate) fn answer(&mut self) -> Result<Tally, VerifyRefused>
        ensures { IsFinished self.old result }
    {
        if self.failed {
            return Err(VerifyRefused::Memory);
        }
        match self.reader.finish() {
            Ok(()) => match self.settle() {
                Ok(()) => self.judged(),
                Err(_) => Err(VerifyRefused::Memory),
            },
            Err(ReportRefused::Line { number, kind }) => Err(VerifyRefused::Line { number, kind }),
            Err(ReportRefused::Memory) => Err(VerifyRefused::Memory),
        }
    }

    /// Whether the lines were a report whose verdicts rest on what they say: how many there are of each kind; or the first line that
    /// breaks a rule, where what is wrong with the text comes before what is wrong with a verdict.
    pub fn finish(self) -> Result<Tally, VerifyRefused>
        ensures { IsFinished self.entry result }
    {
        let mut verifier = self;
        let answer = verifier.answer();
        drop(verifier);
        answer
    }

    // The same where bytes without a line feed stand behind the last line, which are of no form.
    pub(crate) fn cut_off(&self) -> Result<Tally, VerifyRefused>
        ensures { IsCutOff self.now result }
    {
        if self.failed {
            return Err(VerifyRefused::Memory);
        }
        match self.reader.finish() {
            Err(ReportRefused::Line { number, kind }) => Err(VerifyRefused::Line { number, kind }),
            Err(ReportRefused::Memory) => Err(VerifyRefused::Memory),
            Ok(()) => self.missing(),
        }
    }
}
