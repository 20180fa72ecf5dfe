// A reader of a report, line by line.

ghost use Rattle.std.specs.Prelude.{◌≡◌, ◌<◌, IfOk, IfSome, IfNone, None, Ok};
ghost use Rattle.proof_report.specs.{declared.place.Place.TheVariants.{Log}, Feeding.{start}};
ghost use Rattle.report_reader.specs.Reader.{IsAnswered, IsFinished, first_reader, stated};
ghost use Rattle.report_reader.specs.Resolving.{resolve_told};

use crate::feeding::{Refusal, step};
use crate::moving::{log_end, one_less};
use crate::reading::{drops, log_line};
use crate::resolving::{ResolveLine, count_down, resolve_line};
use items::Items;
use obligation_list::{Obligation, list};
use proof_report::kind::{Fault, ReportKind, ReportRefused};
use proof_report::place::{LogOf, Place, State};
use proof_report::verdict::Fed;
use report_lines::head::Tally;
use report_lines::words::ReadError;
use spec_core::Spec;
use std::alloc::{AllocError, Global};
use std::marker::Model;

/// Reads a report line by line, and keeps one block at most. Contracts see it as a `ReaderForm`.
#[derive(Drop)]
pub struct ReportReader<'a> {
    alloc: Global,
    spec: &'a Spec,
    obligations: Items<Obligation>,
    state: State,
    number: u32,
    budget: Option<u32>,
    fault: Option<Fault>,
}

impl<'a> Model for ReportReader<'a> {
    ghost use Rattle.std.specs.{Prelude.{◌≡◌}, Coded.{codes}};
    ghost use Rattle.spec_core.specs.Code.{coded_form};
    ghost use Rattle.obligation_list.specs.Obligations.{obligations_of};
    ghost use Rattle.report_reader.specs.Reader.{ReaderForm, IsKept};

    ghost Value = { ReaderForm };

    ghost coded = { Prim.hlevel (codes, coded_form) };

    ghost view = { λ a. record { spec = a.spec.now; state = a.state; number = a.number; budget = a.budget; fault = a.fault } };

    ghost invariant = { λ a. (a.obligations ≡ obligations_of a.spec.now) × IsKept a.spec.now a.state.tally a.state.place };
}

fn start() -> State
    ensures { result ≡ start }
{
    State {
        version: 1,
        place: Place::Title,
        tally: Tally {
            proved: 0,
            refuted: 0,
            undecided: 0,
        },
    }
}

// The budget, where a line states it or one before did.
fn stated(budget: Option<u32>, before: Option<u32>) -> Option<u32>
    ensures { result ≡ stated budget before }
{
    match budget {
        Some(budget) => Some(budget),
        None => before,
    }
}

impl<'a> ReportReader<'a> {
    /// The reader before the first line.
    pub fn new(alloc: Global, spec: &'a Spec) -> Result<ReportReader<'a>, AllocError>
        ensures { IfOk result (λ reader. reader ≡ first_reader spec.now) }
    {
        let obligations = list(alloc, spec)?;
        Ok(ReportReader {
            alloc,
            spec,
            obligations,
            state: start(),
            number: 0,
            budget: None,
            fault: None,
        })
    }

    /// The budget of log lines, once its line was taken.
    pub fn budget(&self) -> Option<u32>
        ensures { result ≡ self.now.budget }
    {
        self.budget
    }

    /// The version of the format: 1, and once the first line was taken the one that it states.
    pub fn version(&self) -> u8
        ensures { result ≡ self.now.state.version }
    {
        self.state.version
    }

    /// How many lines were taken.
    pub fn taken(&self) -> u32
        ensures { result ≡ self.now.number }
    {
        self.number
    }

    // Takes a line of a log, in which so many are left. Most lines are of this kind, so what they say is told without more ado.
    fn feed_log(&mut self, log_of: LogOf, lines: u32, text: &[u8]) -> Result<Fed, ReportRefused>
        requires fault { self.old.fault ≡ None }
        requires number { self.old.number < 4294967295 }
        requires place { self.old.state.place ≡ Log log_of lines }
        requires some { 0 < lines }
        ensures { IsAnswered self.old text.now self.new result }
    {
        let number = self.number + 1;
        self.spec.well_formed();
        match log_line(self.alloc, drops(self.state.version, log_of), text) {
            Ok(line) => {
                let ended = log_end(&self.state.place);
                one_less(&mut self.state);
                self.number = number;
                Ok(Fed {
                    begin: None,
                    log: Some(line),
                    ended,
                })
            }
            Err(ReadError::Memory) => Err(ReportRefused::Memory),
            Err(ReadError::Form) => {
                let kind = ReportKind::Form;
                self.fault = Some(Fault { number, kind });
                Err(ReportRefused::Line { number, kind })
            }
        }
    }

    /// Takes the next line where it resolves two clauses and isn't the last one of its log. What it says is told without all that
    /// other lines may tell, so each such line costs little. None says nothing of the line, which isn't taken then.
    pub fn feed_resolve(&mut self, text: &[u8]) -> Option<ResolveLine>
        ensures some { IfSome result (λ line. IsAnswered self.old text.now self.new
            (Ok (resolve_told line))) }
        ensures none { IfNone result (self.new ≡ self.old) }
    {
        if let Some(_) = self.fault {
            return None;
        }
        if self.number == u32::MAX {
            return None;
        }
        let Ok(line) = resolve_line(text) else {
            return None;
        };
        if !count_down(&mut self.state.place) {
            return None;
        }
        self.number += 1;
        Some(line)
    }

    /// Takes the next line, without its line feed, and tells what it says. The first fault of the lines so far is answered, and
    /// again at each later line. Behind 2^32 - 1 lines a further one is answered as want of memory.
    pub fn feed(&mut self, text: &[u8]) -> Result<Fed, ReportRefused>
        ensures { IsAnswered self.old text.now self.new result }
    {
        if let Some(fault) = self.fault {
            return Err(ReportRefused::Line {
                number: fault.number,
                kind: fault.kind,
            });
        }
        if self.number == u32::MAX {
            return Err(ReportRefused::Memory);
        }
        if let Place::Log(log_of, lines) = self.state.place {
            if lines > 0 {
                return self.feed_log(log_of, lines, text);
            }
        }
        let number = self.number + 1;
        match step(
            self.alloc,
            self.spec,
            self.obligations.as_slice(),
            &mut self.state,
            text,
        ) {
            Ok(told) => {
                self.number = number;
                self.budget = stated(told.budget, self.budget);
                Ok(told.fed)
            }
            Err(Refusal::Memory) => Err(ReportRefused::Memory),
            Err(Refusal::Line(kind)) => {
                self.fault = Some(Fault { number, kind });
                Err(ReportRefused::Line { number, kind })
            }
        }
    }

    /// Whether the lines were a whole report: the first fault, or the number behind the last line where one is missing.
    pub fn finish(&self) -> Result<(), ReportRefused>
        ensures { IsFinished self.now result }
    {
        if let Some(fault) = self.fault {
            return Err(ReportRefused::Line {
                number: fault.number,
                kind: fault.kind,
            });
        }
        if let Place::Over = self.state.place {
            return Ok(());
        }
        if self.number == u32::MAX {
            return Err(ReportRefused::Memory);
        }
        Err(ReportRefused::Line {
            number: self.number + 1,
            kind: ReportKind::Form,
        })
    }
}
