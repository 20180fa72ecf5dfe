// One line of a report.

ghost use Rattle.std.specs.Prelude.{◌≡◌, ◌<◌, true, ◌==◌};
ghost use Rattle.spec_core.specs.Specification.{Specification};
ghost use Rattle.obligation_list.specs.Obligations.{obligations_of};
ghost use Rattle.report_lines.specs.Words.{parts};
ghost use Rattle.proof_report.specs.Feeding.{line_at, unread, untrue};
ghost use Rattle.report_reader.specs.Reader.{IsKept, IsTaken, IsStep, budget_of};

use crate::moving::advance;
use crate::reading::line;
use crate::saying::{all_told, says};
use obligation_list::Obligation;
use proof_report::event::Event;
use proof_report::kind::ReportKind;
use proof_report::place::{Place, State};
use proof_report::verdict::Fed;
use report_lines::words::ReadError;
use spec_core::Spec;
use std::alloc::Global;

/// Why a line isn't taken.
#[derive(Clone, Copy)]
pub enum Refusal {
    Memory,
    Line(ReportKind),
}

/// What a line tells, and the budget that it states.
#[derive(Drop)]
pub struct Told {
    pub fed: Fed,
    pub budget: Option<u32>,
}

fn unread(spec: &Spec, obligations: &[Obligation], state: &State) -> ReportKind
    requires { obligations.now ≡ obligations_of spec.now }
    ensures { result ≡ unread spec.now state.now.tally state.now.place }
{
    match state.place {
        Place::Due => {
            if all_told(spec, obligations, &state.tally) {
                ReportKind::Form
            } else {
                ReportKind::Obligation
            }
        }
        _ => ReportKind::Form,
    }
}

fn untrue(event: &Event) -> ReportKind
    ensures { result ≡ untrue event.now }
{
    match event {
        Event::Count(_) => ReportKind::Obligation,
        Event::Summary(_) => ReportKind::Summary,
        Event::Last(_) => ReportKind::Summary,
        _ => ReportKind::Form,
    }
}

fn budget_of(event: &Event) -> Option<u32>
    ensures { result ≡ budget_of event.now }
{
    match event {
        Event::Budget(budget) => Some(*budget),
        _ => None,
    }
}

// Takes a line that says something.
#[tactic(auto, using(crate::proofs::Kept::few_told, crate::proofs::Kept::goes_on))]
fn take(
    alloc: Global,
    spec: &Spec,
    obligations: &[Obligation],
    state: &mut State,
    event: Event,
) -> Result<Told, Refusal>
    requires obligations { obligations.now ≡ obligations_of spec.now }
    requires kept { IsKept spec.now state.old.tally state.old.place }
    requires fits { (line_at spec.now state.old).fits event ≡ true }
    ensures taken { IsTaken spec.now state.old event state.new result }
    ensures kept { IsKept spec.now state.new.tally state.new.place }
{
    spec.well_formed();
    if !says(spec, obligations, state, &event) {
        let kind = untrue(&event);
        drop(event);
        return Err(Refusal::Line(kind));
    }
    let budget = budget_of(&event);
    match advance(alloc, spec, state, event) {
        Ok(fed) => Ok(Told { fed, budget }),
        Err(_) => Err(Refusal::Memory),
    }
}

/// Takes the next line. A refusal leaves the state as it was.
#[tactic(auto, using(crate::proofs::Kept::read_fits))]
pub fn step(
    alloc: Global,
    spec: &Spec,
    obligations: &[Obligation],
    state: &mut State,
    text: &[u8],
) -> Result<Told, Refusal>
    requires obligations { obligations.now ≡ obligations_of spec.now }
    requires kept { IsKept spec.now state.old.tally state.old.place }
    ensures step { IsStep spec.now state.old (parts text.now) state.new result }
    ensures kept { IsKept spec.now state.new.tally state.new.place }
{
    spec.well_formed();
    match line(alloc, spec, obligations, state, text) {
        Ok(event) => take(alloc, spec, obligations, state, event),
        Err(ReadError::Memory) => Err(Refusal::Memory),
        Err(ReadError::Form) => Err(Refusal::Line(unread(spec, obligations, state))),
    }
}
