// What the line that may come at a place says.

ghost use Rattle.std.specs.Prelude.{◌≡◌, ◌==◌, ◌≤◌, length, ℕ};
ghost use Rattle.obligation_list.specs.Obligations.{obligations_of};
ghost use Rattle.report_lines.specs.{Formats.{read as read_as}, Words.{left, parts, Gives}};
ghost use Rattle.proof_report.specs.Verdicts.{obligation_at, obligation_count, const_at, may_drop};
ghost use Rattle.proof_report.specs.Verdicts.{relation_due, counter_due};
ghost use Rattle.proof_report.specs.Events.{told as told_of};
ghost use Rattle.proof_report.specs.Feeding.{last_of, line_at, title_line, budget_line, count_line};
ghost use Rattle.proof_report.specs.Feeding.{opened_line, begin_line, log_line, size_line};
ghost use Rattle.proof_report.specs.Feeding.{const_line, shown_line, rows_line, range_line};
ghost use Rattle.proof_report.specs.Feeding.{summary_line, last_line, due_line, drops_in};
ghost use Rattle.proof_report.specs.Feeding.{due_facts, due_readings, due_calls};

use crate::elements::element_count;
use crate::saying::{all_told, obligation_due, told};
use obligation_list::Obligation;
use proof_lines::Line;
use proof_report::event::Event;
use proof_report::place::{LogOf, PartialWitness, Place, Stage, State};
use proof_report::{const_name, sort_name};
use report_lines::evidence::{read_range, read_rows};
use report_lines::head::{
    Tally, read_budget, read_obligations, read_outcome, read_summary, read_title,
};
use report_lines::log::read_log_line;
use report_lines::verdict::{read_obligation, read_verdict};
use report_lines::witness::{Due, Fact, Reading, read_const, read_shown, read_size};
use report_lines::words::{ReadError, Words};
use spec_core::{Spec, World};
use std::alloc::Global;

fn title(words: Words<'_>) -> Result<(Event, Words<'_>), ReadError>
    ensures { Gives (λ x. (x.0, left x.1)) result (title_line.get (left words.entry)) }
{
    let (version, rest) = read_title(words)?;
    Ok((Event::Title(version), rest))
}

fn budget(words: Words<'_>) -> Result<(Event, Words<'_>), ReadError>
    ensures { Gives (λ x. (x.0, left x.1)) result (budget_line.get (left words.entry)) }
{
    let (budget, rest) = read_budget(words)?;
    Ok((Event::Budget(budget), rest))
}

fn count(words: Words<'_>) -> Result<(Event, Words<'_>), ReadError>
    ensures { Gives (λ x. (x.0, left x.1)) result (count_line.get (left words.entry)) }
{
    let (count, rest) = read_obligations(words)?;
    Ok((Event::Count(count), rest))
}

fn begin(words: Words<'_>) -> Result<(Event, Words<'_>), ReadError>
    ensures { Gives (λ x. (x.0, left x.1)) result (begin_line.get (left words.entry)) }
{
    let (word, rest) = read_verdict(words)?;
    Ok((Event::Begin(word), rest))
}

fn log(alloc: Global, drops: bool, words: Words<'_>) -> Result<(Event, Words<'_>), ReadError>
    ensures { Gives (λ x. (x.0, left x.1)) result ((log_line drops).get (left words.entry)) }
{
    let (line, rest) = read_log_line(alloc, drops, words)?;
    Ok((Event::Log(line), rest))
}

fn rows(alloc: Global, words: Words<'_>) -> Result<(Event, Words<'_>), ReadError>
    ensures { Gives (λ x. (x.0, left x.1)) result (rows_line.get (left words.entry)) }
{
    let (rows, rest) = read_rows(alloc, words)?;
    Ok((Event::Rows(rows), rest))
}

fn range(alloc: Global, words: Words<'_>) -> Result<(Event, Words<'_>), ReadError>
    ensures { Gives (λ x. (x.0, left x.1)) result (range_line.get (left words.entry)) }
{
    let (range, rest) = read_range(alloc, words)?;
    Ok((Event::Range(range), rest))
}

fn summary(words: Words<'_>) -> Result<(Event, Words<'_>), ReadError>
    ensures { Gives (λ x. (x.0, left x.1)) result (summary_line.get (left words.entry)) }
{
    let (tally, rest) = read_summary(words)?;
    Ok((Event::Summary(tally), rest))
}

fn last(words: Words<'_>) -> Result<(Event, Words<'_>), ReadError>
    ensures { Gives (λ x. (x.0, left x.1)) result (last_line.get (left words.entry)) }
{
    let (outcome, rest) = read_outcome(words)?;
    Ok((Event::Last(outcome), rest))
}

fn opened<'a>(
    spec: &Spec,
    obligation: Obligation,
    number: u64,
    words: Words<'a>,
) -> Result<(Event, Words<'a>), ReadError>
    requires { obligation ≡ obligation_at spec.now number }
    ensures { Gives (λ x. (x.0, left x.1)) result
        ((opened_line spec.now number).get (left words.entry)) }
{
    let (_, rest) = read_obligation(spec, obligation, words)?;
    Ok((Event::Opened(number), rest))
}

fn due<'a>(
    spec: &Spec,
    obligations: &[Obligation],
    tally: &Tally,
    words: Words<'a>,
) -> Result<(Event, Words<'a>), ReadError>
    requires { obligations.now ≡ obligations_of spec.now }
    ensures { Gives (λ x. (x.0, left x.1)) result
        ((due_line spec.now (told_of tally.now == obligation_count spec.now)
        (told_of tally.now)).get (left words.entry)) }
{
    if all_told(spec, obligations, tally) {
        return summary(words);
    }
    let obligation = obligation_due(spec, obligations, tally);
    opened(spec, obligation, told(tally), words)
}

fn size<'a>(spec: &Spec, world: &World, words: Words<'a>) -> Result<(Event, Words<'a>), ReadError>
    ensures { Gives (λ x. (x.0, left x.1)) result
        ((size_line spec.now (length world.now.sizes)).get (left words.entry)) }
{
    let place = world.sizes.len();
    let (size, rest) = read_size(words, sort_name(spec, place))?;
    Ok((Event::Size(place, size), rest))
}

fn const_sort(spec: &Spec, place: usize) -> u8
    ensures { result ≡ (const_at spec.now place).sort }
{
    match spec.consts.as_slice().get(place) {
        Some(constant) => constant.sort,
        None => 0,
    }
}

fn constant<'a>(
    spec: &Spec,
    world: &World,
    words: Words<'a>,
) -> Result<(Event, Words<'a>), ReadError>
    ensures { Gives (λ x. (x.0, left x.1)) result
        ((const_line spec.now world.now (length world.now.consts)).get (left words.entry)) }
{
    let place = world.consts.len();
    let size = world.size(const_sort(spec, place));
    let (element, rest) = read_const(words, const_name(spec, place), size)?;
    Ok((Event::Const(place, element), rest))
}

fn shown<'a>(
    alloc: Global,
    spec: &Spec,
    world: &World,
    due: Due,
    words: Words<'a>,
) -> Result<(Event, Words<'a>), ReadError>
    ensures { Gives (λ x. (x.0, left x.1)) result
        ((shown_line spec.now world.now due).get (left words.entry)) }
{
    let (shown, rest) = read_shown(alloc, spec, world, due, words)?;
    Ok((Event::Shown(shown), rest))
}

#[tactic(auto, using(crate::proofs::Ordered::last_is))]
fn relation_due(facts: &[Fact]) -> u8
    ensures { result ≡ relation_due (last_of facts.now) }
{
    match facts.last() {
        None => 0,
        Some(last) => last.relation,
    }
}

#[tactic(auto, using(crate::proofs::Ordered::last_is))]
fn counter_due(readings: &[Reading]) -> u8
    ensures { result ≡ counter_due (last_of readings.now) }
{
    match readings.last() {
        None => 0,
        Some(last) => last.counter,
    }
}

fn due_facts(spec: &Spec, obligation: Obligation, witness: &PartialWitness) -> Due
    ensures { result ≡ due_facts spec.now obligation witness.now }
{
    Due {
        relation: relation_due(witness.facts.as_slice()),
        counter: counter_due(witness.readings.as_slice()),
        elements: element_count(spec, obligation),
    }
}

fn due_readings(spec: &Spec, obligation: Obligation, witness: &PartialWitness) -> Due
    ensures { result ≡ due_readings spec.now obligation witness.now }
{
    spec.well_formed();
    Due {
        relation: spec.relations.len() as u8,
        counter: counter_due(witness.readings.as_slice()),
        elements: element_count(spec, obligation),
    }
}

fn due_calls(spec: &Spec, obligation: Obligation) -> Due
    ensures { result ≡ due_calls spec.now obligation }
{
    spec.well_formed();
    Due {
        relation: spec.relations.len() as u8,
        counter: spec.counters.len() as u8,
        elements: element_count(spec, obligation),
    }
}

/// Whether clauses may be dropped in such a log.
pub fn drops(version: u8, log: LogOf) -> bool
    ensures { result ≡ drops_in version log }
{
    match log {
        LogOf::Proved => version == 2,
        LogOf::Lines => false,
        LogOf::Rows => false,
        LogOf::Range => false,
    }
}

// What the line that may come says, and the words behind it.
fn front<'a>(
    alloc: Global,
    spec: &Spec,
    obligations: &[Obligation],
    state: &State,
    words: Words<'a>,
) -> Result<(Event, Words<'a>), ReadError>
    requires { obligations.now ≡ obligations_of spec.now }
    ensures { Gives (λ x. (x.0, left x.1)) result
        ((line_at spec.now state.now).get (left words.entry)) }
{
    match &state.place {
        Place::Title => title(words),
        Place::Budget => budget(words),
        Place::Count => count(words),
        Place::Due => due(spec, obligations, &state.tally, words),
        Place::Opened => begin(words),
        Place::Log(_, 0) => Err(ReadError::Form),
        Place::Log(log_of, _) => log(alloc, drops(state.version, *log_of), words),
        Place::Rows => rows(alloc, words),
        Place::Range => range(alloc, words),
        Place::Sizes(world) => size(spec, world, words),
        Place::Consts(world) => constant(spec, world, words),
        Place::Showing(Stage::Facts, witness) => {
            let obligation = obligation_due(spec, obligations, &state.tally);
            let due = due_facts(spec, obligation, witness);
            shown(alloc, spec, &witness.world, due, words)
        }
        Place::Showing(Stage::Readings, witness) => {
            let obligation = obligation_due(spec, obligations, &state.tally);
            let due = due_readings(spec, obligation, witness);
            shown(alloc, spec, &witness.world, due, words)
        }
        Place::Showing(Stage::Calls, witness) => {
            let obligation = obligation_due(spec, obligations, &state.tally);
            let due = due_calls(spec, obligation);
            shown(alloc, spec, &witness.world, due, words)
        }
        Place::Last => last(words),
        Place::Over => Err(ReadError::Form),
    }
}

/// The line of a log that a text is, in which clauses may be dropped or may not.
#[tactic(auto, unfolding(report_lines::specs::Formats::read))]
pub fn log_line(alloc: Global, drops: bool, text: &[u8]) -> Result<Line, ReadError>
    ensures { Gives (λ l. Event.Log l) result (read_as (log_line drops) (parts text.now)) }
{
    let (line, rest) = read_log_line(alloc, drops, Words::of(text))?;
    if !rest.is_over() {
        drop(line);
        return Err(ReadError::Form);
    }
    Ok(line)
}

/// What the line that may come says, if this is such a line.
#[tactic(auto, unfolding(report_lines::specs::Formats::read))]
pub fn line(
    alloc: Global,
    spec: &Spec,
    obligations: &[Obligation],
    state: &State,
    text: &[u8],
) -> Result<Event, ReadError>
    requires { obligations.now ≡ obligations_of spec.now }
    ensures { Gives (λ e. e) result (read_as (line_at spec.now state.now) (parts text.now)) }
{
    let (event, rest) = front(alloc, spec, obligations, state, Words::of(text))?;
    if !rest.is_over() {
        drop(event);
        return Err(ReadError::Form);
    }
    Ok(event)
}
