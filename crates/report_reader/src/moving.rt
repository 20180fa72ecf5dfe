// Where a reader stands behind a line, and what the line tells.

ghost use Rattle.std.specs.Prelude.{◌≡◌, ◌<◌, ℕ, [], OnOk, OnErr, IfOk, Some, None};
ghost use Rattle.spec_core.specs.Specification.{Specification};
ghost use Rattle.report_lines.specs.declared.witness.Shown.TheVariants.{At};
ghost use Rattle.proof_report.specs.Events.{told as told_of};
ghost use Rattle.proof_report.specs.Feeding.{after, begun, log_ended, log_left, one_less};
ghost use Rattle.proof_report.specs.Feeding.{no_witness, no_world, at_consts, at_sizes, sized};
ghost use Rattle.proof_report.specs.Feeding.{named, fact_at, reading_at, call_at, showed, shown_at};
ghost use Rattle.proof_report.specs.Feeding.{put_at};
ghost use Rattle.report_reader.specs.Reader.{IsKept, IsEnd, Tells, begun_end, log_end_at, ended_by};
ghost use Rattle.report_reader.specs.Reader.{begin_of, log_of_event, end_refuted};

use crate::showing::witness;
use items::Items;
use proof_lines::Line;
use proof_report::event::Event;
use proof_report::place::{LogOf, PartialWitness, Place, Stage, State};
use proof_report::verdict::{Ended, Fed};
use report_lines::evidence::{RangeLine, RowsLine};
use report_lines::verdict::VerdictWord;
use report_lines::witness::{Fact, Reading, Shown};
use spec_core::{Call, Spec, World};
use std::alloc::{AllocError, Global};
use std::mem;

// Puts another place. The place before is let go here alone, since that is dear to prove.
fn put(place: &mut Place, next: Place)
    ensures { place.new ≡ next }
{
    let before = mem::replace(place, next);
    drop(before);
}

// Behind the last line of a log.
fn log_ended(state: &mut State, log_of: LogOf)
    requires { told_of state.old.tally < 4294967295 }
    ensures { state.new ≡ log_ended log_of state.old.version state.old.tally }
{
    match log_of {
        LogOf::Proved => {
            state.tally.proved += 1;
            put(&mut state.place, Place::Due);
        }
        LogOf::Lines => {
            state.tally.undecided += 1;
            put(&mut state.place, Place::Due);
        }
        LogOf::Rows => put(&mut state.place, Place::Rows),
        LogOf::Range => put(&mut state.place, Place::Range),
    }
}

// Where so many lines of a log are left.
fn log_left(state: &mut State, log_of: LogOf, lines: u32)
    requires { told_of state.old.tally < 4294967295 }
    ensures { state.new ≡ log_left log_of lines state.old.version state.old.tally }
{
    if lines == 0 {
        log_ended(state, log_of);
    } else {
        put(&mut state.place, Place::Log(log_of, lines));
    }
}

/// Moves the state behind a line of a log.
pub fn one_less(state: &mut State)
    requires { told_of state.old.tally < 4294967295 }
    ensures { state.new ≡ one_less state.old.place state.old.version state.old.tally }
{
    if let Place::Log(log_of, lines) = state.place {
        if lines > 0 {
            log_left(state, log_of, lines - 1);
        }
    }
}

fn no_witness(alloc: Global, world: World) -> PartialWitness
    ensures { result ≡ no_witness world }
{
    PartialWitness {
        world,
        facts: Items::new(alloc),
        readings: Items::new(alloc),
        calls: Items::new(alloc),
    }
}

fn no_world(alloc: Global) -> World
    ensures { result ≡ no_world }
{
    World {
        sizes: Items::new(alloc),
        consts: Items::new(alloc),
    }
}

// Where the world has its sizes.
fn at_consts(alloc: Global, spec: &Spec, world: World) -> Place
    ensures { result ≡ at_consts spec.now world }
{
    if world.consts.len() == spec.consts.len() {
        return Place::Showing(Stage::Facts, no_witness(alloc, world));
    }
    Place::Consts(world)
}

fn at_sizes(alloc: Global, spec: &Spec, world: World) -> Place
    ensures { result ≡ at_sizes spec.now world }
{
    if world.sizes.len() == spec.sorts.len() {
        return at_consts(alloc, spec, world);
    }
    Place::Sizes(world)
}

fn sized(alloc: Global, spec: &Spec, place: &mut Place, size: u32) -> Result<(), AllocError>
    ensures ok { OnOk result (place.new ≡ sized spec.now size place.old) }
    ensures err { OnErr result (place.new ≡ place.old) }
{
    if let Place::Sizes(world) = place {
        world.sizes.push(size)?;
        let world = mem::replace(world, no_world(alloc));
        put(place, at_sizes(alloc, spec, world));
    }
    Ok(())
}

fn named(alloc: Global, spec: &Spec, place: &mut Place, element: u32) -> Result<(), AllocError>
    ensures ok { OnOk result (place.new ≡ named spec.now element place.old) }
    ensures err { OnErr result (place.new ≡ place.old) }
{
    if let Place::Consts(world) = place {
        world.consts.push(element)?;
        let world = mem::replace(world, no_world(alloc));
        put(place, at_consts(alloc, spec, world));
    }
    Ok(())
}

fn fact_at(place: &mut Place, fact: Fact) -> Result<(), AllocError>
    ensures ok { OnOk result (place.new ≡ fact_at fact place.old) }
    ensures err { OnErr result (place.new ≡ place.old) }
{
    if let Place::Showing(Stage::Facts, shown) = place {
        shown.facts.push(fact)?;
    }
    Ok(())
}

fn reading_at(place: &mut Place, reading: Reading) -> Result<(), AllocError>
    ensures ok { OnOk result (place.new ≡ reading_at reading place.old) }
    ensures err { OnErr result (place.new ≡ place.old) }
{
    match place {
        Place::Showing(Stage::Calls, _) => Ok(()),
        Place::Showing(stage, shown) => {
            shown.readings.push(reading)?;
            *stage = Stage::Readings;
            Ok(())
        }
        _ => Ok(()),
    }
}

fn call_at(place: &mut Place, call: Call) -> Result<(), AllocError>
    ensures ok { OnOk result (place.new ≡ call_at call place.old) }
    ensures err { OnErr result (place.new ≡ place.old) }
{
    if let Place::Showing(stage, shown) = place {
        shown.calls.push(call)?;
        *stage = Stage::Calls;
    }
    Ok(())
}

// The verdict that a line begins.
fn begun(alloc: Global, spec: &Spec, state: &mut State, word: VerdictWord)
    requires { told_of state.old.tally < 4294967295 }
    ensures { state.new ≡ begun spec.now word state.old.version state.old.tally }
{
    match word {
        VerdictWord::Proved(lines) => log_left(state, LogOf::Proved, lines),
        VerdictWord::Refuted => put(&mut state.place, at_sizes(alloc, spec, no_world(alloc))),
        VerdictWord::Instances => {
            state.tally.undecided += 1;
            put(&mut state.place, Place::Due);
        }
        VerdictWord::Lines(lines) => log_left(state, LogOf::Lines, lines),
        VerdictWord::Rows(lines) => log_left(state, LogOf::Rows, lines),
        VerdictWord::Range(lines) => log_left(state, LogOf::Range, lines),
    }
}

// What ends with the line that begins a verdict.
fn begun_end(word: VerdictWord) -> Option<Ended>
    ensures { (d : Specification) → IsEnd d (begun_end word) result }
{
    match word {
        VerdictWord::Proved(0) => Some(Ended::Proved),
        VerdictWord::Instances => Some(Ended::Instances),
        VerdictWord::Lines(0) => Some(Ended::Lines),
        _ => None,
    }
}

/// What ends with a line of a log.
pub fn log_end(place: &Place) -> Option<Ended>
    ensures { (d : Specification) → IsEnd d (log_end_at place.now) result }
{
    match place {
        Place::Log(LogOf::Proved, 1) => Some(Ended::Proved),
        Place::Log(LogOf::Lines, 1) => Some(Ended::Lines),
        _ => None,
    }
}

// The end of a witness.
fn end_of_witness(
    alloc: Global,
    spec: &Spec,
    state: &mut State,
    elements: Items<u32>,
) -> Result<Ended, AllocError>
    requires few { told_of state.old.tally < 4294967295 }
    requires kept { IsKept spec.now state.old.tally state.old.place }
    ensures ok { OnOk result (state.new ≡ showed (At elements) state.old) }
    ensures err { OnErr result (state.new ≡ state.old) }
    ensures ended { IfOk result (λ e. IsEnd spec.now
        (Some (end_refuted (shown_at state.old.place) elements)) (Some e)) }
{
    let shown = match &state.place {
        Place::Showing(_, shown) => shown,
        // Elements are read at no other place.
        _ => return Err(AllocError),
    };
    let witness = witness(alloc, spec, shown, elements)?;
    state.tally.refuted += 1;
    put(&mut state.place, Place::Due);
    Ok(Ended::Refuted(witness))
}

fn showed(
    alloc: Global,
    spec: &Spec,
    state: &mut State,
    shown: Shown,
) -> Result<Option<Ended>, AllocError>
    requires few { told_of state.old.tally < 4294967295 }
    requires kept { IsKept spec.now state.old.tally state.old.place }
    ensures ok { OnOk result (state.new ≡ showed shown state.old) }
    ensures err { OnErr result (state.new ≡ state.old) }
    ensures ended { IfOk result (λ e. IsEnd spec.now (ended_by state.old (Event.Shown shown)) e) }
{
    match shown {
        Shown::Fact(fact) => {
            fact_at(&mut state.place, fact)?;
            Ok(None)
        }
        Shown::Reading(reading) => {
            reading_at(&mut state.place, reading)?;
            Ok(None)
        }
        Shown::Call(call) => {
            call_at(&mut state.place, call)?;
            Ok(None)
        }
        Shown::At(elements) => {
            let ended = end_of_witness(alloc, spec, state, elements)?;
            Ok(Some(ended))
        }
    }
}

fn told(begin: Option<VerdictWord>, log: Option<Line>, ended: Option<Ended>) -> Fed
    ensures begin { result.begin ≡ begin }
    ensures log { result.log ≡ log }
    ensures ended { result.ended ≡ ended }
{
    Fed { begin, log, ended }
}

fn begin_told(alloc: Global, spec: &Spec, state: &mut State, word: VerdictWord) -> Fed
    requires { told_of state.old.tally < 4294967295 }
    ensures state { state.new ≡ after spec.now state.old (Event.Begin word) }
    ensures tells { Tells spec.now state.old (Event.Begin word) result }
{
    begun(alloc, spec, state, word);
    told(Some(word), None, begun_end(word))
}

fn log_told(spec: &Spec, state: &mut State, line: Line) -> Fed
    requires { told_of state.old.tally < 4294967295 }
    ensures state { state.new ≡ after spec.now state.old (Event.Log line) }
    ensures tells { Tells spec.now state.old (Event.Log line) result }
{
    let ended = log_end(&state.place);
    one_less(state);
    told(None, Some(line), ended)
}

fn shown_told(
    alloc: Global,
    spec: &Spec,
    state: &mut State,
    shown: Shown,
) -> Result<Fed, AllocError>
    requires few { told_of state.old.tally < 4294967295 }
    requires kept { IsKept spec.now state.old.tally state.old.place }
    ensures ok { OnOk result (state.new ≡ after spec.now state.old (Event.Shown shown)) }
    ensures err { OnErr result (state.new ≡ state.old) }
    ensures tells { IfOk result (λ f. Tells spec.now state.old (Event.Shown shown) f) }
{
    let ended = showed(alloc, spec, state, shown)?;
    Ok(told(None, None, ended))
}

fn rows_told(spec: &Spec, state: &mut State, rows: RowsLine) -> Fed
    requires { told_of state.old.tally < 4294967295 }
    ensures state { state.new ≡ after spec.now state.old (Event.Rows rows) }
    ensures tells { Tells spec.now state.old (Event.Rows rows) result }
{
    state.tally.undecided += 1;
    put(&mut state.place, Place::Due);
    told(None, None, Some(Ended::Rows(rows.used, rows.steps)))
}

fn range_told(spec: &Spec, state: &mut State, range: RangeLine) -> Fed
    requires { told_of state.old.tally < 4294967295 }
    ensures state { state.new ≡ after spec.now state.old (Event.Range range) }
    ensures tells { Tells spec.now state.old (Event.Range range) result }
{
    state.tally.undecided += 1;
    put(&mut state.place, Place::Due);
    told(
        None,
        None,
        Some(Ended::Range(range.used, range.steps, range.what)),
    )
}

// Behind a line that stands once, or begins a block.
fn placed(state: &mut State, place: Place) -> Fed
    ensures state { state.new ≡ put_at state.old place }
    ensures begin { result.begin ≡ None }
    ensures log { result.log ≡ None }
    ensures ended { result.ended ≡ None }
{
    put(&mut state.place, place);
    told(None, None, None)
}

fn title_told(spec: &Spec, state: &mut State, version: u8) -> Fed
    ensures state { state.new ≡ after spec.now state.old (Event.Title version) }
    ensures tells { Tells spec.now state.old (Event.Title version) result }
{
    state.version = version;
    put(&mut state.place, Place::Budget);
    told(None, None, None)
}

fn size_told(
    alloc: Global,
    spec: &Spec,
    state: &mut State,
    place: usize,
    size: u32,
) -> Result<Fed, AllocError>
    ensures ok { OnOk result (state.new ≡ after spec.now state.old (Event.Size place size)) }
    ensures err { OnErr result (state.new ≡ state.old) }
    ensures tells { IfOk result (λ f. Tells spec.now state.old (Event.Size place size) f) }
{
    sized(alloc, spec, &mut state.place, size)?;
    Ok(told(None, None, None))
}

fn const_told(
    alloc: Global,
    spec: &Spec,
    state: &mut State,
    place: usize,
    element: u32,
) -> Result<Fed, AllocError>
    ensures ok { OnOk result (state.new ≡ after spec.now state.old (Event.Const place element)) }
    ensures err { OnErr result (state.new ≡ state.old) }
    ensures tells { IfOk result (λ f. Tells spec.now state.old (Event.Const place element) f) }
{
    named(alloc, spec, &mut state.place, element)?;
    Ok(told(None, None, None))
}

/// Moves the state behind a line, and tells what the line says. A refusal leaves the state as it was.
pub fn advance(
    alloc: Global,
    spec: &Spec,
    state: &mut State,
    event: Event,
) -> Result<Fed, AllocError>
    requires few { told_of state.old.tally < 4294967295 }
    requires kept { IsKept spec.now state.old.tally state.old.place }
    ensures ok { OnOk result (state.new ≡ after spec.now state.old event) }
    ensures err { OnErr result (state.new ≡ state.old) }
    ensures tells { IfOk result (λ f. Tells spec.now state.old event f) }
{
    match event {
        Event::Title(version) => Ok(title_told(spec, state, version)),
        Event::Budget(_) => Ok(placed(state, Place::Count)),
        Event::Count(_) => Ok(placed(state, Place::Due)),
        Event::Opened(_) => Ok(placed(state, Place::Opened)),
        Event::Begin(word) => Ok(begin_told(alloc, spec, state, word)),
        Event::Log(line) => Ok(log_told(spec, state, line)),
        Event::Size(place, size) => size_told(alloc, spec, state, place, size),
        Event::Const(place, element) => const_told(alloc, spec, state, place, element),
        Event::Shown(shown) => shown_told(alloc, spec, state, shown),
        Event::Rows(rows) => Ok(rows_told(spec, state, rows)),
        Event::Range(range) => Ok(range_told(spec, state, range)),
        Event::Summary(_) => Ok(placed(state, Place::Last)),
        Event::Last(_) => Ok(placed(state, Place::Over)),
    }
}
