// What is written for each line of a log, found before any of it is written.
//
// A clause is dropped behind the last line that names it, so the lines are gone through from the last one on: then it is known at each
// line which clauses the later ones name. A table of these has a byte for each clause, and at most an eighth more; the plan has a byte for
// each line. How many lines the upgraded log has comes with it, which stands before the log.
ghost use Rattle.std.specs.Prelude.{◌≡◌, ℕ, ◌+◌, ◌==◌, ◌<◌, ◌≤◌, ◌||◌, ◌∷◌, [], List, false};
ghost use Rattle.std.specs.{Prelude.{length}, Prelude.{slice_index_or, IfOk, OnOk}};
ghost use Rattle.proof_lines.specs.declared.line.Line.{Line as Given};
ghost use Rattle.report_upgrader.specs.UpgradedLogs.{upgraded};
ghost use Rattle.report_upgrader.specs.Plans.{IsKind, IsSeen, place_of, with_drops, written_by};
ghost use Rattle.report_upgrader.specs.{Plans.{written_for, AreWritten}, Passing.{say_log}};
ghost use Rattle.report_bytes.specs.Bytes.{pieces};
ghost use Rattle.report_verifier.specs.Notes.{AreNotedTo};

use crate::log_bytes::{LogLine, kind_noted, line_at};
use report_verifier::LineNote;
use std::alloc::{AllocError, Global};

/// What is written for a line of a log.
#[derive(Clone, Copy)]
pub enum Rewritten {
    /// It alone.
    Alone,
    /// It, and a Drop line of the first of the two clauses that it resolves.
    DropsFirst,
    /// It, and a Drop line of the second one.
    DropsSecond,
    /// It, and a Drop line of both.
    DropsBoth,
    /// Nothing, since it drops clauses.
    Nothing,
}

// A longer table, with a place for a clause that it had none for, and for an eighth as many further ones.
#[cold]
#[inline(never)]
fn grow(seen: &mut Vec<bool>, place: usize) -> Result<(), AllocError>
    requires longer { length seen.old.items ≤ place }
    requires within { place < 4294967296 }
    ensures same { OnOk result ((n : ℕ) → slice_index_or seen.new.items n false
        ≡ slice_index_or seen.old.items n false) }
    ensures room { OnOk result (place < length seen.new.items) }
{
    seen.resize(place + 1 + place / 8, false)
}

// A table that has a place for a clause.
#[inline(always)]
fn make_room(seen: &mut Vec<bool>, number: u32) -> Result<(), AllocError>
    ensures same { OnOk result ((n : ℕ) → slice_index_or seen.new.items n false
        ≡ slice_index_or seen.old.items n false) }
    ensures room { OnOk result (number < length seen.new.items) }
{
    let place = number as usize;
    if place < seen.len() {
        return Ok(());
    }
    grow(seen, place)
}

// Notes in a table that a line names a clause, and answers whether a later one does.
#[inline(always)]
fn see(seen: &mut Vec<bool>, number: u32) -> Result<bool, AllocError>
    ensures later { IfOk result (λ b. b ≡ slice_index_or seen.old.items number false) }
    ensures noted { OnOk result ((n : ℕ) → slice_index_or seen.new.items n false
        ≡ ((number == n) || slice_index_or seen.old.items n false)) }
{
    make_room(seen, number)?;
    let later = seen[number as usize];
    seen[number as usize] = true;
    Ok(later)
}

// What is written for a line that resolves two clauses, by whether later lines name them. The second counts
// as named by a later line where it is the first one again.
#[inline(always)]
fn rewritten_by(first_later: bool, second_later: bool) -> Rewritten
    ensures { result ≡ written_by first_later second_later }
{
    if first_later {
        if second_later {
            Rewritten::Alone
        } else {
            Rewritten::DropsSecond
        }
    } else if second_later {
        Rewritten::DropsFirst
    } else {
        Rewritten::DropsBoth
    }
}

// Notes in a table of the clauses that later lines name which ones a line of this kind names, and answers
// what is written for it.
#[inline(always)]
fn see_kind(seen: &mut Vec<bool>, kind: LogLine) -> Result<Rewritten, AllocError>
    ensures seen { (l : Given) (later : List Given) → IsKind kind l → IsSeen seen.old.items later
        → OnOk result (IsSeen seen.new.items (l ∷ later)) }
    ensures written { (l : Given) (later : List Given) → IsKind kind l → IsSeen seen.old.items later
        → IfOk result (λ x. written_for x l ≡ with_drops l later) }
{
    match kind {
        LogLine::Resolve(left, right) => {
            let first_later = see(seen, left)?;
            let second_later = see(seen, right)?;
            Ok(rewritten_by(first_later, second_later))
        }
        LogLine::Drop => Ok(Rewritten::Nothing),
        LogLine::Other => Ok(Rewritten::Alone),
    }
}

// How many lines are written for a line.
#[inline(always)]
fn line_count(rewritten: Rewritten) -> u32
    ensures { (l : Given) → result ≡ length (written_for rewritten l) }
{
    match rewritten {
        Rewritten::Nothing => 0,
        Rewritten::Alone => 1,
        _ => 2,
    }
}

// The sum of two numbers of lines; more than a report can count are answered as want of memory.
fn sum(count: u32, more: u32) -> Result<u32, AllocError>
    ensures { IfOk result (λ n. n ≡ count + more) }
{
    match count.checked_add(more) {
        Some(sum) => Ok(sum),
        None => Err(AllocError),
    }
}

// Where the line behind one stands that stands there and is so long.
#[inline(always)]
fn place_behind(lines: &[u8], place: usize, len: usize) -> usize
    requires { place + len < length lines.now }
    ensures { result ≡ place + len + 1 }
{
    let _ = lines;
    place + len + 1
}

// How many bytes so many lines take.
fn lines_len(count: u32, lines: &[u8], notes: &[LineNote]) -> usize
    requires noted { (end : List ℕ) × AreNotedTo notes.now lines.now end }
    requires many { count ≤ length notes.now }
    ensures { result ≡ place_of notes.now count }
{
    let mut place: usize = 0;
    'lines: for taken in 0..count {
        place = place_behind(lines, place, notes[taken as usize].len());
    }
    place
}

// Puts what is written for each of so many lines into a plan of that length, from the last one on, by a table
// that is empty yet. Answers how many lines are written.
#[inline(never)]
fn plan_lines(
    seen: &mut Vec<bool>,
    plan: &mut Vec<Rewritten>,
    count: u32,
    lines: &[u8],
    notes: &[LineNote],
) -> Result<u32, AllocError>
    requires noted { (end : List ℕ) × AreNotedTo notes.now lines.now end }
    requires many { count ≤ length notes.now }
    requires long { length plan.old.items ≡ count }
    requires empty { seen.old.items ≡ [] }
    ensures plan { (ls : List Given) → length ls ≡ count → say_log ls (pieces lines.now)
        → OnOk result (AreWritten plan.new.items ls) }
    ensures lines { (ls : List Given) → length ls ≡ count → say_log ls (pieces lines.now)
        → IfOk result (λ n. n ≡ length (upgraded ls)) }
    ensures long { OnOk result (length plan.new.items ≡ count) }
{
    let mut place = lines_len(count, lines, notes);
    let mut written: u32 = 0;
    'lines: for taken in 0..count {
        let at = (count - taken - 1) as usize;
        let note = &notes[at];
        let len = note.len();
        place = place - len - 1;
        let kind = kind_noted(note, line_at(lines, place, len))?;
        let rewritten = see_kind(seen, kind)?;
        plan[at] = rewritten;
        written = sum(written, line_count(rewritten))?;
    }
    Ok(written)
}

/// Puts what is written for each of so many lines into a plan that is empty yet, and answers how many lines these are. Where
/// so many lines weren't noted, want of memory is answered.
pub(crate) fn plan_log(
    alloc: Global,
    plan: &mut Vec<Rewritten>,
    count: u32,
    lines: &[u8],
    notes: &[LineNote],
) -> Result<u32, AllocError>
    requires noted { (end : List ℕ) × AreNotedTo notes.now lines.now end }
    requires empty { plan.old.items ≡ [] }
    ensures plan { (ls : List Given) → length ls ≡ count → say_log ls (pieces lines.now)
        → OnOk result (AreWritten plan.new.items ls) }
    ensures lines { (ls : List Given) → length ls ≡ count → say_log ls (pieces lines.now)
        → IfOk result (λ n. n ≡ length (upgraded ls)) }
    ensures long { OnOk result (length plan.new.items ≡ count) }
    ensures many { OnOk result (count ≤ length notes.now) }
{
    if notes.len() < count as usize {
        return Err(AllocError);
    }
    plan.resize(count as usize, Rewritten::Alone)?;
    let mut seen = Vec::new(alloc);
    let answer = plan_lines(&mut seen, plan, count, lines, notes);
    drop(seen);
    answer
}

/// What is written for a line, by the plan of its log.
#[inline(always)]
pub(crate) fn planned(plan: &[Rewritten], at: u32) -> Rewritten
    requires { at < length plan.now }
    ensures { result ≡ slice_index_or plan.now at result }
{
    plan[at as usize]
}
