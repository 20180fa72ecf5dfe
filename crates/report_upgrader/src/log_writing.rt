// The log of a proved verdict, upgraded from its bytes.
//
// Lines for which only themselves are written are copied together: any other line ends such a run, and so do
// 64 KiB. What is gathered is written as soon as it is so much, so that no
// more than that is held of a log that has millions of lines.
ghost use Rattle.std.specs.Prelude.{◌≡◌, ℕ, ◌+◌, ◌<◌, ◌≤◌, ◌++◌, [], List, Option, drop, length};
ghost use Rattle.std.specs.{Prelude.{take}, Prelude.{IfErr, IfOk, OnErr, OnOk}};
ghost use Rattle.byte_ports.specs.{Faults.{IsFault}, Written.{IsFrontWritten}};
ghost use Rattle.byte_ports.specs.declared.text.WriteOut.TheVariants.{Fault};
ghost use Rattle.proof_lines.specs.declared.line.Line.{Line as Given};
ghost use Rattle.proof_report.specs.Texts.{log_text};
ghost use Rattle.report_upgrader.specs.{UpgradedLogs.{upgraded}, Plans.{written_for}};
ghost use Rattle.report_upgrader.specs.Passing.{proved_text, say_log, IsText, IsPlanned};
ghost use Rattle.report_upgrader.specs.Passing.{IsGathered};
ghost use Rattle.report_bytes.specs.Bytes.{pieces};
ghost use Rattle.report_verifier.specs.Notes.{IsLong, IsPair, AreNoted};

use crate::gathering::write_much;
use crate::log_bytes::{behind_line, is_copied, put_line};
use crate::planning::{Rewritten, plan_log, planned};
use byte_ports::{Sink, WriteOut};
use report_lines::verdict::{VerdictWord, write_verdict_word};
use report_verifier::LineNote;
use std::alloc::Global;

/// The bytes of a report that are left to pass on, and the notes of their lines.
#[derive(Clone, Copy)]
pub struct LeftLines<'a> {
    pub bytes: &'a [u8],
    pub notes: &'a [LineNote],
}

/// The notes behind so many.
pub fn behind(notes: &[LineNote], count: u32) -> &[LineNote]
    ensures { result.now ≡ drop count notes.now }
{
    let place = count as usize;
    if place < notes.len() {
        return &notes[place..];
    }
    &[]
}

// Adds so many bytes as they are, and what comes for the line behind them; and writes what is gathered
// where it is much.
#[inline(never)]
fn write_next<K: Sink>(
    rewritten: Rewritten,
    note: &LineNote,
    from: &[u8],
    run: usize,
    text: &mut Vec<u8>,
    out: &mut K,
) -> Result<(), WriteOut>
    requires { run + note.now.len < length from.now }
    ensures ok { (h : IsLong note.now.len (drop run from.now)) (l : Given)
        → IsPair note.now.pair h.line → IsText l h.line
        → (whole rest : List ℕ) (before : Option (List ℕ))
        → IsGathered whole before (K.held out.old) (text.old.items ++ take run from.now)
        (log_text (written_for rewritten l) ++ rest)
        → OnOk result (IsGathered whole before (K.held out.new) text.new.items rest) }
    ensures front { (h : IsLong note.now.len (drop run from.now)) (l : Given)
        → IsPair note.now.pair h.line → IsText l h.line
        → (whole rest : List ℕ) (before : Option (List ℕ))
        → IsGathered whole before (K.held out.old) (text.old.items ++ take run from.now)
        (log_text (written_for rewritten l) ++ rest)
        → OnErr result (IsFrontWritten whole before (K.held out.new)) }
    ensures fault { IfErr result
        (λ why. why ≡ Fault → IsFault (K.faults out.old) (K.faults out.new)) }
    ensures never_falls { K.faults out.old ≤ K.faults out.new }
{
    match put_line(rewritten, note, from, run, text) {
        Ok(()) => write_much(text, out),
        Err(_) => Err(WriteOut::Memory),
    }
}

// Takes the next line behind so many bytes that are to be copied as they are: it is copied with them, or
// what comes for it is added behind them. Answers the bytes from those on that are to be copied now, and
// how many these are.
#[inline(always)]
fn take_next<'a, K: Sink>(
    rewritten: Rewritten,
    note: &LineNote,
    from: &'a [u8],
    run: usize,
    text: &mut Vec<u8>,
    out: &mut K,
) -> Result<(&'a [u8], usize), WriteOut>
    requires { run + note.now.len < length from.now }
    ensures ok { (h : IsLong note.now.len (drop run from.now)) (l : Given)
        → IsPair note.now.pair h.line → IsText l h.line
        → (whole rest : List ℕ) (before : Option (List ℕ))
        → IsGathered whole before (K.held out.old) (text.old.items ++ take run from.now)
        (log_text (written_for rewritten l) ++ rest)
        → IfOk result (λ x. IsGathered whole before (K.held out.new)
        (text.new.items ++ take x.1 x.0.now) rest) }
    ensures front { (h : IsLong note.now.len (drop run from.now)) (l : Given)
        → IsPair note.now.pair h.line → IsText l h.line
        → (whole rest : List ℕ) (before : Option (List ℕ))
        → IsGathered whole before (K.held out.old) (text.old.items ++ take run from.now)
        (log_text (written_for rewritten l) ++ rest)
        → OnErr result (IsFrontWritten whole before (K.held out.new)) }
    ensures fault { IfErr result
        (λ why. why ≡ Fault → IsFault (K.faults out.old) (K.faults out.new)) }
    ensures behind { (h : IsLong note.now.len (drop run from.now))
        → IfOk result (λ x. drop x.1 x.0.now ≡ h.behind) }
    ensures within { IfOk result (λ x. x.1 ≤ length x.0.now) }
    ensures fewer { IfOk result (λ x. length x.0.now ≤ length from.now) }
    ensures never_falls { K.faults out.old ≤ K.faults out.new }
{
    let len = note.len();
    if is_copied(rewritten, run) {
        return Ok((from, run + len + 1));
    }
    match write_next(rewritten, note, from, run, text, out) {
        Ok(()) => Ok((behind_line(from, run, len), 0)),
        Err(why) => Err(why),
    }
}

// Adds so many bytes as they are, and answers the lines behind them and behind so many notes.
fn copy_run<'a>(
    from: &'a [u8],
    run: usize,
    notes: &'a [LineNote],
    count: u32,
    text: &mut Vec<u8>,
) -> Result<LeftLines<'a>, WriteOut>
    requires { run ≤ length from.now }
    ensures copied { OnOk result (text.new.items ≡ text.old.items ++ take run from.now) }
    ensures bytes { IfOk result (λ left. left.bytes.now ≡ drop run from.now) }
    ensures notes { IfOk result (λ left. left.notes.now ≡ drop count notes.now) }
    ensures fault { IfErr result (λ why. why ≡ Fault → ⊥) }
{
    let Ok(()) = text.extend_from_slice(&from[..run]) else {
        return Err(WriteOut::Memory);
    };
    let notes = behind(notes, count);
    Ok(LeftLines {
        bytes: &from[run..],
        notes,
    })
}

// Writes the upgraded log of so many lines, by a plan of what is written for each. Answers the lines behind
// the log.
#[inline(never)]
fn write_lines<'a, K: Sink>(
    plan: &[Rewritten],
    count: u32,
    lines: LeftLines<'a>,
    text: &mut Vec<u8>,
    out: &mut K,
) -> Result<LeftLines<'a>, WriteOut>
    requires noted { AreNoted lines.notes.now lines.bytes.now }
    requires planned { count ≤ length plan.now }
    requires many { count ≤ length lines.notes.now }
    ensures ok { (ls : List Given) → IsPlanned ls count (pieces lines.entry.bytes.now) plan.now
        → (whole rest : List ℕ) (before : Option (List ℕ))
        → IsGathered whole before (K.held out.old) text.old.items
        (log_text (upgraded ls) ++ rest)
        → OnOk result (IsGathered whole before (K.held out.new) text.new.items rest) }
    ensures front { (ls : List Given) → IsPlanned ls count (pieces lines.entry.bytes.now) plan.now
        → (whole rest : List ℕ) (before : Option (List ℕ))
        → IsGathered whole before (K.held out.old) text.old.items
        (log_text (upgraded ls) ++ rest)
        → OnErr result (IsFrontWritten whole before (K.held out.new)) }
    ensures fault { IfErr result
        (λ why. why ≡ Fault → IsFault (K.faults out.old) (K.faults out.new)) }
    ensures behind { IfOk result
        (λ left. drop count (pieces lines.entry.bytes.now) ≡ pieces left.bytes.now) }
    ensures fewer { IfOk result (λ left. length left.bytes.now ≤ length lines.entry.bytes.now) }
    ensures noted { IfOk result (λ left. AreNoted left.notes.now left.bytes.now) }
    ensures never_falls { K.faults out.old ≤ K.faults out.new }
{
    let mut from = lines.bytes;
    let mut run: usize = 0;
    'lines: for taken in 0..count {
        let rewritten = planned(plan, taken);
        let note = &lines.notes[taken as usize];
        match take_next(rewritten, note, from, run, text, out) {
            Ok((next, more)) => {
                from = next;
                run = more;
            }
            Err(why) => return Err(why),
        }
    }
    copy_run(from, run, lines.notes, count, text)
}

// Writes a proved verdict with the upgraded log of so many lines, by a plan that is empty yet. Answers the
// lines behind the log.
fn write_log<'a, K: Sink>(
    alloc: Global,
    plan: &mut Vec<Rewritten>,
    count: u32,
    lines: LeftLines<'a>,
    text: &mut Vec<u8>,
    out: &mut K,
) -> Result<LeftLines<'a>, WriteOut>
    requires noted { AreNoted lines.notes.now lines.bytes.now }
    requires empty { plan.old.items ≡ [] }
    ensures ok { (ls : List Given) → length ls ≡ count → say_log ls (pieces lines.entry.bytes.now)
        → (whole rest : List ℕ) (before : Option (List ℕ))
        → IsGathered whole before (K.held out.old) text.old.items
        (proved_text (upgraded ls) ++ rest)
        → OnOk result (IsGathered whole before (K.held out.new) text.new.items rest) }
    ensures front { (ls : List Given) → length ls ≡ count
        → say_log ls (pieces lines.entry.bytes.now)
        → (whole rest : List ℕ) (before : Option (List ℕ))
        → IsGathered whole before (K.held out.old) text.old.items
        (proved_text (upgraded ls) ++ rest)
        → OnErr result (IsFrontWritten whole before (K.held out.new)) }
    ensures fault { IfErr result
        (λ why. why ≡ Fault → IsFault (K.faults out.old) (K.faults out.new)) }
    ensures behind { IfOk result
        (λ left. drop count (pieces lines.entry.bytes.now) ≡ pieces left.bytes.now) }
    ensures fewer { IfOk result (λ left. length left.bytes.now ≤ length lines.entry.bytes.now) }
    ensures noted { IfOk result (λ left. AreNoted left.notes.now left.bytes.now) }
    ensures never_falls { K.faults out.old ≤ K.faults out.new }
{
    let Ok(written) = plan_log(alloc, plan, count, lines.bytes, lines.notes) else {
        return Err(WriteOut::Memory);
    };
    match write_verdict_word(text, VerdictWord::Proved(written)) {
        Ok(()) => write_lines(plan.as_slice(), count, lines, text, out),
        Err(_) => Err(WriteOut::Memory),
    }
}

/// Writes a proved verdict with the upgraded log of so many lines, and answers the lines behind the log.
/// Where these lines aren't there, want of memory is answered.
pub fn pass_log<'a, K: Sink>(
    alloc: Global,
    count: u32,
    lines: LeftLines<'a>,
    text: &mut Vec<u8>,
    out: &mut K,
) -> Result<LeftLines<'a>, WriteOut>
    requires { AreNoted lines.notes.now lines.bytes.now }
    ensures ok { (ls : List Given) → length ls ≡ count → say_log ls (pieces lines.entry.bytes.now)
        → (whole rest : List ℕ) (before : Option (List ℕ))
        → IsGathered whole before (K.held out.old) text.old.items
        (proved_text (upgraded ls) ++ rest)
        → OnOk result (IsGathered whole before (K.held out.new) text.new.items rest) }
    ensures front { (ls : List Given) → length ls ≡ count
        → say_log ls (pieces lines.entry.bytes.now)
        → (whole rest : List ℕ) (before : Option (List ℕ))
        → IsGathered whole before (K.held out.old) text.old.items
        (proved_text (upgraded ls) ++ rest)
        → OnErr result (IsFrontWritten whole before (K.held out.new)) }
    ensures fault { IfErr result
        (λ why. why ≡ Fault → IsFault (K.faults out.old) (K.faults out.new)) }
    ensures behind { IfOk result
        (λ left. drop count (pieces lines.entry.bytes.now) ≡ pieces left.bytes.now) }
    ensures fewer { IfOk result (λ left. length left.bytes.now ≤ length lines.entry.bytes.now) }
    ensures noted { IfOk result (λ left. AreNoted left.notes.now left.bytes.now) }
    ensures never_falls { K.faults out.old ≤ K.faults out.new }
{
    let mut plan = Vec::new(alloc);
    let answer = write_log(alloc, &mut plan, count, lines, text, out);
    drop(plan);
    answer
}
