// The lines of a log, looked at in its bytes.
//
// The lines of a report that stands aren't built anew: all that upgrading has to know of a line is
// which clauses it names, and only lines that resolve two clauses name some. Of most of them that was
// noted as they were verified, and how long each line is; the others are read here. The lines of a log
// are gone through twice: `planning` finds what is written for each, and `log_writing` writes it.
ghost use Rattle.std.specs.Prelude.{◌≡◌, ℕ, ◌+◌, ◌<◌, ◌≤◌, ◌++◌, ◌∷◌, [], List, true, codes};
ghost use Rattle.std.specs.{Prelude.{drop, length, take, IfOk, OnOk, Some}, Str.{bytes_eq}};
ghost use Rattle.proof_lines.specs.declared.line.Line.{Line as Given};
ghost use Rattle.proof_lines.specs.declared.line.Line.TheVariants.{Drop as DropLine};
ghost use Rattle.report_upgrader.specs.UpgradedLogs.{rising};
ghost use Rattle.report_upgrader.specs.Plans.{IsKind, dropped_by, dropped_from, written_for};
ghost use Rattle.report_upgrader.specs.{Plans.{IsWritten}, Passing.{IsText}};
ghost use Rattle.report_lines.specs.{Logs.{line_format}, Words.{left}};
ghost use Rattle.report_verifier.specs.Notes.{IsLong, IsPair};

use crate::gathering::MANY;
use crate::planning::Rewritten;
use report_lines::fields::count;
use report_lines::words::{Words, next};
use report_lines::writing::put_number;
use report_verifier::LineNote;
use std::alloc::AllocError;

/// What upgrading has to know of a line of a log.
#[derive(Clone, Copy)]
pub enum LogLine {
    Resolve(u32, u32),
    Drop,
    Other,
}

// The two clauses behind the first word of a line that resolves them.
fn resolve_line(word: &[u8], rest: Words<'_>) -> Result<LogLine, AllocError>
    ensures { (l : Given) → word.now ∷ left rest.entry ≡ line_format.put l
        → line_format.fits l ≡ true → bytes_eq word.now (codes "r") ≡ true
        → IfOk result (λ k. IsKind k l) }
{
    let Ok((left, rest)) = count(rest) else {
        return Err(AllocError);
    };
    let Ok((right, _)) = count(rest) else {
        return Err(AllocError);
    };
    Ok(LogLine::Resolve(left, right))
}

// What a line of a log is, by its first word.
#[inline(never)]
#[tactic(auto, using(crate::proofs::LineKinds::drop_kind, crate::proofs::LineKinds::other_kind))]
fn kind_of(line: &[u8]) -> Result<LogLine, AllocError>
    ensures { (l : Given) → IsText l line.now → IfOk result (λ k. IsKind k l) }
{
    let Ok((word, rest)) = next(Words::of(line)) else {
        return Err(AllocError);
    };
    if word == b"r".as_slice() {
        return resolve_line(word, rest);
    }
    if word == b"d".as_slice() {
        return Ok(LogLine::Drop);
    }
    Ok(LogLine::Other)
}

// A line of which it was noted that it resolves two clauses.
#[inline(always)]
fn noted_pair(left: u32, right: u32, line: &[u8]) -> LogLine
    ensures { (l : Given) → IsPair (Some (record { left = left; right = right })) line.now
        → IsText l line.now → IsKind result l }
{
    let _ = line;
    LogLine::Resolve(left, right)
}

// What a line of a log is: two clauses that it resolves, where they were noted, or else what its first
// word says.
#[inline(always)]
pub(crate) fn kind_noted(note: &LineNote, line: &[u8]) -> Result<LogLine, AllocError>
    ensures { (l : Given) → IsPair note.now.pair line.now → IsText l line.now
        → IfOk result (λ k. IsKind k l) }
{
    match note.pair() {
        Some(pair) => Ok(noted_pair(pair.left, pair.right, line)),
        None => kind_of(line),
    }
}

// A line that is so long, and the bytes behind its line feed.
#[inline(always)]
pub(crate) fn cut_line(bytes: &[u8], len: usize) -> (&[u8], &[u8])
    requires { len < length bytes.now }
    ensures { (h : IsLong len bytes.now) → (result.0.now ≡ h.line) × (result.1.now ≡ h.behind) }
{
    (&bytes[..len], &bytes[len + 1..])
}

// The line that stands behind so many bytes and is so long.
#[inline(always)]
pub(crate) fn line_at(bytes: &[u8], place: usize, len: usize) -> &[u8]
    requires { place + len < length bytes.now }
    ensures { (h : IsLong len (drop place bytes.now)) → result.now ≡ h.line }
{
    &bytes[place..place + len]
}

// So many bytes.
#[inline(always)]
fn front_of(bytes: &[u8], count: usize) -> &[u8]
    requires { count ≤ length bytes.now }
    ensures { result.now ≡ take count bytes.now }
{
    &bytes[..count]
}

// So many bytes, and the line behind them that is so long, with its line feed.
#[inline(always)]
fn with_line(bytes: &[u8], place: usize, len: usize) -> &[u8]
    requires { place + len < length bytes.now }
    ensures { (h : IsLong len (drop place bytes.now))
        → result.now ≡ take place bytes.now ++ (h.line ++ 10 ∷ []) }
{
    &bytes[..place + len + 1]
}

// What stands behind the line that stands behind so many bytes and is so long.
#[inline(always)]
pub(crate) fn behind_line(bytes: &[u8], place: usize, len: usize) -> &[u8]
    requires { place + len < length bytes.now }
    ensures { result.now ≡ drop (place + len + 1) bytes.now }
{
    &bytes[place + len + 1..]
}

// Whether only the line itself is written, and few bytes before it are to be copied as they are.
#[inline(always)]
pub(crate) fn is_copied(rewritten: Rewritten, run: usize) -> bool
    ensures { result ≡ true → (l : Given) → written_for rewritten l ≡ l ∷ [] }
{
    match rewritten {
        Rewritten::Alone => run < MANY,
        _ => false,
    }
}

// Adds a Drop line of one clause.
#[inline(never)]
fn write_single(clause: u32, out: &mut Vec<u8>) -> Result<(), AllocError>
    ensures { OnOk result (IsWritten (DropLine (clause ∷ []) ∷ []) out.old.items out.new.items) }
{
    out.extend_from_slice(b"d 1")?;
    put_number(out, clause as u64)?;
    out.push(b'\n')?;
    Ok(())
}

// Adds a Drop line of two clauses.
#[inline(never)]
fn write_pair(first: u32, second: u32, out: &mut Vec<u8>) -> Result<(), AllocError>
    ensures { OnOk result (IsWritten (DropLine (first ∷ second ∷ []) ∷ [])
        out.old.items out.new.items) }
{
    out.extend_from_slice(b"d 2")?;
    put_number(out, first as u64)?;
    put_number(out, second as u64)?;
    out.push(b'\n')?;
    Ok(())
}

// Adds a Drop line of these clauses, in rising order and each once.
fn write_both(left: u32, right: u32, out: &mut Vec<u8>) -> Result<(), AllocError>
    ensures { OnOk result (IsWritten (DropLine (rising left right) ∷ [])
        out.old.items out.new.items) }
{
    if left == right {
        return write_single(left, out);
    }
    if left < right {
        write_pair(left, right, out)
    } else {
        write_pair(right, left, out)
    }
}

// Adds the Drop line that is written behind a line that resolves these clauses.
#[inline(always)]
fn write_drops(
    rewritten: Rewritten,
    left: u32,
    right: u32,
    out: &mut Vec<u8>,
) -> Result<(), AllocError>
    ensures { OnOk result
        (IsWritten (dropped_by rewritten left right) out.old.items out.new.items) }
{
    match rewritten {
        Rewritten::DropsFirst => write_single(left, out),
        Rewritten::DropsSecond => write_single(right, out),
        Rewritten::DropsBoth => write_both(left, right, out),
        _ => Ok(()),
    }
}

// Adds lines as they are, and the Drop line that is written behind the last of them. Where that resolves no
// clauses, want of memory is answered.
#[inline(always)]
fn write_resolve(
    rewritten: Rewritten,
    kind: LogLine,
    ended: &[u8],
    out: &mut Vec<u8>,
) -> Result<(), AllocError>
    ensures { (l : Given) (front line : List ℕ) → ended.now ≡ front ++ (line ++ 10 ∷ [])
        → IsText l line → IsKind kind l
        → OnOk result (IsWritten (l ∷ dropped_from rewritten l) (out.old.items ++ front)
        out.new.items) }
{
    match kind {
        LogLine::Resolve(left, right) => {
            out.extend_from_slice(ended)?;
            write_drops(rewritten, left, right, out)
        }
        _ => Err(AllocError),
    }
}

// Adds lines as they are, and what is written for the line behind them.
#[inline(always)]
fn write_line(
    rewritten: Rewritten,
    note: &LineNote,
    line: &[u8],
    front: &[u8],
    ended: &[u8],
    out: &mut Vec<u8>,
) -> Result<(), AllocError>
    ensures { (l : Given) → ended.now ≡ front.now ++ (line.now ++ 10 ∷ [])
        → IsPair note.now.pair line.now → IsText l line.now
        → OnOk result
        (IsWritten (written_for rewritten l) (out.old.items ++ front.now) out.new.items) }
{
    match rewritten {
        Rewritten::Nothing => out.extend_from_slice(front),
        Rewritten::Alone => out.extend_from_slice(ended),
        _ => {
            let kind = kind_noted(note, line)?;
            write_resolve(rewritten, kind, ended, out)
        }
    }
}

// Adds so many bytes as they are, and what is written for the line behind them.
#[inline(always)]
pub(crate) fn put_line(
    rewritten: Rewritten,
    note: &LineNote,
    from: &[u8],
    run: usize,
    text: &mut Vec<u8>,
) -> Result<(), AllocError>
    requires { run + note.now.len < length from.now }
    ensures { (h : IsLong note.now.len (drop run from.now)) (l : Given)
        → IsPair note.now.pair h.line → IsText l h.line
        → OnOk result
        (IsWritten (written_for rewritten l) (text.old.items ++ take run from.now) text.new.items) }
{
    let len = note.len();
    write_line(
        rewritten,
        note,
        line_at(from, run, len),
        front_of(from, run),
        with_line(from, run, len),
        text,
    )
}
