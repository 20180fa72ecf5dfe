// A line of a report that stands, passed on: as it is, or with the log that it begins, upgraded.
ghost use Rattle.std.specs.Prelude.{◌≡◌, ◌≤◌, ◌++◌, ◌∷◌, [], List, ℕ, Option, length, IfOk, IfErr};
ghost use Rattle.std.specs.Prelude.{OnOk, OnErr};
ghost use Rattle.byte_ports.specs.{Faults.{IsFault}, Written.{IsFrontWritten}};
ghost use Rattle.byte_ports.specs.declared.text.WriteOut.TheVariants.{Fault};
ghost use Rattle.spec_core.specs.Specification.{Specification};
ghost use Rattle.proof_report.specs.{declared.event.Event.{Event}, Events.{words}};
ghost use Rattle.report_bytes.specs.Bytes.{pieces};
ghost use Rattle.report_verifier.specs.Notes.{AreNoted};
ghost use Rattle.report_lines.specs.Words.{parts};
ghost use Rattle.report_upgrader.specs.Passing.{is_followed, IsBegun, Task, IsGathered, IsUnderway};

use crate::gathering::write_much;
use crate::log_writing::{LeftLines, pass_log};
use byte_ports::{Sink, WriteOut};
use report_lines::fields::count;
use report_lines::words::{ReadError, Words, keyword};
use std::alloc::{AllocError, Global};

// How many lines the log has that a line begins with the word of a proved verdict; nothing where it
// begins none.
#[tactic(auto, using(crate::proofs::FirstWords::proved_word, crate::proofs::FirstWords::other_word))]
fn log_begun(line: &[u8]) -> Result<Option<u32>, AllocError>
    ensures { (d : Specification) (e : Event) (es : List Event) → parts line.now ≡ words d e
        → is_followed e es → IfOk result (λ begun. IsBegun begun e) }
{
    match keyword(Words::of(line), b"proved") {
        Ok(rest) => match count(rest) {
            Ok((lines, _)) => Ok(Some(lines)),
            Err(_) => Err(AllocError),
        },
        Err(ReadError::Form) => Ok(None),
        Err(ReadError::Memory) => Err(AllocError),
    }
}

// Adds a line, with its line feed, to a text.
fn copy_line(line: &[u8], text: &mut Vec<u8>) -> Result<(), AllocError>
    ensures { OnOk result (text.new.items ≡ text.old.items ++ (line.now ++ 10 ∷ [])) }
{
    text.extend_from_slice(line)?;
    text.push(b'\n')?;
    Ok(())
}

// Adds a line as it is, and writes what is gathered where it is much.
fn write_plain<K: Sink>(line: &[u8], text: &mut Vec<u8>, out: &mut K) -> Result<(), WriteOut>
    ensures ok { (whole rest : List ℕ) (before : Option (List ℕ))
        → IsGathered whole before (K.held out.old) text.old.items ((line.now ++ 10 ∷ []) ++ rest)
        → OnOk result (IsGathered whole before (K.held out.new) text.new.items rest) }
    ensures front { (whole rest : List ℕ) (before : Option (List ℕ))
        → IsGathered whole before (K.held out.old) text.old.items ((line.now ++ 10 ∷ []) ++ rest)
        → OnErr result (IsFrontWritten whole before (K.held out.new)) }
    ensures fault { IfErr result
        (λ why. why ≡ Fault → IsFault (K.faults out.old) (K.faults out.new)) }
    ensures never_falls { K.faults out.old ≤ K.faults out.new }
{
    match copy_line(line, text) {
        Ok(()) => write_much(text, out),
        Err(_) => Err(WriteOut::Memory),
    }
}

// Passes a line on as it is, and answers the lines behind it.
fn pass_plain<'a, K: Sink>(
    line: &[u8],
    behind: LeftLines<'a>,
    text: &mut Vec<u8>,
    out: &mut K,
) -> Result<LeftLines<'a>, WriteOut>
    ensures ok { (whole rest : List ℕ) (before : Option (List ℕ))
        → IsGathered whole before (K.held out.old) text.old.items ((line.now ++ 10 ∷ []) ++ rest)
        → OnOk result (IsGathered whole before (K.held out.new) text.new.items rest) }
    ensures front { (whole rest : List ℕ) (before : Option (List ℕ))
        → IsGathered whole before (K.held out.old) text.old.items ((line.now ++ 10 ∷ []) ++ rest)
        → OnErr result (IsFrontWritten whole before (K.held out.new)) }
    ensures fault { IfErr result
        (λ why. why ≡ Fault → IsFault (K.faults out.old) (K.faults out.new)) }
    ensures behind { IfOk result (λ left. left ≡ behind.entry) }
    ensures never_falls { K.faults out.old ≤ K.faults out.new }
{
    match write_plain(line, text, out) {
        Ok(()) => Ok(behind),
        Err(why) => Err(why),
    }
}

/// Passes a line on, and a proved verdict with its log. Answers the lines that are left.
pub fn pass_line<'a, K: Sink>(
    alloc: Global,
    line: &[u8],
    behind: LeftLines<'a>,
    text: &mut Vec<u8>,
    out: &mut K,
) -> Result<LeftLines<'a>, WriteOut>
    requires { AreNoted behind.notes.now behind.bytes.now }
    ensures ok { (task : Task) (rest : List ℕ) → pieces rest ≡ line.now ∷ pieces behind.entry.bytes.now
        → IsUnderway task (record { rest = rest; text = text.old.items }) (K.held out.old)
        → IfOk result (λ left. IsUnderway task (record { rest = left.bytes.now; text = text.new.items })
        (K.held out.new)) }
    ensures front { (task : Task) (rest : List ℕ) → pieces rest ≡ line.now ∷ pieces behind.entry.bytes.now
        → IsUnderway task (record { rest = rest; text = text.old.items }) (K.held out.old)
        → OnErr result (IsFrontWritten task.whole task.before (K.held out.new)) }
    ensures fault { IfErr result
        (λ why. why ≡ Fault → IsFault (K.faults out.old) (K.faults out.new)) }
    ensures fewer { IfOk result (λ left. length left.bytes.now ≤ length behind.entry.bytes.now) }
    ensures noted { IfOk result (λ left. AreNoted left.notes.now left.bytes.now) }
    ensures never_falls { K.faults out.old ≤ K.faults out.new }
{
    let Ok(begun) = log_begun(line) else {
        return Err(WriteOut::Memory);
    };
    match begun {
        Some(count) => pass_log(alloc, count, behind, text, out),
        None => pass_plain(line, behind, text, out),
    }
}
