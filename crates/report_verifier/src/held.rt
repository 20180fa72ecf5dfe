// A report that is held, verified where it stands, with a note of each of its lines before the first fault of its text.
ghost use Rattle.std.specs.Prelude.{◌≡◌, ℕ, ◌≤◌, [], ◌∷◌, ◌++◌, true, false, length, None, IfOk};
ghost use Rattle.std.specs.{Prelude.{OnOk}, Prelude.{IsErrOf}};
ghost use Rattle.spec_core.specs.{Specification.{Specification}, Typed.{is_specification}};
ghost use Rattle.report_bytes.specs.Bytes.{pieces};
ghost use Rattle.report_verifier.specs.Notes.{NoteForm, IsPair, AreNotedTo, AreNoted};
ghost use Rattle.report_verifier.specs.Verifier.{first_verifier, next_verifier, AreFed};
ghost use Rattle.report_verifier.specs.Verified.{most_report_bytes, IsVerified};

use crate::notes::LineNote;
use crate::refused::VerifyRefused;
use crate::verifier::Verifier;
use crate::verifying::finish;
use report_bytes::next_line;
use report_lines::head::Tally;
use spec_core::Spec;
use std::alloc::{AllocError, Global};

// How long a line is. Longer ones than 32 bits can count are answered as want of memory.
fn short_len(line: &[u8]) -> Result<u32, AllocError>
    ensures { IfOk result (λ n. n ≡ length line.now) }
{
    match u32::try_from(line.len()) {
        Ok(len) => Ok(len),
        Err(_) => Err(AllocError),
    }
}

// Feeds a line. Where it is read, notes what it is, and else answers that it isn't: a line with a fault isn't counted.
fn take_line(
    verifier: &mut Verifier<'_>,
    line: &[u8],
    notes: &mut Vec<LineNote>,
) -> Result<bool, AllocError>
    ensures fed { IfOk result (λ read. verifier.new ≡ next_verifier verifier.old line.now) }
    ensures noted { IfOk result (λ read. read ≡ true → (note : NoteForm)
        × ((notes.new.items ≡ notes.old.items ++ note ∷ [])
        × ((note.len ≡ length line.now) × IsPair note.pair line.now))) }
    ensures faulty { IfOk result (λ read. read ≡ false
        → verifier.new.reader.number ≡ verifier.old.reader.number) }
{
    let len = short_len(line)?;
    let before = verifier.taken();
    let pair = verifier.feed_noted(line)?;
    if verifier.taken() == before {
        return Ok(false);
    }
    notes.push(LineNote::new(pair, len))?;
    Ok(true)
}

// Feeds all lines of bytes. Answers the bytes behind the last line feed.
fn feed_lines<'a>(verifier: &mut Verifier<'_>, bytes: &'a [u8]) -> Result<&'a [u8], AllocError>
    ensures fed { IfOk result (λ rest. AreFed verifier.old bytes.now verifier.new rest.now) }
    ensures over { IfOk result (λ rest. pieces rest.now ≡ rest.now ∷ []) }
{
    let mut rest = bytes;
    'lines: for taken in 0..bytes.len() {
        let Some((line, behind)) = next_line(rest) else {
            return Ok(rest);
        };
        verifier.feed(line)?;
        rest = behind;
    }
    Ok(rest)
}

// Feeds all lines of bytes, and notes what they are, up to the first one that has a fault. Answers the bytes behind the last line feed.
fn take_lines<'a>(
    verifier: &mut Verifier<'_>,
    bytes: &'a [u8],
    notes: &mut Vec<LineNote>,
) -> Result<&'a [u8], AllocError>
    requires { notes.old.items ≡ [] }
    ensures fed { IfOk result (λ rest. AreFed verifier.old bytes.now verifier.new rest.now) }
    ensures noted { IfOk result (λ rest. verifier.new.reader.fault ≡ None
        → AreNotedTo notes.new.items bytes.now rest.now) }
    ensures over { IfOk result (λ rest. pieces rest.now ≡ rest.now ∷ []) }
{
    let mut rest = bytes;
    'lines: for taken in 0..bytes.len() {
        let Some((line, behind)) = next_line(rest) else {
            return Ok(rest);
        };
        if !take_line(verifier, line, notes)? {
            return feed_lines(verifier, behind);
        }
        rest = behind;
    }
    Ok(rest)
}

// Takes all bytes, and answers what the verifier that was fed their lines says.
fn verify_bytes(
    verifier: &mut Verifier<'_>,
    bytes: &[u8],
    notes: &mut Vec<LineNote>,
) -> Result<Tally, VerifyRefused>
    requires few { length bytes.now ≤ most_report_bytes }
    requires none { notes.old.items ≡ [] }
    ensures verified { (d : Specification) → is_specification d ≡ true
        → verifier.old ≡ first_verifier d → IsVerified d bytes.now result }
    ensures no_read { IsErrOf result VerifyRefused.Fault → ⊥ }
    ensures noted { OnOk result (AreNoted notes.new.items bytes.now) }
{
    match take_lines(verifier, bytes, notes) {
        Ok(rest) => finish(verifier, rest),
        Err(_) => Err(VerifyRefused::Memory),
    }
}

/// Verifies the report that bytes are, of which there are at most 64 MiB, as `verify_all` does, and notes what each line
/// is, up to the first fault of the text.
pub fn verify_held(
    alloc: Global,
    spec: &Spec,
    bytes: &[u8],
    notes: &mut Vec<LineNote>,
) -> Result<Tally, VerifyRefused>
    requires few { length bytes.now ≤ most_report_bytes }
    requires none { notes.old.items ≡ [] }
    ensures verified { IsVerified spec.now bytes.now result }
    ensures no_read { IsErrOf result VerifyRefused.Fault → ⊥ }
    ensures noted { OnOk result (AreNoted notes.new.items bytes.now) }
{
    spec.well_formed();
    let Ok(mut verifier) = Verifier::new(alloc, spec) else {
        return Err(VerifyRefused::Memory);
    };
    let answer = verify_bytes(&mut verifier, bytes, notes);
    drop(verifier);
    answer
}
