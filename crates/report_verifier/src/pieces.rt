// The lines of a report that comes in pieces. A line that no line feed has ended yet is kept until a later piece ends it.
ghost use Rattle.std.specs.Prelude.{◌≡◌, ℕ, ◌≤◌, ◌<◌, ◌++◌, [], List, length, IfSome, OnOk};
ghost use Rattle.std.specs.{Prelude.{IsErrOf}, Io.KnownBytes.{IsAtEnd, Consumes}};
ghost use Rattle.byte_ports.specs.Faults.{IsFault};
ghost use Rattle.report_verifier.specs.Verifier.{next_verifier, AreFed};
ghost use Rattle.report_verifier.specs.{Pieces.{IsUnended, AreTaken}, Verified.{most_report_bytes}};

use crate::verifier::Verifier;
use byte_ports::{ReadRefused, Source};
use report_bytes::next_line;
use std::alloc::AllocError;

/// The most bytes of a report: 64 MiB.
pub const MOST_REPORT_BYTES: usize = 67_108_864;

/// The most bytes that one read asks for.
const PIECE: usize = 4096;

// Feeds the line that was begun, with these bytes behind it, and begins the next one. Most lines stand in one piece and aren't copied.
fn end_line(verifier: &mut Verifier<'_>, line: &mut Vec<u8>, bytes: &[u8]) -> Result<(), AllocError>
    ensures fed { OnOk result
        (verifier.new ≡ next_verifier verifier.old (line.old.items ++ bytes.now)) }
    ensures begun { OnOk result (line.new.items ≡ []) }
{
    if line.is_empty() {
        return verifier.feed(bytes);
    }
    line.extend_from_slice(bytes)?;
    verifier.feed(line.as_slice())?;
    line.clear();
    Ok(())
}

// Feeds the lines that a piece ends, of which the first one was begun before, and keeps the one that it begins.
fn feed_piece(
    verifier: &mut Verifier<'_>,
    line: &mut Vec<u8>,
    piece: &[u8],
) -> Result<(), AllocError>
    requires { IsUnended line.old.items }
    ensures { OnOk result
        (AreFed verifier.old (line.old.items ++ piece.now) verifier.new line.new.items) }
{
    let mut rest = piece;
    'lines: for taken in 0..piece.len() {
        let Some((front, behind)) = next_line(rest) else {
            return line.extend_from_slice(rest);
        };
        end_line(verifier, line, front)?;
        rest = behind;
    }
    Ok(())
}

/// Reads a source to its end, where at most 64 MiB come: feeds the lines, and keeps what stands behind the last line feed.
pub fn read_pieces<E: Source>(
    report: &mut E,
    verifier: &mut Verifier<'_>,
    line: &mut Vec<u8>,
) -> Result<(), ReadRefused>
    requires { line.old.items ≡ [] }
    ensures taken { OnOk result
        (AreTaken (E.left report.old) (E.left report.new) verifier.old verifier.new
        line.new.items) }
    ensures end { OnOk result (IsAtEnd (E.left report.new)) }
    ensures too_long { IsErrOf result ReadRefused.TooLong
        → IfSome (E.left report.old) (λ bytes. most_report_bytes < length bytes) }
    ensures fault { IsErrOf result ReadRefused.Fault
        → IsFault (E.faults report.old) (E.faults report.new) }
    ensures given_up { (given : List ℕ) × Consumes (E.left report.old) (E.left report.new) given }
    ensures never_falls { E.faults report.old ≤ E.faults report.new }
{
    let mut piece = [0u8; PIECE];
    let mut count = 0;
    loop {
        let room = (MOST_REPORT_BYTES - count).min(PIECE - 1) + 1;
        let given = match report.read(&mut piece[..room]) {
            Ok(given) => given,
            Err(_) => return Err(ReadRefused::Fault),
        };
        if given == 0 {
            return Ok(());
        }
        count += given;
        if count > MOST_REPORT_BYTES {
            return Err(ReadRefused::TooLong);
        }
        let Ok(()) = feed_piece(verifier, line, &piece[..given]) else {
            return Err(ReadRefused::Memory);
        };
    }
}
