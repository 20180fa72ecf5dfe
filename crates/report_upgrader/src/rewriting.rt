// A report that stands, written line by line in version 2.
ghost use Rattle.std.specs.Prelude.{◌≡◌, true, ℕ, ◌≤◌, ◌∷◌, [], List, take, length};
ghost use Rattle.std.specs.Prelude.{IfOk, IfErr, OnOk, OnErr, IfSome, IfNone, ◌<◌};
ghost use Rattle.std.specs.Io.KnownBytes.{Appends};
ghost use Rattle.byte_ports.specs.{Faults.{IsFault}, Written.{IsFrontWritten}};
ghost use Rattle.byte_ports.specs.declared.text.WriteOut.TheVariants.{Fault};
ghost use Rattle.proof_report.specs.Verdicts.{ReportForm, is_report};
ghost use Rattle.report_verifier.specs.Notes.{AreNoted};
ghost use Rattle.report_bytes.specs.Bytes.{pieces, report_bytes};
ghost use Rattle.report_upgrader.specs.{Reports.{upgraded_report}, Passing.{Task, IsUnderway}};

use crate::gathering::write_out;
use crate::log_bytes::cut_line;
use crate::log_writing::{LeftLines, behind};
use crate::passing::pass_line;
use byte_ports::{Sink, WriteOut};
use report_lines::head::write_title;
use spec_core::Spec;
use std::alloc::Global;

// The next line, and the lines behind it; none where no line feed ends a line.
fn next_line(lines: LeftLines<'_>) -> Option<(&[u8], LeftLines<'_>)>
    requires { AreNoted lines.notes.now lines.bytes.now }
    ensures some { IfSome result
        (λ x. pieces lines.entry.bytes.now ≡ x.0.now ∷ pieces x.1.bytes.now) }
    ensures fewer { IfSome result (λ x. length x.1.bytes.now < length lines.entry.bytes.now) }
    ensures noted { IfSome result (λ x. AreNoted x.1.notes.now x.1.bytes.now) }
    ensures none { IfNone result (pieces lines.entry.bytes.now ≡ lines.entry.bytes.now ∷ []) }
{
    let Some(note) = lines.notes.get(0) else {
        return None;
    };
    let (line, bytes) = cut_line(lines.bytes, note.len());
    let notes = behind(lines.notes, 1);
    Some((line, LeftLines { bytes, notes }))
}

// Passes all lines on.
fn take_lines<K: Sink>(
    alloc: Global,
    lines: LeftLines<'_>,
    text: &mut Vec<u8>,
    out: &mut K,
) -> Result<(), WriteOut>
    requires { AreNoted lines.notes.now lines.bytes.now }
    ensures ok { (task : Task)
        → IsUnderway task (record { rest = lines.entry.bytes.now; text = text.old.items })
        (K.held out.old) → OnOk result (Appends task.before (K.held out.new) task.whole) }
    ensures front { (task : Task)
        → IsUnderway task (record { rest = lines.entry.bytes.now; text = text.old.items })
        (K.held out.old)
        → OnErr result (IsFrontWritten task.whole task.before (K.held out.new)) }
    ensures fault { IfErr result
        (λ why. why ≡ Fault → IsFault (K.faults out.old) (K.faults out.new)) }
    ensures never_falls { K.faults out.old ≤ K.faults out.new }
{
    let mut rest = lines;
    'lines: for taken in 0..lines.bytes.len() {
        let Some((line, behind)) = next_line(rest) else {
            return write_out(text, out);
        };
        match pass_line(alloc, line, behind, text, out) {
            Ok(left) => rest = left,
            Err(why) => return Err(why),
        }
    }
    write_out(text, out)
}

/// Writes the upgraded report of lines that are those of a report. Whether its verdicts rest on what they
/// say isn't asked. What is written for other lines isn't promised.
pub fn write_upgraded<K: Sink>(
    alloc: Global,
    spec: &Spec,
    lines: LeftLines<'_>,
    out: &mut K,
) -> Result<(), WriteOut>
    requires { AreNoted lines.notes.now lines.bytes.now }
    ensures ok { (r : ReportForm) → is_report spec.now r ≡ true
        → lines.entry.bytes.now ≡ report_bytes spec.now r
        → OnOk result (Appends (K.held out.old) (K.held out.new)
        (report_bytes spec.now (upgraded_report r))) }
    ensures front { (r : ReportForm) → is_report spec.now r ≡ true
        → lines.entry.bytes.now ≡ report_bytes spec.now r
        → OnErr result (IsFrontWritten (report_bytes spec.now (upgraded_report r))
        (K.held out.old) (K.held out.new)) }
    ensures fault { IfErr result
        (λ why. why ≡ Fault → IsFault (K.faults out.old) (K.faults out.new)) }
    ensures never_falls { K.faults out.old ≤ K.faults out.new }
{
    spec.well_formed();
    let mut text = Vec::new(alloc);
    let Some((_, behind)) = next_line(lines) else {
        return Err(WriteOut::Memory);
    };
    match write_title(&mut text, 2) {
        Ok(()) => take_lines(alloc, behind, &mut text, out),
        Err(_) => Err(WriteOut::Memory),
    }
}
