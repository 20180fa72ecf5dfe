// The command `verify`: whether a report on a specification stands.
ghost use Rattle.std.specs.Prelude.{◌≡◌, ◌<◌, ◌∷◌, [], Some, Err, IfOk, IsErrOf, codes, decimal};
ghost use Rattle.byte_ports.specs.{Faults.{IsFault}, Ports.{port_of}, Told.{IsReadWithin}};
ghost use Rattle.report_verifier.specs.Verified.{most_report_bytes};
ghost use Rattle.report_verifier.specs.declared.refused.VerifyRefused.TheVariants as refused;
ghost use Rattle.cise_program.specs.Answer.{EndsWith};
ghost use Rattle.cise_program.specs.commands.Verify.{kind_word, verified_text, refused_report};
ghost use Rattle.cise_program.specs.commands.Verify.{status_said, text_said, IsVerdict};
ghost use Rattle.cise_program.specs.commands.Verify.{IsVerdictFront};

use crate::outcome::status_of;
use byte_ports::{MEMORY, READ_FAULT, REFUSED, Sink, Source, Stopped, write_answer};
use proof_report::{ReportKind, write_end};
use report_lines::head::Tally;
use report_verifier::{VerifyRefused, verify_all};
use spec_core::Spec;
use spec_from_bytes::texts::{push, push_pair};
use std::alloc::{AllocError, Global};

/// The word for what is wrong with a line.
fn kind_word(kind: ReportKind) -> &'static [u8]
    ensures { result.now ≡ kind_word kind }
{
    match kind {
        ReportKind::Form => b"form",
        ReportKind::Obligation => b"obligation",
        ReportKind::Summary => b"summary",
        ReportKind::Place => b"place",
        ReportKind::Pivot => b"pivot",
        ReportKind::Multiplier => b"multiplier",
        ReportKind::Contradiction => b"contradiction",
        ReportKind::Range => b"range",
        ReportKind::SplitAgain => b"splitagain",
        ReportKind::SplitCause => b"splitcause",
        ReportKind::NoEmpty => b"noempty",
        ReportKind::Witness => b"witness",
        ReportKind::Evidence => b"evidence",
        ReportKind::Dropped => b"dropped",
    }
}

/// The lines that count the verdicts of a report that stands.
fn verified_text(alloc: Global, tally: Tally) -> Result<Vec<u8>, AllocError>
    ensures { IfOk result (λ text. text.items ≡ verified_text tally) }
{
    let mut text = Vec::from_slice(alloc, b"cise verify 1\n")?;
    write_end(alloc, tally, &mut text)?;
    Ok(text)
}

/// The line that says which line of a report breaks which rule.
fn line_text(alloc: Global, number: u32, kind: ReportKind) -> Result<Vec<u8>, AllocError>
    ensures { IfOk result
        (λ text. text.items ≡ refused_report
        (codes "line" ∷ decimal number ∷ kind_word kind ∷ [])) }
{
    let digits = number.to_string(alloc)?;
    let mut text = Vec::from_slice(alloc, b"refused report line ")?;
    push_pair(&mut text, digits.as_bytes(), kind_word(kind))?;
    Ok(text)
}

/// The text of what the verifier says, where nothing stopped it.
pub fn text_said(alloc: Global, said: Result<Tally, VerifyRefused>) -> Result<Vec<u8>, Stopped>
    ensures text { IfOk result (λ text. text_said said ≡ Some text.items) }
    ensures fault { IsErrOf result Stopped.Fault → said ≡ Err refused.Fault }
{
    let text = match said {
        Ok(tally) => verified_text(alloc, tally),
        Err(VerifyRefused::Long) => Vec::from_slice(alloc, b"refused report long\n"),
        Err(VerifyRefused::Line { number, kind }) => line_text(alloc, number, kind),
        Err(VerifyRefused::Fault) => return Err(Stopped::Fault),
        Err(VerifyRefused::Memory) => return Err(Stopped::Memory),
    };
    match text {
        Ok(text) => Ok(text),
        Err(_) => Err(Stopped::Memory),
    }
}

/// The status of what the verifier says.
fn status_said(said: Result<Tally, VerifyRefused>) -> u8
    ensures { result ≡ status_said said }
{
    match said {
        Ok(tally) => status_of(tally),
        Err(_) => REFUSED,
    }
}

/// Verifies the report that a source gives, and writes how many verdicts of each kind it has: 0 where all are proved, 1 where one is
/// refuted, 5 where none is refuted and one is undecided, 4 where the bytes are no report or one of its lines breaks a rule.
pub fn verify<E: Source, K: Sink>(alloc: Global, spec: &Spec, extra: &mut E, out: &mut K) -> u8
    ensures ends { EndsWith (E.left extra.old) (IsVerdict spec.now) (IsVerdictFront spec.now) result
        (port_of K.held K.faults out.old) (port_of K.held K.faults out.new) }
    ensures read_fault { result ≡ 6 → IsFault (E.faults extra.old) (E.faults extra.new) }
    ensures unwritten { result ≡ 6 → out.new ≡ out.old }
    ensures end { result < 6
        → IsReadWithin most_report_bytes (E.left extra.old) (E.left extra.new) }
{
    let said = verify_all(alloc, spec, extra);
    match text_said(alloc, said) {
        Ok(text) => write_answer(out, status_said(said), text.as_slice()),
        Err(Stopped::Fault) => READ_FAULT,
        Err(Stopped::Memory) => MEMORY,
    }
}
