// The bytes of a report, verified as they come. One block, the line that isn't ended yet and what problems of
// other blocks share are kept. Behind a line that breaks a rule the source is read on, since it may give too many bytes or fail.
ghost use Rattle.std.specs.Prelude.{◌≡◌, ℕ, ◌≤◌, List, [], true, IsErrOf};
ghost use Rattle.std.specs.Io.KnownBytes.{IsAtEnd, Consumes};
ghost use Rattle.byte_ports.specs.Faults.{IsFault};
ghost use Rattle.spec_core.specs.{Specification.{Specification}, Typed.{is_specification}};
ghost use Rattle.report_verifier.specs.Verifier.{first_verifier, IsEnded};
ghost use Rattle.report_verifier.specs.Verified.{IsVerifiedFrom, IsOnAll};

use crate::pieces::read_pieces;
use crate::refused::VerifyRefused;
use crate::verifier::Verifier;
use byte_ports::{ReadRefused, Source};
use report_lines::head::Tally;
use spec_core::Spec;
use std::alloc::Global;

// What is answered behind the last line and the bytes that no line feed ends.
pub(crate) fn finish(verifier: &mut Verifier<'_>, rest: &[u8]) -> Result<Tally, VerifyRefused>
    ensures { IsEnded verifier.old rest.now result }
{
    if rest.is_empty() {
        verifier.answer()
    } else {
        verifier.cut_off()
    }
}

// Reads a source to its end, and answers what the verifier that was fed its lines says. What the verifier keeps is let go by the
// caller, at one place.
fn verify_lines<E: Source>(
    report: &mut E,
    verifier: &mut Verifier<'_>,
    line: &mut Vec<u8>,
) -> Result<Tally, VerifyRefused>
    requires { line.old.items ≡ [] }
    ensures verified { (d : Specification) → is_specification d ≡ true
        → verifier.old ≡ first_verifier d → IsVerifiedFrom d (E.left report.old) result }
    ensures fault { IsErrOf result VerifyRefused.Fault
        → IsFault (E.faults report.old) (E.faults report.new) }
    ensures end { IsOnAll result → IsAtEnd (E.left report.new) }
    ensures given_up { (given : List ℕ) × Consumes (E.left report.old) (E.left report.new) given }
    ensures never_falls { E.faults report.old ≤ E.faults report.new }
{
    match read_pieces(report, verifier, line) {
        Ok(()) => finish(verifier, line.as_slice()),
        Err(ReadRefused::TooLong) => Err(VerifyRefused::Long),
        Err(ReadRefused::Fault) => Err(VerifyRefused::Fault),
        Err(ReadRefused::Memory) => Err(VerifyRefused::Memory),
    }
}

/// Verifies the report that a source gives: the text is that of a report on the specification, and each verdict rests on what it
/// says. Answers how many verdicts of each kind there are, or the first line that breaks a rule. The source is read to its end before
/// either. Of more than 64 MiB it reads no further.
pub fn verify_all<E: Source>(
    alloc: Global,
    spec: &Spec,
    report: &mut E,
) -> Result<Tally, VerifyRefused>
    ensures verified { IsVerifiedFrom spec.now (E.left report.old) result }
    ensures fault { IsErrOf result VerifyRefused.Fault
        → IsFault (E.faults report.old) (E.faults report.new) }
    ensures end { IsOnAll result → IsAtEnd (E.left report.new) }
    ensures given_up { (given : List ℕ) × Consumes (E.left report.old) (E.left report.new) given }
    ensures never_falls { E.faults report.old ≤ E.faults report.new }
{
    spec.well_formed();
    let Ok(mut verifier) = Verifier::new(alloc, spec) else {
        return Err(VerifyRefused::Memory);
    };
    let mut line = Vec::new(alloc);
    let answer = verify_lines(report, &mut verifier, &mut line);
    drop(line);
    drop(verifier);
    answer
}
