// The report that a source gives, upgraded.
ghost use Rattle.std.specs.Prelude.{◌≡◌, ℕ, ◌+◌, ◌≤◌, [], List, length, IsErrOf};
ghost use Rattle.std.specs.Io.KnownBytes.{IsAtEnd, Consumes};
ghost use Rattle.byte_ports.specs.Faults.{IsFault};
ghost use Rattle.report_verifier.specs.Verified.{most_report_bytes, IsVerified};
ghost use Rattle.report_upgrader.specs.Upgrading.{refused_as, IsUpgraded, IsUpgradedFrom, IsOnAll};
ghost use Rattle.report_upgrader.specs.Upgrading.{IsUnwritten};

use crate::log_writing::LeftLines;
use crate::refused::UpgradeRefused;
use crate::rewriting::write_upgraded;
use byte_ports::{ReadRefused, Sink, Source, WriteOut, read_up_to};
use report_lines::head::Tally;
use report_verifier::{LineNote, VerifyRefused, verify_held};
use spec_core::Spec;
use std::alloc::Global;

/// The most bytes of a report: 64 MiB.
const MOST_REPORT_BYTES: usize = 67_108_864;

// A report that doesn't stand is refused as it is verified.
fn refused(why: VerifyRefused) -> UpgradeRefused
    ensures { result ≡ refused_as why }
{
    match why {
        VerifyRefused::Long => UpgradeRefused::Long,
        VerifyRefused::Line { number, kind } => UpgradeRefused::Line { number, kind },
        VerifyRefused::Fault => UpgradeRefused::Fault,
        VerifyRefused::Memory => UpgradeRefused::Memory,
    }
}

// Upgrades a report, from bytes that are held, by notes of its lines, of which there are none yet.
fn upgrade_noted<K: Sink>(
    alloc: Global,
    spec: &Spec,
    bytes: &[u8],
    notes: &mut Vec<LineNote>,
    out: &mut K,
) -> Result<Tally, UpgradeRefused>
    requires few { length bytes.now ≤ most_report_bytes }
    requires none { notes.old.items ≡ [] }
    ensures upgraded { IsUpgraded spec.now bytes.now (K.held out.old) (K.held out.new) result }
    ensures unwritten { IsUnwritten result → out.new ≡ out.old }
    ensures no_read { IsErrOf result UpgradeRefused.Fault → ⊥ }
    ensures write_fault { IsErrOf result UpgradeRefused.WriteFault
        → IsFault (K.faults out.old) (K.faults out.new) }
    ensures never_falls { K.faults out.old ≤ K.faults out.new }
{
    let tally = match verify_held(alloc, spec, bytes, notes) {
        Ok(tally) => tally,
        Err(why) => return Err(refused(why)),
    };
    let notes = notes.as_slice();
    match write_upgraded(alloc, spec, LeftLines { bytes, notes }, out) {
        Ok(()) => Ok(tally),
        Err(WriteOut::Fault) => Err(UpgradeRefused::WriteFault),
        Err(WriteOut::Memory) => Err(UpgradeRefused::Memory),
    }
}

// Upgrades a report, from bytes that are held.
fn upgrade_held<K: Sink>(
    alloc: Global,
    spec: &Spec,
    bytes: &[u8],
    out: &mut K,
) -> Result<Tally, UpgradeRefused>
    requires { length bytes.now ≤ most_report_bytes }
    ensures upgraded { IsUpgraded spec.now bytes.now (K.held out.old) (K.held out.new) result }
    ensures unwritten { IsUnwritten result → out.new ≡ out.old }
    ensures no_read { IsErrOf result UpgradeRefused.Fault → ⊥ }
    ensures write_fault { IsErrOf result UpgradeRefused.WriteFault
        → IsFault (K.faults out.old) (K.faults out.new) }
    ensures never_falls { K.faults out.old ≤ K.faults out.new }
{
    let Ok(mut notes) = Vec::with_capacity(alloc, bytes.len() / 8) else {
        return Err(UpgradeRefused::Memory);
    };
    let answer = upgrade_noted(alloc, spec, bytes, &mut notes, out);
    drop(notes);
    answer
}

/// Upgrades the report that a source gives, where it stands: the text of the upgraded report is written, and answered is how many verdicts
/// of each kind there are. A report that doesn't stand is refused as where it is verified, and nothing is written. The source is read to
/// its end before either; of more than 64 MiB it reads no further.
pub fn upgrade_all<E: Source, K: Sink>(
    alloc: Global,
    spec: &Spec,
    report: &mut E,
    out: &mut K,
) -> Result<Tally, UpgradeRefused>
    ensures upgraded { IsUpgradedFrom spec.now (E.left report.old) (K.held out.old)
        (K.held out.new) result }
    ensures unwritten { IsUnwritten result → out.new ≡ out.old }
    ensures fault { IsErrOf result UpgradeRefused.Fault
        → IsFault (E.faults report.old) (E.faults report.new) }
    ensures write_fault { IsErrOf result UpgradeRefused.WriteFault
        → IsFault (K.faults out.old) (K.faults out.new) }
    ensures end { IsOnAll result → IsAtEnd (E.left report.new) }
    ensures given_up { (given : List ℕ) × Consumes (E.left report.old) (E.left report.new) given }
    ensures reads { E.reads report.new ≤ E.reads report.old + most_report_bytes + 1 }
    ensures never_falls { E.faults report.old ≤ E.faults report.new }
    ensures never_falls_written { K.faults out.old ≤ K.faults out.new }
{
    match read_up_to(alloc, report, MOST_REPORT_BYTES) {
        Ok(bytes) => upgrade_held(alloc, spec, bytes.as_slice(), out),
        Err(ReadRefused::TooLong) => Err(UpgradeRefused::Long),
        Err(ReadRefused::Fault) => Err(UpgradeRefused::Fault),
        Err(ReadRefused::Memory) => Err(UpgradeRefused::Memory),
    }
}
