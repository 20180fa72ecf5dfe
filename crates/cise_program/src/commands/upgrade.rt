// The command `upgrade`: a report that stands, in version 2 of the format.
ghost use Rattle.std.specs.Prelude.{◌≡◌, ◌≢◌, ◌<◌, List, ℕ, Some, Err};
ghost use Rattle.byte_ports.specs.{Faults.{IsFault}, Ports.{port_of}};
ghost use Rattle.byte_ports.specs.{Ending.{IsOne, IsFrontOf, Ends}, Told.{IsReadWithin}};
ghost use Rattle.report_verifier.specs.Verified.{most_report_bytes};
ghost use Rattle.cise_program.specs.{Answer.{EndsWith}, commands.Verify.{text_said}};
ghost use Rattle.cise_program.specs.commands.Upgrade.{IsUpgraded, IsUpgradeFront};

use crate::commands::verify::text_said;
use crate::outcome::status_of;
use byte_ports::{MEMORY, READ_FAULT, REFUSED, Sink, Source, WRITE_FAULT, write_answer};
use report_upgrader::{UpgradeRefused, upgrade_all};
use report_verifier::VerifyRefused;
use spec_core::Spec;
use std::alloc::Global;

/// Writes why a report is refused, as `verify` does.
fn refuse<K: Sink>(alloc: Global, why: VerifyRefused, out: &mut K) -> u8
    ensures ends { (text : List ℕ) → text_said (Err why) ≡ Some text
        → Ends (IsOne 4 text) (IsFrontOf text) result
        (port_of K.held K.faults out.old) (port_of K.held K.faults out.new) }
    ensures no_source { result ≢ 6 }
{
    match text_said(alloc, Err(why)) {
        Ok(text) => write_answer(out, REFUSED, text.as_slice()),
        Err(_) => MEMORY,
    }
}

/// Upgrades the report that a source gives, and writes it: 0 where all verdicts are proved, 1 where one is refuted, 5 where none is refuted
/// and one is undecided. Where the bytes are no report or one of its lines breaks a rule, it says why and ends with 4.
pub fn upgrade<E: Source, K: Sink>(alloc: Global, spec: &Spec, extra: &mut E, out: &mut K) -> u8
    ensures ends { EndsWith (E.left extra.old) (IsUpgraded spec.now) (IsUpgradeFront spec.now)
        result (port_of K.held K.faults out.old) (port_of K.held K.faults out.new) }
    ensures read_fault { result ≡ 6 → IsFault (E.faults extra.old) (E.faults extra.new) }
    ensures unwritten { result ≡ 6 → out.new ≡ out.old }
    ensures end { result < 6
        → IsReadWithin most_report_bytes (E.left extra.old) (E.left extra.new) }
{
    match upgrade_all(alloc, spec, extra, out) {
        Ok(tally) => status_of(tally),
        Err(UpgradeRefused::Long) => refuse(alloc, VerifyRefused::Long, out),
        Err(UpgradeRefused::Line { number, kind }) => {
            refuse(alloc, VerifyRefused::Line { number, kind }, out)
        }
        Err(UpgradeRefused::Fault) => READ_FAULT,
        Err(UpgradeRefused::WriteFault) => WRITE_FAULT,
        Err(UpgradeRefused::Memory) => MEMORY,
    }
}
