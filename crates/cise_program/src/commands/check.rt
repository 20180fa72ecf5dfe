// The command `check`: the report of a specification's obligations.
ghost use Rattle.std.specs.Prelude.{◌≡◌, ◌≢◌, true};
ghost use Rattle.byte_ports.specs.{Ports.{port_of}, Ending.{Ends}};
ghost use Rattle.report_lines.specs.Heads.{most_budget};
ghost use Rattle.cise_program.specs.{Words.{is_within}, commands.Check.{IsReport, IsReportFront}};

use crate::outcome::status_of;
use byte_ports::{MEMORY, Sink, WRITE_FAULT};
use check_run::{WriteOut, check_all};
use spec_core::Spec;
use std::alloc::Global;

/// Checks a specification with a budget of log lines, and writes the report as it is made: 0 where every obligation is proved, 1 where
/// one is refuted, 5 where none is refuted and one is undecided.
pub fn check<K: Sink>(alloc: Global, budget: u32, spec: &Spec, out: &mut K) -> u8
    requires { is_within most_budget budget ≡ true }
    ensures ends { Ends (IsReport budget spec.now) (IsReportFront budget spec.now) result
        (port_of K.held K.faults out.old) (port_of K.held K.faults out.new) }
    ensures no_source { result ≢ 6 }
{
    match check_all(alloc, spec, budget, out) {
        Ok(tally) => status_of(tally),
        Err(WriteOut::Fault) => WRITE_FAULT,
        Err(WriteOut::Memory) => MEMORY,
    }
}
