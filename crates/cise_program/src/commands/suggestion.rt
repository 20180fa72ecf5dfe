// The command `suggest`: the least set of pairs of operations that have to conflict.
ghost use Rattle.std.specs.Prelude.{◌≡◌, ◌≢◌};
ghost use Rattle.byte_ports.specs.{Ports.{port_of}, Ending.{Ends}};
ghost use Rattle.cise_program.specs.commands.Suggest.{IsSuggested, IsSuggestionFront};
ghost use Rattle.cise_program.specs.commands.Suggest.{status_by as status_by_of};

use crate::words::DEFAULT_BUDGET;
use byte_ports::{MEMORY, Sink, WRITE_FAULT};
use check_run::WriteOut;
use spec_core::Spec;
use std::alloc::Global;
use suggest::suggest_all;

// 0 where no pair is unknown, else 5.
fn status_by(unknown: u32) -> u8
    ensures { result ≡ status_by_of unknown }
{
    if unknown == 0 { 0 } else { 5 }
}

/// Writes which pairs of operations have to conflict, each with what shows it, and on which parameters that is enough: 0 where no pair is
/// unknown, else 5. Logs have at most 10,000 lines.
pub fn suggest_pairs<K: Sink>(alloc: Global, spec: &Spec, out: &mut K) -> u8
    ensures ends { Ends (IsSuggested spec.now) (IsSuggestionFront spec.now) result
        (port_of K.held K.faults out.old) (port_of K.held K.faults out.new) }
    ensures no_source { result ≢ 6 }
{
    match suggest_all(alloc, spec, DEFAULT_BUDGET, out) {
        Ok(tally) => status_by(tally.unknown),
        Err(WriteOut::Fault) => WRITE_FAULT,
        Err(WriteOut::Memory) => MEMORY,
    }
}
