// Writing a text that was made in memory.
ghost use Rattle.std.specs.Prelude.{◌≡◌, ◌≤◌, IfErr, OnErr};
ghost use Rattle.byte_ports.specs.{Faults.{IsFault}, Written.{IsText}};
ghost use Rattle.byte_ports.specs.declared.text.WriteOut.TheVariants.{Fault};

use crate::sink::{Sink, WriteRefused, write_all};
use thiserror::Error;

/// Why a text wasn't written whole. A front of it was written.
#[derive(Clone, Copy, Debug, Error)]
pub enum WriteOut {
    #[error("a write failed")]
    Fault,
    #[error("out of memory")]
    Memory,
}

/// Writes a text, for one who makes texts and may lack memory for them. What fails here is a write.
pub fn write_text<K: Sink>(out: &mut K, text: &[u8]) -> Result<(), WriteOut>
    ensures text { IsText text.now (K.held out.old) (K.held out.new) result }
    ensures fault { OnErr result (IsFault (K.faults out.old) (K.faults out.new)) }
    ensures kind { IfErr result (λ why. why ≡ Fault) }
    ensures never_falls { K.faults out.old ≤ K.faults out.new }
{
    match write_all(out, text) {
        Ok(()) => Ok(()),
        Err(WriteRefused::Fault) => Err(WriteOut::Fault),
    }
}
