// Writing the text of an answer, and the status that this ends with.
ghost use Rattle.std.specs.Prelude.{◌≡◌, ◌≢◌, ◌<◌};
ghost use Rattle.byte_ports.specs.{Ports.{port_of}, Ending.{IsOne, IsFrontOf, Ends}};

use crate::sink::{Sink, WriteRefused, write_all};
use crate::status::WRITE_FAULT;

/// A status with its text.
#[derive(Drop)]
pub struct Answer {
    pub status: u8,
    pub text: Vec<u8>,
}

/// Writes the text of an answer, and ends with its status where that was done.
pub fn write_answer<K: Sink>(out: &mut K, status: u8, text: &[u8]) -> u8
    requires { status < 6 }
    ensures ends { Ends (IsOne status text.now) (IsFrontOf text.now) result
        (port_of K.held K.faults out.old) (port_of K.held K.faults out.new) }
    ensures no_source { result ≢ 6 }
{
    match write_all(out, text) {
        Ok(()) => status,
        Err(WriteRefused::Fault) => WRITE_FAULT,
    }
}
