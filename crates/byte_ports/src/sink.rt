// Sinks, and writing a whole text to one.
ghost use Rattle.std.specs.Prelude.{◌≡◌, ℕ, ◌+◌, ◌<◌, ◌≤◌, List, length, take, Option, IfOk, OnOk};
ghost use Rattle.std.specs.{Prelude.{OnErr}, Io.{WritesAtMost}};
ghost use Rattle.std.specs.Io.KnownBytes.{WriteAppends, Appends};
ghost use Rattle.byte_ports.specs.Faults.{IsFault};

use crate::Failed;
use thiserror::Error;

/// Where bytes go.
pub trait Sink {
    /// The bytes that the sink holds, where it tells them.
    ghost held: { Self → Option (List ℕ) };

    /// How often it has failed.
    ghost faults: { Self → ℕ };

    /// How often it has been written to, where it counts that.
    ghost writes: { Self → ℕ };

    /// `Ok(n)` means that the first n bytes of `piece` were appended, at least one where there is one. `Failed` appends
    /// nothing.
    fn write(&mut self, piece: &[u8]) -> Result<usize, Failed>
        ensures within { WritesAtMost result piece.now }
        ensures some { IfOk result (λ n. 0 < length piece.now → 0 < n) }
        ensures bytes { WriteAppends (held self.old) (held self.new) result piece.now }
        ensures failed { OnErr result (IsFault (faults self.old) (faults self.new)) }
        ensures never_falls { faults self.old ≤ faults self.new }
        ensures counted { writes self.new ≤ writes self.old + 1 };
}

/// Why a text wasn't written whole.
#[derive(Clone, Copy, Debug, PartialEq, Eq, Error)]
pub enum WriteRefused {
    #[error("a write failed")]
    Fault,
}

/// Writes all of the bytes. Where a write fails, some of them were appended, from the front, and never all.
pub fn write_all<K: Sink>(sink: &mut K, bytes: &[u8]) -> Result<(), WriteRefused>
    ensures ok { OnOk result (Appends (K.held sink.old) (K.held sink.new) bytes.now) }
    ensures prefix { OnErr result
        ((n : ℕ) × (n < length bytes.now)
        × Appends (K.held sink.old) (K.held sink.new) (take n bytes.now)) }
    ensures fault { OnErr result (IsFault (K.faults sink.old) (K.faults sink.new)) }
    ensures never_falls { K.faults sink.old ≤ K.faults sink.new }
    ensures writes { K.writes sink.new ≤ K.writes sink.old + length bytes.now }
{
    let mut written = 0;
    while written < bytes.len() {
        match sink.write(&bytes[written..]) {
            Ok(n) => written += n,
            Err(_) => return Err(WriteRefused::Fault),
        }
    }
    Ok(())
}
