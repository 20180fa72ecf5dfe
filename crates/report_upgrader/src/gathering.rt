// The text that is gathered before it is written.
ghost use Rattle.std.specs.Prelude.{◌≡◌, ◌≤◌, [], List, ℕ, Option, IfErr, OnOk, OnErr};
ghost use Rattle.std.specs.Io.KnownBytes.{Appends};
ghost use Rattle.byte_ports.specs.{Faults.{IsFault}, Written.{IsFrontWritten}};
ghost use Rattle.byte_ports.specs.declared.text.WriteOut.TheVariants.{Fault};
ghost use Rattle.report_upgrader.specs.Passing.{IsGathered};

use byte_ports::{Sink, WriteOut, write_text};

/// As soon as so many bytes are gathered they are written.
pub const MANY: usize = 65_536;

/// Writes a text, and empties it.
pub fn write_out<K: Sink>(text: &mut Vec<u8>, out: &mut K) -> Result<(), WriteOut>
    ensures ok { OnOk result (Appends (K.held out.old) (K.held out.new) text.old.items) }
    ensures emptied { OnOk result (text.new.items ≡ []) }
    ensures front { OnErr result (IsFrontWritten text.old.items (K.held out.old) (K.held out.new)) }
    ensures fault { OnErr result (IsFault (K.faults out.old) (K.faults out.new)) }
    ensures never_falls { K.faults out.old ≤ K.faults out.new }
{
    write_text(out, text.as_slice())?;
    text.clear();
    Ok(())
}

/// Writes a text, and empties it, where it is much.
pub fn write_much<K: Sink>(text: &mut Vec<u8>, out: &mut K) -> Result<(), WriteOut>
    ensures ok { (whole rest : List ℕ) (before : Option (List ℕ))
        → IsGathered whole before (K.held out.old) text.old.items rest
        → OnOk result (IsGathered whole before (K.held out.new) text.new.items rest) }
    ensures front { (whole rest : List ℕ) (before : Option (List ℕ))
        → IsGathered whole before (K.held out.old) text.old.items rest
        → OnErr result (IsFrontWritten whole before (K.held out.new)) }
    ensures fault { IfErr result
        (λ why. why ≡ Fault → IsFault (K.faults out.old) (K.faults out.new)) }
    ensures never_falls { K.faults out.old ≤ K.faults out.new }
{
    if text.len() < MANY {
        return Ok(());
    }
    write_out(text, out)
}
