// The program of the bank but for its edge: from words, a source and a sink to a status.

ghost use Rattle.std.specs.Prelude.{◌≡◌, ◌<◌, ℕ, List, true, Some, map, string_bytes};
ghost use Rattle.std.specs.Option.{is_some};
ghost use Rattle.byte_ports.specs.{Faults.{IsFault}, Ports.{port_of}, Ending.{EndsIn}};
ghost use Rattle.byte_ports.specs.Told.{Tells, IsReadWithin};
ghost use Rattle.schedule_json.specs.Texts.{most_schedule_bytes};
ghost use Rattle.bank_host.specs.Running.{command_of as asked_of, IsAnswer};

use crate::hosting::answer_bytes;
use crate::spec::bank_spec;
use crate::words::{Command, command_of};
use byte_ports::{MEMORY, Sink, Source, WORDS, write_answer, write_answer_from};
use schedule_json::{LONG, MOST_SCHEDULE_BYTES};
use std::alloc::Global;

/// Carries a command out on a schedule of the bank, and writes the text.
fn run_command<S: Source, K: Sink>(
    alloc: Global,
    command: Command,
    schedule: &mut S,
    out: &mut K,
) -> u8
    ensures ends { (bytes : List ℕ) × Tells (S.left schedule.old) bytes
        × EndsIn (IsAnswer (Some command) bytes) result
        (port_of K.held K.faults out.old) (port_of K.held K.faults out.new) }
    ensures read_fault { result ≡ 6 → IsFault (S.faults schedule.old) (S.faults schedule.new) }
    ensures unwritten { result ≡ 6 → out.new ≡ out.old }
    ensures end { result < 6
        → IsReadWithin most_schedule_bytes (S.left schedule.old) (S.left schedule.new) }
{
    let Ok(spec) = bank_spec(alloc) else {
        return MEMORY;
    };
    write_answer_from(
        alloc,
        schedule,
        out,
        MOST_SCHEDULE_BYTES,
        LONG,
        |bytes| answer_bytes(alloc, &spec, command, bytes),
    )
}

/// Answers the words, and writes what `replay` or `simulate` of the bank's specification writes. The status is 0 where all steps were
/// carried out and no state broke, 1 where a state broke, 2 where the words are neither `replay SCHEDULE` nor `simulate SCHEDULE`, 4 where
/// the bytes are no schedule or a step is refused, 6 where the source has failed, 7 where the sink has, and 8 where memory is lacking.
pub fn run_bank<S: Source, K: Sink>(
    alloc: Global,
    words: &[String],
    schedule: &mut S,
    out: &mut K,
) -> u8
    ensures ends { (bytes : List ℕ) × Tells (S.left schedule.old) bytes
        × EndsIn (IsAnswer (asked_of (map string_bytes words.now)) bytes) result
        (port_of K.held K.faults out.old) (port_of K.held K.faults out.new) }
    ensures read_fault { result ≡ 6
        → (is_some (asked_of (map string_bytes words.now)) ≡ true)
        × IsFault (S.faults schedule.old) (S.faults schedule.new) }
    ensures unwritten { result ≡ 6 → out.new ≡ out.old }
    ensures end { result < 6 → is_some (asked_of (map string_bytes words.now)) ≡ true
        → IsReadWithin most_schedule_bytes (S.left schedule.old) (S.left schedule.new) }
{
    match command_of(words) {
        Some(command) => run_command(alloc, command, schedule, out),
        None => write_answer(out, WORDS, b"refused words\n"),
    }
}
