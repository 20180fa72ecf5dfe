// The command `replay`: the text of a replayed schedule.
ghost use Rattle.std.specs.Prelude.{◌≡◌, ◌≤◌, ◌<◌, length, IfOk};
ghost use Rattle.byte_ports.specs.{Faults.{IsFault}, Ports.{port_of}, Told.{IsReadWithin}};
ghost use Rattle.schedule_json.specs.Texts.{most_schedule_bytes};
ghost use Rattle.cise_program.specs.Answer.{EndsWith};
ghost use Rattle.cise_program.specs.commands.Replay.{IsReplayed, IsReplayFront};

use byte_ports::{Answer, Sink, Source, write_answer_from};
use replay_text::replay_bytes;
use schedule_json::{LONG, MOST_SCHEDULE_BYTES};
use spec_core::Spec;
use std::alloc::{AllocError, Global};

/// The answer to the bytes of a schedule, of which there aren't too many.
fn replayed(alloc: Global, spec: &Spec, bytes: &[u8]) -> Result<Answer, AllocError>
    requires { length bytes.now ≤ most_schedule_bytes }
    ensures { IfOk result
        (λ answer. IsReplayed spec.now bytes.now answer.status answer.text.items) }
{
    let report = replay_bytes(alloc, spec, bytes)?;
    Ok(report)
}

/// Replays the schedule that a source gives: 0 where all steps were accepted and no state broke, 1 where a state broke, 4 where the
/// bytes are no schedule or a step is refused.
pub fn replay_schedule<E: Source, K: Sink>(
    alloc: Global,
    spec: &Spec,
    extra: &mut E,
    out: &mut K,
) -> u8
    ensures ends { EndsWith (E.left extra.old) (IsReplayed spec.now) (IsReplayFront spec.now) result
        (port_of K.held K.faults out.old) (port_of K.held K.faults out.new) }
    ensures read_fault { result ≡ 6 → IsFault (E.faults extra.old) (E.faults extra.new) }
    ensures unwritten { result ≡ 6 → out.new ≡ out.old }
    ensures end { result < 6
        → IsReadWithin most_schedule_bytes (E.left extra.old) (E.left extra.new) }
{
    write_answer_from(alloc, extra, out, MOST_SCHEDULE_BYTES, LONG, |bytes| {
        replayed(alloc, spec, bytes)
    })
}
