// From the bytes of a schedule to the text of its replay.

ghost use Rattle.std.specs.Prelude.{◌≡◌, ◌≢◌, ◌≤◌, length, IfOk, OnOk};
ghost use Rattle.schedule_json.specs.Fitting.{IsScheduleOf};
ghost use Rattle.schedule_json.specs.Texts.{most_schedule_bytes, refusal_text};
ghost use Rattle.replay_text.specs.Text.{replay_text, replay_status};
ghost use Rattle.replay_text.specs.Recorded.{schedule_status, schedule_text};

use crate::writing::replay;
use byte_ports::{Answer, REFUSED};
use schedule_json::{Schedule, ScheduleRefused, read_schedule, refusal_text};
use spec_core::Spec;
use std::alloc::{AllocError, Global};

/// Replays a schedule.
fn replay_read(alloc: Global, spec: &Spec, schedule: Schedule) -> Result<Answer, AllocError>
    requires { IsScheduleOf spec.now schedule }
    ensures text { IfOk result
        (λ report. report.text.items
        ≡ replay_text spec.now schedule.world schedule.replicas schedule.steps) }
    ensures status { IfOk result
        (λ report. report.status
        ≡ replay_status spec.now schedule.world schedule.replicas schedule.steps) }
{
    replay(
        alloc,
        spec,
        schedule.world,
        schedule.replicas,
        schedule.steps.as_slice(),
    )
}

/// The answer to bytes that are no schedule: it says why.
pub fn refused_answer(alloc: Global, refused: &ScheduleRefused) -> Result<Answer, AllocError>
    ensures text { IfOk result (λ answer. answer.text.items ≡ refusal_text refused.now) }
    ensures status { IfOk result (λ answer. answer.status ≡ 4) }
    ensures some { OnOk result (refused.now ≢ ScheduleRefused.Memory) }
{
    let text = refusal_text(alloc, refused)?;
    Ok(Answer {
        status: REFUSED,
        text,
    })
}

/// Replays the schedule that some bytes are, of which there aren't too many, or says why they are none.
pub fn replay_bytes(alloc: Global, spec: &Spec, bytes: &[u8]) -> Result<Answer, AllocError>
    requires { length bytes.now ≤ most_schedule_bytes }
    ensures text { IfOk result (λ report. report.text.items ≡ schedule_text spec.now bytes.now) }
    ensures status { IfOk result (λ report. report.status ≡ schedule_status spec.now bytes.now) }
{
    match read_schedule(alloc, spec, bytes) {
        Ok(schedule) => replay_read(alloc, spec, schedule),
        Err(refused) => refused_answer(alloc, &refused),
    }
}
