// From the bytes of a schedule to the text of its simulation.

ghost use Rattle.std.specs.Prelude.{◌≡◌, ◌≤◌, length, IfOk};
ghost use Rattle.schedule_json.specs.{Fitting.{IsScheduleOf}, Texts.{most_schedule_bytes}};
ghost use Rattle.simulate_text.specs.Text.{simulate_text, simulate_status};
ghost use Rattle.simulate_text.specs.Recorded.{simulated_status, simulated_text};

use crate::writing::simulate;
use byte_ports::Answer;
use replay_text::refused_answer;
use schedule_json::{Schedule, read_schedule};
use spec_core::Spec;
use std::alloc::{AllocError, Global};

/// Simulates a schedule.
fn simulate_read(alloc: Global, spec: &Spec, schedule: &Schedule) -> Result<Answer, AllocError>
    requires { IsScheduleOf spec.now schedule.now }
    ensures text { IfOk result
        (λ report. report.text.items
        ≡ simulate_text spec.now schedule.now.world schedule.now.replicas schedule.now.steps) }
    ensures status { IfOk result
        (λ report. report.status
        ≡ simulate_status spec.now schedule.now.world schedule.now.replicas schedule.now.steps) }
{
    simulate(
        alloc,
        spec,
        &schedule.world,
        schedule.replicas,
        schedule.steps.as_slice(),
    )
}

/// Simulates the schedule that some bytes are, of which there aren't too many, or says why they are none.
pub fn simulate_bytes(alloc: Global, spec: &Spec, bytes: &[u8]) -> Result<Answer, AllocError>
    requires { length bytes.now ≤ most_schedule_bytes }
    ensures text { IfOk result (λ report. report.text.items ≡ simulated_text spec.now bytes.now) }
    ensures status { IfOk result (λ report. report.status ≡ simulated_status spec.now bytes.now) }
{
    match read_schedule(alloc, spec, bytes) {
        Ok(schedule) => simulate_read(alloc, spec, &schedule),
        Err(refused) => refused_answer(alloc, &refused),
    }
}
