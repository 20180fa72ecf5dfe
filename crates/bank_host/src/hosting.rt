// Schedules of the bank, carried out with the bank's own code: replayed by a host, and simulated by the nodes of a network.

ghost use Rattle.std.specs.Prelude.{◌≡◌, ◌≤◌, true, Some, Ok, length, IfOk};
ghost use Rattle.spec_core.specs.Fits.{world_fits};
ghost use Rattle.schedule_json.specs.{Fitting.{IsScheduleOf}, Texts.{most_schedule_bytes}};
ghost use Rattle.replay_text.specs.Text.{replay_text, replay_status};
ghost use Rattle.simulate_text.specs.Text.{simulate_text, simulate_status};
ghost use Rattle.bank_host.specs.{Bank.{bank}, Running.{IsAnswer}};
ghost use Rattle.bank_host.specs.Carried.{status_read, text_read};

use crate::effect::BankCode;
use crate::words::Command;
use byte_ports::{Answer, REFUSED};
use replay_text::replay_by;
use replica_host::{Host, Native};
use schedule_json::{Schedule, read_schedule, refusal_text};
use simulate_text::simulate_by;
use spec_core::{Spec, World};
use std::alloc::{AllocError, Global};

/// The bank's own code, beside its specification in a world.
fn native_of<'a>(alloc: Global, spec: &'a Spec, world: &'a World) -> Native<'a, BankCode, BankCode>
    requires spec { spec.now ≡ bank }
    requires world { world_fits spec.now world.now ≡ true }
    ensures spec { result.spec ≡ spec.now }
    ensures world { result.world ≡ world.now }
{
    let effect = BankCode { alloc };
    let guard = BankCode { alloc };
    Native::new(spec, world, effect, guard)
}

/// The replay of a schedule, by a host.
fn replayed(alloc: Global, spec: &Spec, schedule: &Schedule) -> Result<Answer, AllocError>
    requires spec { spec.now ≡ bank }
    requires schedule { IsScheduleOf spec.now schedule.now }
    ensures text { IfOk result
        (λ report. report.text.items
        ≡ replay_text spec.now schedule.now.world schedule.now.replicas schedule.now.steps) }
    ensures status { IfOk result
        (λ report. report.status
        ≡ replay_status spec.now schedule.now.world schedule.now.replicas schedule.now.steps) }
{
    let native = native_of(alloc, spec, &schedule.world);
    let mut host = Host::new(alloc, native, schedule.replicas)?;
    let steps = schedule.steps.as_slice();
    replay_by(alloc, spec, &mut host, schedule.replicas, steps)
}

/// The simulation of a schedule, by the nodes of a network.
fn simulated(alloc: Global, spec: &Spec, schedule: &Schedule) -> Result<Answer, AllocError>
    requires spec { spec.now ≡ bank }
    requires schedule { IsScheduleOf spec.now schedule.now }
    ensures text { IfOk result
        (λ report. report.text.items
        ≡ simulate_text spec.now schedule.now.world schedule.now.replicas schedule.now.steps) }
    ensures status { IfOk result
        (λ report. report.status
        ≡ simulate_status spec.now schedule.now.world schedule.now.replicas schedule.now.steps) }
{
    let native = native_of(alloc, spec, &schedule.world);
    let steps = schedule.steps.as_slice();
    simulate_by(alloc, spec, native, schedule.replicas, steps)
}

/// What a command comes to for a schedule.
fn carried_out(
    alloc: Global,
    spec: &Spec,
    command: Command,
    schedule: &Schedule,
) -> Result<Answer, AllocError>
    requires spec { spec.now ≡ bank }
    requires schedule { IsScheduleOf spec.now schedule.now }
    ensures text { IfOk result
        (λ report. report.text.items ≡ text_read command spec.now (Ok schedule.now)) }
    ensures status { IfOk result
        (λ report. report.status ≡ status_read command spec.now (Ok schedule.now)) }
{
    match command {
        Command::Replay => replayed(alloc, spec, schedule),
        Command::Simulate => simulated(alloc, spec, schedule),
    }
}

/// The answer to the bytes of a schedule, of which there aren't too many.
pub fn answer_bytes(
    alloc: Global,
    spec: &Spec,
    command: Command,
    bytes: &[u8],
) -> Result<Answer, AllocError>
    requires spec { spec.now ≡ bank }
    requires within { length bytes.now ≤ most_schedule_bytes }
    ensures { IfOk result
        (λ answer. IsAnswer (Some command) bytes.now answer.status answer.text.items) }
{
    match read_schedule(alloc, spec, bytes) {
        Ok(schedule) => {
            let report = carried_out(alloc, spec, command, &schedule)?;
            Ok(report)
        }
        Err(refused) => {
            let text = refusal_text(alloc, &refused)?;
            Ok(Answer {
                status: REFUSED,
                text,
            })
        }
    }
}
