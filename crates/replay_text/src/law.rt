// What a replay of a safe specification keeps.

ghost use Rattle.std.specs.Prelude.{◌≡◌, ◌≢◌, ℕ, true, List};
ghost use Rattle.spec_core.specs.{declared.world.World.{World}, Fits.{is_world}};
ghost use Rattle.obligation_list.specs.Breaking.{Safe};
ghost use Rattle.replica_replay.specs.declared.step.Step.{Step};
ghost use Rattle.replay_text.specs.{Course.{course}, Recorded.{schedule_status}};
ghost use Rattle.replay_text.specs.Safely.{GoesSafely};

use spec_core::Spec;

/// A replay of a safe specification breaks no invariant, in any world and whatever the steps, and replicas that have taken the same
/// events print the same lines of their states. So no bytes of a schedule come to status 1.
pub fn law_safe_replays(spec: &Spec)
    requires { Safe spec.now }
    ensures courses { (w : World) (replicas : ℕ) (steps : List Step) → is_world spec.now w ≡ true
        → GoesSafely spec.now w (course spec.now w replicas steps) }
    ensures schedules { (bytes : List ℕ) → schedule_status spec.now bytes ≢ 1 }
{}
