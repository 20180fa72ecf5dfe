// What every simulation keeps, and what one of a safe specification keeps.

ghost use Rattle.std.specs.Prelude.{◌≡◌, ◌≢◌, ℕ, true, List};
ghost use Rattle.spec_core.specs.{declared.world.World.{World}, Specification.{Specification}};
ghost use Rattle.spec_core.specs.Fits.{is_world};
ghost use Rattle.obligation_list.specs.Breaking.{Safe};
ghost use Rattle.replica_replay.specs.declared.step.Step.{Step};
ghost use Rattle.token_protocol.specs.Executed.{IsExecuted};
ghost use Rattle.simulate_text.specs.{Course.{course}, Recorded.{simulated_status}};
ghost use Rattle.simulate_text.specs.Safely.{GoesSafely};

use spec_core::Spec;

/// In every simulation, whatever the steps, the events form an execution, each replica has taken a delivery order of it, and its state
/// is the state after that.
pub fn law_simulations_are_executions()
    ensures { (d : Specification) (w : World) (replicas : ℕ) (steps : List Step)
        → IsExecuted d w (course d w replicas steps).after.net }
{}

/// A simulation of a safe specification breaks no invariant, in any world and whatever the steps, and replicas that have taken the same
/// events print the same lines of their states. So no bytes of a schedule come to status 1.
pub fn law_safe_simulations(spec: &Spec)
    requires { Safe spec.now }
    ensures courses { (w : World) (replicas : ℕ) (steps : List Step) → is_world spec.now w ≡ true
        → GoesSafely spec.now w (course spec.now w replicas steps) }
    ensures schedules { (bytes : List ℕ) → simulated_status spec.now bytes ≢ 1 }
{}
