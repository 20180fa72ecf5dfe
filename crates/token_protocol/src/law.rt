// Why a network is an execution.

ghost use Rattle.std.specs.Prelude.{◌≡◌, ℕ, true, false, List};
ghost use Rattle.spec_core.specs.{declared.world.World.{World}, declared.world.Call.{Call}};
ghost use Rattle.spec_core.specs.Specification.{Specification};
ghost use Rattle.token_rules.specs.Conflict.{conflicts};
ghost use Rattle.obligation_list.specs.Breaking.{Safe};
ghost use Rattle.token_protocol.specs.{declared.network.NetStep.{NetStep}, Node.{takes_none}};
ghost use Rattle.token_protocol.specs.Network.{network_of};
ghost use Rattle.token_protocol.specs.Executed.{IsExecuted, IsGranted, NetworksConverge};

use spec_core::Spec;

/// After every list of steps, whatever is lost, repeated and reordered, the events form an execution, each replica has taken a
/// delivery order of it, and its state is the state after that.
pub fn law_networks_are_executions()
    ensures executed { (d : Specification) (w : World) (replicas : ℕ) (steps : List NetStep)
        → IsExecuted d w (network_of d w replicas steps) }
    ensures granted { (d : Specification) (w : World) (replicas : ℕ) (steps : List NetStep)
        → IsGranted d w (network_of d w replicas steps) }
{}

/// A call without a takes line conflicts with none, so it needs no grant.
pub fn law_conflicts_take_tokens()
    ensures { (d : Specification) (w : World) (a b : Call) → conflicts d w a b ≡ true
        → (takes_none d a ≡ false) × (takes_none d b ≡ false) }
{}

/// With a safe specification, replicas of a network that have taken the same events are in one state, in whichever order they took
/// them, and it satisfies every invariant.
pub fn law_networks_converge(spec: &Spec)
    requires { Safe spec.now }
    ensures { NetworksConverge spec.now }
{}
