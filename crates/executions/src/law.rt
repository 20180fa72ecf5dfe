// Why checking obligations is enough, and which sets of events have delivery orders.

ghost use Rattle.std.specs.Prelude.{ℕ, List};
ghost use Rattle.spec_core.specs.{declared.world.World.{World}, declared.world.Call.{Call}};
ghost use Rattle.spec_core.specs.Specification.{Specification};
ghost use Rattle.obligation_list.specs.Breaking.{Safe};
ghost use Rattle.executions.specs.Orders.{Event, IsOrder, IsClosed, IsOrderOf};
ghost use Rattle.executions.specs.{Executions.{IsExecution}, Convergence.{system_of, Converges}};

use spec_core::Spec;

/// A safe specification converges: in every world and every execution, replicas that took the same events are in one state, in
/// whichever orders they took them, and it satisfies every invariant. The rule is that of Gotsman, Yang, Ferreira, Najafzadeh
/// and Shapiro (POPL 2016). It says nothing of delivery, progress or time.
pub fn law_converges(spec: &Spec)
    requires { Safe spec.now }
    ensures { Converges spec.now }
{}

/// The members of a delivery order are a causally closed set, and in an execution each causally closed set of events has a
/// delivery order.
pub fn law_closed_sets()
    ensures closed { (events : List (Event Call)) (order : List ℕ) → IsOrder events order
        → IsClosed events order }
    ensures has_order { (d : Specification) (w : World) (events : List (Event Call))
        → IsExecution (system_of d w) events → (set : List ℕ) → IsClosed events set
        → (order : List ℕ) × IsOrderOf events set order }
{}
