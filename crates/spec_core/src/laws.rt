// Laws of what a specification means.

ghost use Rattle.std.specs.Prelude.{◌≡◌, true};
ghost use Rattle.spec_core.specs.{declared.world.World.{World}, declared.world.Call.{Call}};
ghost use Rattle.spec_core.specs.{Specification.{Specification, op_of}, State.{Reads}};
ghost use Rattle.spec_core.specs.Meaning.{inv, pre, observed};
ghost use Rattle.spec_core.specs.Fits.{is_world, is_call, OperationFits, AgreeOn};
ghost use Rattle.spec_core.specs.Typed.{is_specification};

/// Invariants, preconditions and observations depend on the readings at fitting tuples and keys alone.
pub fn law_readings_that_agree()
    ensures inv { (d : Specification) (w : World) (r s : Reads) → is_specification d ≡ true
        → is_world d w ≡ true → AgreeOn d w r s → inv d w r ≡ inv d w s }
    ensures pre { (d : Specification) (w : World) (r s : Reads) (c : Call)
        → is_specification d ≡ true → is_world d w ≡ true → AgreeOn d w r s → is_call d w c ≡ true
        → pre d w c r ≡ pre d w c s }
    ensures observed { (d : Specification) (w : World) (r s : Reads) (c : Call)
        → is_specification d ≡ true → is_world d w ≡ true → AgreeOn d w r s → is_call d w c ≡ true
        → observed d w c r ≡ observed d w c s }
{}

/// All that the operation of a call asks and does fits at the call's arguments.
pub fn law_operations_fit()
    ensures { (d : Specification) (w : World) (c : Call) → is_specification d ≡ true
        → is_world d w ≡ true → is_call d w c ≡ true → OperationFits d w c.args (op_of d c.op) }
{}
