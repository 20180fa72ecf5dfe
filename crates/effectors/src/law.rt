// Laws of the effect of a call, and of the values that it leaves.

ghost use Rattle.std.specs.Prelude.{◌≡◌, ◌↔◌, true, Option, Some, None};
ghost use Rattle.spec_core.specs.{declared.world.World.{World}, declared.world.Call.{Call}};
ghost use Rattle.spec_core.specs.{Specification.{Specification}, State.{Listing, Reads}};
ghost use Rattle.spec_core.specs.{Fits.{is_world, is_call, AgreeOn}, Typed.{is_specification}};
ghost use Rattle.effectors.specs.Effect.{after};
ghost use Rattle.effectors.specs.Beyond.{Beyond, AllInRange, IsFirstBeyond, first_beyond};

/// The state after a call depends on the readings at fitting tuples and keys alone.
pub fn law_effects_that_agree()
    ensures { (d : Specification) (w : World) (c : Call) (r s : Reads) → is_specification d ≡ true
        → is_world d w ≡ true → is_call d w c ≡ true → AgreeOn d w r s
        → after d w c r ≡ after d w c s }
{}

/// The search for the first value beyond the range of a state finds it, and finds none exactly where all values are in range.
pub fn law_first_beyond()
    ensures found { (s : Listing) (b : Beyond)
        → (first_beyond 0 s.counters ≡ Some b) ↔ IsFirstBeyond s b }
    ensures none { (s : Listing) → (first_beyond 0 s.counters ≡ None) ↔ AllInRange s }
{}
