// The law of the text of a state.

ghost use Rattle.std.specs.Prelude.{◌≡◌};
ghost use Rattle.spec_core.specs.{declared.world.World.{World}, Specification.{Specification}};
ghost use Rattle.spec_core.specs.{State.{Reads}, Fits.{AgreeOn}};
ghost use Rattle.spec_states.specs.StateText.{state_text};

/// The text of a state depends on the readings at fitting tuples and keys alone.
pub fn law_texts_that_agree()
    ensures { (d : Specification) (w : World) (r s : Reads) → AgreeOn d w r s
        → state_text d w r ≡ state_text d w s }
{}
