// The laws of the ground problem.

ghost use Rattle.std.specs.Prelude.{◌≡◌, ℕ, true, List};
ghost use Rattle.spec_core.specs.{declared.world.World.{World}, declared.world.Call.{Call}};
ghost use Rattle.spec_core.specs.{Specification.{Specification}, State.{Listing}, Fits.{is_state}};
ghost use Rattle.spec_core.specs.Typed.{is_specification};
ghost use Rattle.obligation_list.specs.declared.obligation.Obligation.{Obligation};
ghost use Rattle.obligation_list.specs.{Breaking.{Breaks}, Obligations.{IsObligation}};
ghost use Rattle.ground_problem.specs.{Symbols.{Interpretation, all_true}, Problem.{formulas_of}};
ghost use Rattle.ground_problem.specs.Readback.{world_of, calls_of, elements_at, IsEntry, ReadFrom};

/// What breaks an obligation of a well-formed specification gives an interpretation that makes all its formulas true. So an
/// obligation whose formulas no interpretation makes true holds.
pub fn law_broken_has_interpretation()
    ensures { (d : Specification) (ob : Obligation) (w : World) (s : Listing) (cs : List Call)
        (es : List ℕ)
        → is_specification d ≡ true → Breaks d ob w s cs es
        → (m : Interpretation) × (all_true m (formulas_of d ob) ≡ true) }
{}

/// An interpretation that makes all formulas of an obligation true gives values that break it: so the formulas of an obligation that
/// holds have no such interpretation. The values are read from the interpretation, which tells how many elements a sort may have and
/// which numbers they hold.
pub fn law_interpretation_breaks()
    ensures { (d : Specification) (ob : Obligation) (m : Interpretation) → is_specification d ≡ true
        → IsObligation d ob → all_true m (formulas_of d ob) ≡ true
        → (w : World) × (s : Listing) × (cs : List Call) × (es : List ℕ) × Breaks d ob w s cs es
        × ReadFrom d ob m w s cs }
{}

/// The world, the calls and the elements that such an interpretation gives break the obligation, with each state that reads what it
/// says of the entry.
pub fn law_values_break()
    ensures { (d : Specification) (ob : Obligation) (m : Interpretation) (s : Listing)
        → is_specification d ≡ true → IsObligation d ob → all_true m (formulas_of d ob) ≡ true
        → is_state d (world_of d ob m) s ≡ true → IsEntry d ob m s
        → Breaks d ob (world_of d ob m) s (calls_of d ob m) (elements_at d ob m) }
{}
