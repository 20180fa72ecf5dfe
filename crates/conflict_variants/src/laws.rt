// What the bare specification and the keyed ones keep.

ghost use Rattle.std.specs.Prelude.{◌≡◌, ℕ, true};
ghost use Rattle.spec_core.specs.{Specification.{Specification}, Typed.{is_specification}};
ghost use Rattle.conflict_variants.specs.Bare.{bare as bare_of};
ghost use Rattle.conflict_variants.specs.Keyed.{CanBeKeyed, keyed as keyed_of};

/// The bare specification of one that is well formed is well formed, and so are the keyed ones. So they are refused for want of memory
/// alone.
pub fn law_made_are_well_formed()
    ensures bare { (d : Specification) → is_specification d ≡ true
        → is_specification (bare_of d) ≡ true }
    ensures keyed { (d : Specification) (a p b q : ℕ) → is_specification d ≡ true
        → CanBeKeyed d a p b q → is_specification (keyed_of d a p b q) ≡ true }
{}
