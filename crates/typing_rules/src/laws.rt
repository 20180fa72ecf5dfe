// The law of typing.

ghost use Rattle.std.specs.Prelude.{◌≡◌, true, Ok};
ghost use Rattle.spec_core.specs.{Specification.{Specification}, Typed.{is_specification}};
ghost use Rattle.spec_trees.specs.{Form.{TreeForm}, Trees.{IsTree}};
ghost use Rattle.typing_rules.specs.Items.{typing};

/// What a tree of the grammar without faults declares is a well-formed specification.
pub fn law_typed_is_well_formed()
    ensures { (t : TreeForm) (d : Specification) → IsTree t → typing t ≡ Ok d
        → is_specification d ≡ true }
{}
