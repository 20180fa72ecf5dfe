// The law of the depth of formulas.

ghost use Rattle.std.specs.Prelude.{◌≤◌, ◌↔◌};
ghost use Rattle.parser_combinators.specs.declared.token.Version.{Version};
ghost use Rattle.spec_trees.specs.{Form.{Form}, Trees.{FormFits}, Depth.{depth, NamesFree}};

/// The formulas of the grammar are those that nest at most 200 deep.
pub fn law_depth()
    ensures { (v : Version) (f : Form) → FormFits v 199 f ↔ (NamesFree v f × (depth f ≤ 200)) }
{}
