// The laws of faults.

ghost use Rattle.std.specs.Prelude.{◌≡◌, ◌<◌, ◌↔◌, ℕ, List, length, Result};
ghost use Rattle.word_cut.specs.{declared.word.Word.{Word}, Words.{IsCut}};
ghost use Rattle.spec_core.specs.Specification.{Specification};
ghost use Rattle.spec_trees.specs.{Form.{TreeForm}, Place.{IsRead}};
ghost use Rattle.typing_rules.specs.{Fault.{Fault}, Items.{typing}};
ghost use Rattle.typing_rules.specs.FaultRules.{IsWritten, IsTypingOf};

/// Of a tree that stands in a text, `typing` answers what the tree declares, where it has no fault, and else the least of its faults;
/// and there is one such answer.
pub fn law_least_fault()
    ensures { (t : TreeForm) (r : Result Specification Fault) → IsWritten t
        → IsTypingOf t r ↔ (typing t ≡ r) }
{}

/// A tree that is read stands in a text.
pub fn law_read_is_written()
    ensures { (bytes : List ℕ) (words : List Word) (t : TreeForm) → length bytes < 4294967296
        → IsCut bytes words → IsRead bytes words t → IsWritten t }
{}
