// The law of reading what was spelled.

ghost use Rattle.std.specs.Prelude.{◌≡◌, List};
ghost use Rattle.word_cut.specs.{declared.word.Word.{Word}, Words.{IsCut}};
ghost use Rattle.spec_trees.specs.{Form.{TreeForm}, Spelling.{spelling}, Trees.{IsTree, SameTree}};
ghost use Rattle.spec_trees.specs.{Place.{texts_of, IsRead}, Layout.{text_of_tree}};

/// What is spelled is cut into the words of the tree, and read as the same tree.
pub fn law_spelled_is_read()
    ensures cut { (t : TreeForm) → IsTree t
        → (words : List Word) × IsCut (text_of_tree t) words
        × (texts_of (text_of_tree t) words ≡ spelling t) }
    ensures same { (t u : TreeForm) (words : List Word) → IsTree t → IsCut (text_of_tree t) words
        → IsRead (text_of_tree t) words u → SameTree u t }
{}
