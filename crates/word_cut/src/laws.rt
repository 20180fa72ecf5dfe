// What follows from the definition of words.

ghost use Rattle.std.specs.{Prelude.{◌≡◌, ◌≢◌, ℕ, List}, List.{AllByRecursion}};
ghost use Rattle.word_cut.specs.declared.word.Word.{Word};
ghost use Rattle.word_cut.specs.declared.cutting.CutRefused.{CutRefused};
ghost use Rattle.word_cut.specs.Words.{IsCut, IsRefused, Stands};
ghost use Rattle.word_cut.specs.declared.cutting.CutRefused.TheVariants as refusals;

/// Bytes have one list of words.
pub fn law_one_cut()
    ensures { (bytes : List ℕ) (words others : List Word) → IsCut bytes words → IsCut bytes others
        → words ≡ others }
{}

/// Bytes that are refused have no words.
pub fn law_cut_or_refused()
    ensures { (bytes : List ℕ) (why : CutRefused) (words : List Word)
        → IsRefused bytes why → why ≢ refusals.Memory → IsCut bytes words → ⊥ }
{}

/// Bytes are refused at one place for one cause.
pub fn law_one_refusal()
    ensures { (bytes : List ℕ) (why other : CutRefused)
        → IsRefused bytes why → IsRefused bytes other → why ≢ refusals.Memory
        → other ≢ refusals.Memory → why ≡ other }
{}

/// Each word of the bytes stands in them, is of its kind and is short enough.
pub fn law_words_stand()
    ensures { (bytes : List ℕ) (words : List Word) → IsCut bytes words
        → AllByRecursion (Stands bytes) words }
{}
