// That some bytes are read as one tree, are one specification, or are refused for one reason, and never both.
ghost use Rattle.std.specs.Prelude.{◌≡◌, ◌↔◌, ℕ, List};
ghost use Rattle.word_cut.specs.{declared.word.Word.{Word}, Words.{IsCut}};
ghost use Rattle.spec_core.specs.Specification.{Specification};
ghost use Rattle.spec_trees.specs.{Form.{TreeForm}, Place.{IsRead}};
ghost use Rattle.typing_rules.specs.{Fault.{Fault}, Sites.{specification_of}};
ghost use Rattle.typing_rules.specs.FaultRules.{IsLeastFault, HasNoFault};
ghost use Rattle.spec_from_bytes.specs.Refusal.{IsTreeOf, IsReadAs, IsSpecificationOf, Refusal};
ghost use Rattle.spec_from_bytes.specs.Refusal.{faulty, IsRefusal};

use typing_rules::{law_least_fault, law_read_is_written};

/// Some bytes are read as one tree at most, with the places of all its words.
pub fn law_one_tree()
    ensures { (bytes : List ℕ) (words others : List Word) (t u : TreeForm) → IsCut bytes words
        → IsCut bytes others → IsRead bytes words t → IsRead bytes others u → t ≡ u }
{}

/// Some bytes are one specification at most.
pub fn law_one_specification()
    ensures { (bytes : List ℕ) (d e : Specification) → IsSpecificationOf bytes d
        → IsSpecificationOf bytes e → d ≡ e }
{}

/// Some bytes are refused for one reason at most.
pub fn law_one_refusal()
    ensures { (bytes : List ℕ) (why other : Refusal) → IsRefusal bytes why → IsRefusal bytes other
        → why ≡ other }
{}

/// Bytes that are a specification aren't refused.
pub fn law_refused_or_specified()
    ensures { (bytes : List ℕ) (d : Specification) (why : Refusal) → IsSpecificationOf bytes d
        → IsRefusal bytes why → ⊥ }
{}

/// Bytes are refused for a fault exactly where it is the least fault of their tree, and they are read as a specification exactly where
/// their tree has no fault and declares it.
pub fn law_least_refusal()
    ensures refused { (bytes : List ℕ) (f : Fault)
        → IsRefusal bytes (faulty f) ↔ ((t : TreeForm) × IsTreeOf bytes t × IsLeastFault t f) }
    ensures specified { (bytes : List ℕ) (t : TreeForm) (d : Specification)
        → IsReadAs bytes t d ↔ (IsTreeOf bytes t × HasNoFault t × (d ≡ specification_of t)) }
{
    law_least_fault();
    law_read_is_written();
}
