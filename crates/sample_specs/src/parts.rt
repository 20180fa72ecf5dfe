// The small parts that a generated specification is built of: names with a number, lists of one, and what stands for an item.

ghost use Rattle.std.specs.Prelude.{◌≡◌, ◌≤◌, [], ◌∷◌, length, IfOk};
ghost use Rattle.spec_core.specs.declared.formula.Elem.{Elem as Element};
ghost use Rattle.spec_core.specs.Form.{form_of, has_form};
ghost use Rattle.sample_specs.specs.Sample.{numbered as numbered_of};

use items::Items;
use spec_core::{Elem, Formula, Name};
use std::alloc::{AllocError, Global};

/// A list of one member.
pub fn one<T: Drop>(alloc: Global, member: T) -> Result<Items<T>, AllocError>
    ensures { IfOk result (λ list. list ≡ member ∷ []) }
{
    let mut list = Items::new(alloc);
    list.push(member)?;
    Ok(list)
}

/// A word of 1 to 5 bytes with a number written behind it.
#[tactic(auto, using(crate::proofs::Names::length_of_byte))]
pub fn numbered(alloc: Global, word: &[u8], number: u8) -> Result<Name, AllocError>
    requires some { 1 ≤ length word.now }
    requires short { length word.now ≤ 5 }
    ensures { IfOk result (λ name. name ≡ numbered_of word.now number) }
{
    let mut text = Vec::from_slice(alloc, word)?;
    let digits = number.to_string(alloc)?;
    text.extend_from_slice(digits.as_bytes())?;
    Name::new(alloc, text.as_slice())
}

/// `r(i) ( x )`, where x is an element.
pub fn relation_holds(alloc: Global, relation: u8, x: Elem) -> Result<Formula, AllocError>
    ensures { IfOk result (λ formula. form_of formula ≡ has_form relation (x ∷ [])) }
{
    Ok(Formula::Has(relation, one(alloc, x)?))
}
