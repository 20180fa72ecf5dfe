// The names of the two tokens.

ghost use Rattle.std.specs.{Prelude.{◌≡◌, ◌++◌, [], ◌∷◌, not, OnOk, IfOk}, List.{filter}};
ghost use Rattle.spec_core.specs.State.{is_in};
ghost use Rattle.conflict_variants.specs.Keyed.{names_in_use, token_name as token_name_of};
ghost use Rattle.conflict_variants.specs.Keyed.{unused_names as unused_names_of};

use crate::in_use::is_in_use;
use items::Items;
use spec_core::{Name, Spec};
use std::alloc::{AllocError, Global};

#[tactic(auto, using(crate::proofs::TokenNames::length_of_byte))]
fn token_name(alloc: Global, number: u8) -> Result<Name, AllocError>
    ensures { IfOk result (λ name. name ≡ token_name_of number) }
{
    let mut text = Vec::from_slice(alloc, b"t")?;
    let digits = number.to_string(alloc)?;
    text.extend_from_slice(digits.as_bytes())?;
    Name::new(alloc, text.as_slice())
}

// Adds a name at the end, where it isn't in use.
fn add_unused(spec: &Spec, names: &mut Items<Name>, name: Name) -> Result<(), AllocError>
    ensures { OnOk result (names.new ≡ names.old
        ++ filter (λ n. not (is_in n (names_in_use spec.now))) (name ∷ [])) }
{
    if is_in_use(spec, name.bytes()) {
        return Ok(());
    }
    names.push(name)?;
    Ok(())
}

#[tactic(auto, using(crate::proofs::TokenNames::unused_more))]
/// Those of t0 to t249 that aren't in use.
pub fn unused_names(alloc: Global, spec: &Spec) -> Result<Items<Name>, AllocError>
    ensures { IfOk result (λ names. names ≡ unused_names_of spec.now) }
{
    let mut names = Items::new(alloc);
    for number in 0..250u8 {
        let name = or_drop!(token_name(alloc, number); names);
        or_drop!(add_unused(spec, &mut names, name); names);
    }
    Ok(names)
}
