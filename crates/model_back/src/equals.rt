// The constants that are equal.
ghost use Rattle.std.specs.Prelude.{◌≡◌, ◌++◌, IfOk, OnOk, false, slice_index_or};
ghost use Rattle.ground_problem.specs.Classes.{any_like};
ghost use Rattle.ground_atoms.specs.Symbols.{atom_of};
ghost use Rattle.model_back.specs.Equals.{equal_of, equals_from, is_listed, alike_by};

use ground_atoms::{Atom, Atoms};
use std::alloc::{AllocError, Global};

/// Two different constants that are equal.
#[derive(Clone, Copy)]
pub struct Equal {
    pub lesser: u32,
    pub greater: u32,
}

/// The truth value of a number; false where it has none.
pub fn truth_of(truths: &[bool], number: u32) -> bool
    ensures { result ≡ slice_index_or truths.now number false }
{
    truths.get(number as usize).copied().unwrap_or(false)
}

// Lists the two constants of an atom, where it is true.
fn list_equal(is_true: bool, atom: &Atom, equals: &mut Vec<Equal>) -> Result<(), AllocError>
    ensures { OnOk result (equals.new.items ≡ equals.old.items
        ++ equal_of is_true (atom_of atom.now)) }
{
    match atom {
        Atom::Same(lesser, greater) if is_true => {
            equals.push(Equal {
                lesser: *lesser,
                greater: *greater,
            })?;
            Ok(())
        }
        _ => Ok(()),
    }
}

/// The constants that an interpretation says are equal.
pub fn equals_of(alloc: Global, atoms: &Atoms, truths: &[bool]) -> Result<Vec<Equal>, AllocError>
    ensures { IfOk result (λ es. es.items ≡ equals_from
        (λ n. slice_index_or truths.now n false) 0 atoms.now.table.atoms) }
{
    let mut equals = Vec::new(alloc);
    for n in 0..u32::MAX {
        let Some(atom) = atoms.atom(n) else {
            return Ok(equals);
        };
        list_equal(truth_of(truths, n), atom, &mut equals)?;
    }
    Err(AllocError)
}

fn is_listed(equals: &[Equal], lesser: u32, greater: u32) -> bool
    ensures { result ≡ is_listed equals.now lesser greater }
{
    equals
        .iter()
        .any(|e| e.lesser == lesser && e.greater == greater)
}

/// Whether two constants are one, or are listed as equal.
pub fn alike(equals: &[Equal], a: u32, b: u32) -> bool
    ensures { result ≡ alike_by equals.now a b }
{
    if a == b {
        true
    } else if a < b {
        is_listed(equals, a, b)
    } else {
        is_listed(equals, b, a)
    }
}
