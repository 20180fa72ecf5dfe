// How many atoms and integer names a numbering has, and how many atoms and clauses the whole problem.
ghost use Rattle.std.specs.Prelude.{◌≡◌, ◌+◌, length, IfSome};

use crate::Layout;
use ground_atoms::Atoms;

/// How many atoms have numbers, unless they are more than a number counts.
pub fn count_atoms(atoms: &Atoms) -> Option<u32>
    ensures { IfSome result (λ n. n ≡ length atoms.now.table.atoms) }
{
    match u32::try_from(atoms.size().atoms) {
        Ok(count) => Some(count),
        Err(_) => None,
    }
}

/// How many integer names have numbers, unless they are more than a number counts. Nothing is promised of it: rows are tested by it.
pub(crate) fn count_ints(atoms: &Atoms) -> Option<u32> {
    match u32::try_from(atoms.size().ints) {
        Ok(count) => Some(count),
        Err(_) => None,
    }
}

/// How many atoms and clauses a whole problem has, the number of the first atom that names a part, and how many of the atoms name parts.
#[derive(Clone, Copy)]
pub struct Sizes {
    pub first: u32,
    pub atoms: usize,
    pub names: u32,
    pub clauses: usize,
}

/// How many atoms and clauses the whole problem has, where so many of the atoms are those of the table.
pub fn sizes_of(first: u32, layout: &Layout) -> Option<Sizes>
    ensures first { IfSome result (λ s. s.first ≡ first) }
    ensures atoms { IfSome result (λ s. s.atoms ≡ layout.now.behind.name) }
    ensures names { IfSome result (λ s. layout.now.behind.name ≡ first + s.names) }
    ensures clauses { IfSome result (λ s. s.clauses ≡ layout.now.behind.clause) }
{
    let names = layout.behind.name.checked_sub(first)?;
    Some(Sizes {
        first,
        atoms: layout.behind.name as usize,
        names,
        clauses: layout.behind.clause as usize,
    })
}
