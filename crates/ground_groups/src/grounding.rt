// A ground problem in the making.
ghost use Rattle.std.specs.Prelude.{◌≡◌, []};

use ground_atoms::{Atoms, GroundFormula};
use items::Items;
use std::alloc::Global;

/// A ground problem in the making: the atoms so far, and the formulas over their numbers. More of both is made in this memory.
#[derive(Drop)]
pub struct Grounding {
    pub atoms: Atoms,
    pub formulas: Items<GroundFormula>,
    pub alloc: Global,
}

impl Grounding {
    /// Where these atoms are known, and no formula is made.
    pub fn new(alloc: Global, atoms: Atoms) -> Grounding
        ensures atoms { result.atoms ≡ atoms }
        ensures formulas { result.formulas ≡ [] }
    {
        Grounding {
            atoms,
            formulas: Items::new(alloc),
            alloc,
        }
    }
}
