// The trait of solvers, and the solver of problems without integer names.
ghost use Rattle.std.specs.Prelude.{◌≡◌, ℕ, Bool, true, false, List, []};
ghost use Rattle.lin_rows.specs.Rows.{Row as RowView};
ghost use Rattle.theory_api.specs.declared.answer.TheoryAnswer.TheVariants.{Model};
ghost use Rattle.theory_api.specs.Laws.{IsAnswer, all_below};

use crate::answer::TheoryAnswer;
use items::Items;
use lin_rows::Row;
use std::alloc::Global;

/// A solver of linear rows over whole numbers, which a clause search asks.
pub trait Theory {
    /// Whether it may answer Split.
    ghost MAY_SPLIT: { Bool };

    /// Whether it may answer Rows or Range.
    ghost MAY_STOP: { Bool };

    /// The lists of rows, each with a number of integer names, that it takes.
    ghost takes: { List RowView → ℕ → Type 0 };

    /// Whether it may answer Split.
    const MAY_SPLIT: bool;

    /// Whether it may answer Rows or Range.
    const MAY_STOP: bool;

    /// Says of rows over `ints` integer names whether whole numbers satisfy them all, or why it can't say so.
    fn check(&mut self, alloc: Global, rows: &[Row], ints: u32) -> TheoryAnswer
        requires places { all_below ints rows.now ≡ true }
        requires taken { takes rows.now ints }
        ensures { IsAnswer MAY_SPLIT MAY_STOP ints rows.now result };

    /// A solver that may split takes every list, since a search that asks it makes rows of its own.
    ghost takes_all: { MAY_SPLIT ≡ true → (rows : List RowView) (ints : ℕ)
        → all_below ints rows ≡ true → takes rows ints };
}

/// The solver of problems without integer names: it takes the empty list of rows alone, and uses no memory.
#[derive(Drop)]
pub struct NoInts;

impl Theory for NoInts {
    ghost MAY_SPLIT = { false };

    ghost MAY_STOP = { false };

    ghost takes = { λ rows ints. (rows ≡ []) × (ints ≡ 0) };

    const MAY_SPLIT: bool = false;

    const MAY_STOP: bool = false;

    fn check(&mut self, alloc: Global, rows: &[Row], ints: u32) -> TheoryAnswer
        requires { (rows.now ≡ []) × (ints ≡ 0) }
        ensures promised { IsAnswer false false ints rows.now result }
        ensures empty { result ≡ Model [] }
    {
        TheoryAnswer::Model(Items::new(alloc))
    }

    ghost takes_all = { λ h rows ints p. absurd Prim.cc };
}
