// What a Conflict means: no whole numbers satisfy the rows.
ghost use Rattle.std.specs.{Prelude.{◌≡◌, true, IsTrue}, List.{list_all}};
ghost use Rattle.lin_rows.specs.Rows.{is_row};
ghost use Rattle.theory_api.specs.Laws.{AreUnsatisfiable, all_below};

use crate::answer::TheoryAnswer;
use crate::theory::Theory;
use lin_rows::Row;
use std::alloc::Global;

/// The fact that rows keep what their type keeps. It looks at each row once.
pub fn law_rows(rows: &[Row])
    ensures { list_all is_row rows.now ≡ true }
{
    for row in rows {
        let _ = row.bound();
    }
}

/// Whether a solver refutes rows. Where it doesn't, numbers may or may not satisfy them.
pub fn refutes<T: Theory>(theory: &mut T, alloc: Global, rows: &[Row], ints: u32) -> bool
    requires places { all_below ints rows.now ≡ true }
    requires taken { T.takes rows.now ints }
    ensures { IsTrue result → AreUnsatisfiable rows.now }
{
    law_rows(rows);
    match theory.check(alloc, rows, ints) {
        TheoryAnswer::Conflict { used: _, steps: _ } => true,
        _ => false,
    }
}
