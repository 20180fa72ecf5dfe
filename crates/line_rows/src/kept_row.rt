// A row that is kept while a line is taken: the row of an atom, which isn't copied, or one that was made for the line.
//
// An atom's row isn't copied where its literal is positive and its first coefficient is 1 or -1,
// which shows that tightening leaves it as it is.
ghost use Rattle.std.specs.Prelude.{◌≡◌, Some, None, option_copied};

use lin_rows::Row;
use std::marker::Model;

/// A row that is kept under its number, if one is. Contracts see the row.
#[derive(Drop)]
pub struct KeptRow<'a> {
    // A row of its own, or else one that stands elsewhere, if there is one. Of the two but one takes room.
    kept: Result<Row, Option<&'a Row>>,
}

impl<'a> Model for KeptRow<'a> {
    ghost use Rattle.std.specs.Prelude.{Option, option_and_then, option_copied};
    ghost use Rattle.std.specs.{Option.{option_or}, Result.{result_ok, result_err}};
    ghost use Rattle.lin_rows.specs.Rows.{Row};

    ghost Value = { Option Row };

    ghost view = { λ a. option_or (result_ok a.kept)
        (option_and_then option_copied (result_err a.kept)) };
}

impl<'a> KeptRow<'a> {
    /// No row, since nothing names it any more.
    #[inline(always)]
    pub fn none() -> KeptRow<'a>
        ensures { result ≡ None }
    {
        KeptRow { kept: Err(None) }
    }

    /// A row that stands elsewhere.
    #[inline(always)]
    pub fn lent(row: &'a Row) -> KeptRow<'a>
        ensures { result ≡ Some row.now }
    {
        KeptRow {
            kept: Err(Some(row)),
        }
    }

    /// A row of its own.
    #[inline(always)]
    pub fn made(row: Row) -> KeptRow<'a>
        ensures { result ≡ Some row }
    {
        KeptRow { kept: Ok(row) }
    }

    /// The row, if one is kept.
    #[inline(always)]
    pub fn row(&self) -> Option<&Row>
        ensures { option_copied result ≡ self.now }
    {
        match &self.kept {
            Ok(row) => Some(row),
            Err(lent) => *lent,
        }
    }
}
