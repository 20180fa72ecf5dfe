// Rows, as parts of what is numbered.
ghost use Rattle.std.specs.{Prelude.{◌≡◌}, Cmp.{partial_equiv_from_equiv}};
ghost use Rattle.line_rows.specs.Evidence.{same_row};
ghost use Rattle.ground_atoms.specs.Keys.{fed_row, rows_equal, fed_alike};

use lin_rows::{Row, same_row};
use std::hash::{Hash, Hasher};
use std::marker::Model;

/// A row that is compared by its terms and its bound.
#[derive(Drop)]
pub struct KeyedRow {
    row: Row,
}

impl Model for KeyedRow {
    ghost use Rattle.lin_rows.specs.Rows.{Row};

    ghost Value = { Row };

    ghost view = { λ k. k.row };
}

impl KeyedRow {
    /// A row to be compared.
    pub fn new(row: Row) -> KeyedRow
        ensures { result ≡ row }
    {
        KeyedRow { row }
    }

    /// The row.
    pub fn row(&self) -> &Row
        ensures { result.now ≡ self.now }
    {
        &self.row
    }
}

impl PartialEq for KeyedRow {
    ghost eq = { same_row };

    ghost laws = { partial_equiv_from_equiv rows_equal };

    fn eq(&self, other: &KeyedRow) -> bool {
        same_row(self.row(), other.row())
    }
}

impl Eq for KeyedRow {
    ghost laws = { rows_equal };
}

impl Hash for KeyedRow {
    ghost hash_input = { fed_row };

    ghost respects_eq = { fed_alike };

    fn hash<H: Hasher>(&self, state: &mut H) {
        self.row.bound().hash(state);
        for term in self.row.terms() {
            term.place.hash(state);
            term.coef.hash(state);
        }
    }
}
