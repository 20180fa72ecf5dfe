// The type of rows.
ghost use Rattle.std.specs.Prelude.{◌≡◌, true, IfOk, IsTrue, ◌↔◌, ℕ, ℤ};
ghost use Rattle.lin_rows.specs.Rows.{is_row, places_below, coefficient_at, is_contradiction, Satisfies};

use crate::number::same_number;
use crate::term::RowTerm;
use items::Items;
use std::alloc::{AllocError, Global};
use std::marker::Model;

/// The sum of coefficients times values is at most the bound. The places of the terms rise, no coefficient is 0, and all
/// numbers lie in the range of a row.
#[derive(Drop)]
pub struct Row {
    terms: Items<RowTerm>,
    bound: i128,
}

impl Model for Row {
    ghost use Rattle.std.specs.Prelude.{◌≡◌, true};
    ghost use Rattle.lin_rows.specs.Rows.{Row, is_row};

    ghost Value = { Row };

    ghost view = { λ a. record { terms = a.terms; bound = a.bound } };

    ghost invariant = { λ a. is_row (record { terms = a.terms; bound = a.bound }) ≡ true };
}

impl Row {
    // The row of terms that rise and a bound.
    pub(crate) fn new(terms: Items<RowTerm>, bound: i128) -> Row
        requires { is_row (record { terms = terms; bound = bound }) ≡ true }
        ensures { result ≡ record { terms = terms; bound = bound } }
    {
        Row { terms, bound }
    }

    // What a row keeps.
    pub(crate) fn law_row(&self)
        ensures { is_row self.now ≡ true }
    {
        let _ = &self.bound;
    }

    /// The terms, in rising place.
    pub fn terms(&self) -> &[RowTerm]
        ensures terms { result.now ≡ self.now.terms }
        ensures row { is_row self.now ≡ true }
    {
        self.terms.as_slice()
    }

    /// What the sum of coefficients times values is at most.
    pub fn bound(&self) -> i128
        ensures bound { result ≡ self.now.bound }
        ensures row { is_row self.now ≡ true }
    {
        self.bound
    }

    /// A row equal to this one.
    pub fn copy(&self, alloc: Global) -> Result<Row, AllocError>
        ensures { IfOk result (λ row. row ≡ self.now) }
    {
        let terms = Items::from_slice(alloc, self.terms.as_slice())?;
        Ok(Row {
            terms,
            bound: self.bound,
        })
    }

    /// The terms of a row that nothing else needs, in rising place.
    pub fn into_terms(self) -> Vec<RowTerm>
        ensures { result.items ≡ self.terms }
    {
        self.terms.into_vec()
    }

    /// The coefficient at a place, 0 where the row doesn't name it.
    pub fn coefficient(&self, place: u32) -> i128
        ensures coefficient { result ≡ coefficient_at self.now.terms place }
        ensures row { is_row self.now ≡ true }
    {
        for term in self.terms.as_slice() {
            if term.place == place {
                return term.coef;
            }
        }
        0
    }

    /// Whether all places are below a number.
    pub fn is_within(&self, places: u32) -> bool
        ensures { result ≡ places_below places self.now }
    {
        self.terms.as_slice().iter().all(|term| term.place < places)
    }

    /// Whether the row has no terms and a negative bound. No point satisfies such a row.
    pub fn is_contradiction(&self) -> bool
        ensures contradiction { result ≡ is_contradiction self.now }
        ensures no_point { IsTrue result → (x : ℕ → ℤ) → ¬ (Satisfies x self.now) }
    {
        self.terms.is_empty() && self.bound < 0
    }
}

fn same_terms(left: &[RowTerm], right: &[RowTerm]) -> bool
    ensures { IsTrue result ↔ (left.now ≡ right.now) }
{
    left == right
}

/// Whether two rows have the same terms and bound.
pub fn same_row(left: &Row, right: &Row) -> bool
    ensures { IsTrue result ↔ (left.now ≡ right.now) }
{
    same_number(&left.bound, &right.bound) && same_terms(left.terms(), right.terms())
}
