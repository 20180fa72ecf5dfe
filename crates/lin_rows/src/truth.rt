// Whether a point satisfies a row.
ghost use Rattle.std.specs.Prelude.{◌≡◌, true, length, IfSome, IsTrue, ◌↔◌, pos, nat_lt};
ghost use Rattle.std.specs.List.{list_all};
ghost use Rattle.lin_rows.specs.Rows.{Satisfies, places_below, point_of, sum_from, truth_at};

use crate::number::{add_product, is_at_most};
use crate::row::Row;
use crate::term::RowTerm;

// The sum of coefficients times values, where all products and partial sums are in range.
fn sum_at(terms: &[RowTerm], values: &[i128]) -> Option<i128>
    requires { list_all (λ t. nat_lt t.place (length values.now)) terms.now ≡ true }
    ensures { result ≡ sum_from (point_of values.now) (pos 0) terms.now }
{
    let mut so_far = 0;
    for term in terms {
        so_far = add_product(&so_far, &term.coef, &values[term.place as usize])?;
    }
    Some(so_far)
}

/// Whether the point with these values, listed by place, satisfies the row. None comes exactly where a product, or a partial
/// sum in rising place, leaves the range of a row.
pub fn truth_at(row: &Row, values: &[i128]) -> Option<bool>
    requires { places_below (length values.now) row.now ≡ true }
    ensures truth { result ≡ truth_at (point_of values.now) row.now }
    ensures meaning { IfSome result (λ truth. IsTrue truth ↔ Satisfies
        (point_of values.now) row.now) }
{
    let value = sum_at(row.terms(), values)?;
    Some(is_at_most(&value, &row.bound()))
}
