// The opposite of a row: over whole numbers, `s <= b` fails exactly where `-s <= -b - 1` holds.
ghost use Rattle.std.specs.Prelude.{◌≡◌, true, ◌↔◌, ℕ, ℤ, IfOk, map};
ghost use Rattle.lin_rows.specs.Answers.{Gives};
ghost use Rattle.lin_rows.specs.Rows.{Satisfies, all_in_range, opposite, negated};

use crate::number::{below_minus, minus};
use crate::refused::RowRefused;
use crate::row::Row;
use crate::term::RowTerm;
use items::Items;
use std::alloc::{AllocError, Global};

fn opposites(alloc: Global, terms: &[RowTerm]) -> Result<Items<RowTerm>, AllocError>
    requires { all_in_range terms.now ≡ true }
    ensures { IfOk result (λ out. out ≡ map opposite terms.now) }
{
    let mut out = Vec::with_capacity(alloc, terms.len())?;
    for term in terms {
        out.push(RowTerm {
            place: term.place,
            coef: minus(&term.coef),
        })?;
    }
    Ok(Items::from_vec(out))
}

/// All coefficients negated, and the bound `-bound - 1`. Range comes exactly where the bound is 2^127 - 1.
pub fn negate(alloc: Global, row: &Row) -> Result<Row, RowRefused>
    ensures opposite { Gives result (negated row.now) }
    ensures points { IfOk result (λ out. (x : ℕ → ℤ) → Satisfies x out ↔ ¬ (Satisfies x row.now)) }
{
    let bound = below_minus(&row.bound()).ok_or(RowRefused::Range)?;
    let terms = opposites(alloc, row.terms())?;
    Ok(Row::new(terms, bound))
}
