// Combining two rows so that a place cancels, a step of the elimination of Fourier and Motzkin.
ghost use Rattle.std.specs.Prelude.{◌≡◌, ◌*ℤ◌, ◌+ℤ◌, ◌≢◌, true, ◌<ℤ◌, ◌≤ℤ◌, ℕ, ℤ, pos, IfOk};
ghost use Rattle.lin_rows.specs.{Answers.{Gives}, Rows.{is_row, Satisfies, coefficient_at}};
ghost use Rattle.lin_rows.specs.Cancelling.{first_factor, second_factor, least_factor, combined};
ghost use Rattle.lin_rows.specs.Numbers.{in_range};

use crate::adding::sum;
use crate::refused::RowRefused;
use crate::row::Row;
use crate::tightening::gcd;
use std::alloc::Global;

/// A sum that cancels a place, with the multipliers of its two rows.
#[derive(Drop)]
pub struct Combined {
    pub row: Row,
    pub first: i128,
    pub second: i128,
}

// The least number by which `one` is multiplied to become a multiple of `other`.
fn least_factor(one: &i128, other: &i128) -> i128
    requires one { in_range one.now ≡ true }
    requires one_not { one.now ≢ pos 0 }
    requires other { in_range other.now ≡ true }
    ensures value { result ≡ least_factor one.now other.now }
    ensures sign { pos 0 ≤ℤ result }
{
    let divisor = gcd(one.unsigned_abs(), other.unsigned_abs());
    (other.unsigned_abs() / divisor) as i128
}

/// The least multipliers of two rows that cancel a place, whose coefficient is positive in the left row and negative in the
/// right one: first that of the left row, then that of the right row.
pub fn least_factors(left: &Row, right: &Row, place: u32) -> (i128, i128)
    requires left { pos 0 <ℤ coefficient_at left.now.terms place }
    requires right { coefficient_at right.now.terms place <ℤ pos 0 }
    ensures first { result.0 ≡ first_factor left.now right.now place }
    ensures second { result.1 ≡ second_factor left.now right.now place }
    ensures first_sign { pos 0 ≤ℤ result.0 }
    ensures second_sign { pos 0 ≤ℤ result.1 }
    ensures left_row { is_row left.now ≡ true }
    ensures right_row { is_row right.now ≡ true }
{
    let upper = left.coefficient(place);
    let lower = right.coefficient(place);
    (least_factor(&upper, &lower), least_factor(&lower, &upper))
}

/// The sum of two rows with the least multipliers that cancel a place, whose coefficient is positive in the left row and
/// negative in the right one. Range comes as for the sum.
pub fn combine(alloc: Global, left: &Row, right: &Row, place: u32) -> Result<Combined, RowRefused>
    requires left { pos 0 <ℤ coefficient_at left.now.terms place }
    requires right { coefficient_at right.now.terms place <ℤ pos 0 }
    ensures combined { Gives result (combined left.now right.now place) }
    ensures cancels { IfOk result (λ out. coefficient_at out.row.terms place ≡ pos 0) }
    ensures points { IfOk result (λ out. (x : ℕ → ℤ) → Satisfies x left.now → Satisfies x right.now
        → Satisfies x out.row) }
{
    let (first, second) = least_factors(left, right, place);
    let row = sum(alloc, left, first, right, second)?;
    Ok(Combined { row, first, second })
}

/// The multipliers of a combination are the least positive ones that cancel: no others are less.
pub fn law_least_multipliers()
    ensures { (a b u v : ℤ) → pos 0 <ℤ a → b <ℤ pos 0 → pos 0 <ℤ u → pos 0 <ℤ v
        → u *ℤ a +ℤ v *ℤ b ≡ pos 0 → (least_factor a b ≤ℤ u) × (least_factor b a ≤ℤ v) }
{}
