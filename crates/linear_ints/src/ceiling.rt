// The least number in the range of a state that a row allows.
ghost use Rattle.std.specs.Prelude.{◌≡◌, ◌<◌, ◌≤◌, ◌^◌, ◌+◌, ◌-◌, ◌-ℤ◌, ◌/◌, pos, false, int_lt, IfSome, MatchOption, true};
ghost use Rattle.linear_ints.specs.Ceilings.{is_beyond, taken, IsBound};

use line_rows::splitting::{distance, is_above};

// Whether the fraction (more - less) / by is above 10^15.
fn is_beyond(more: &i128, less: &i128, by: u128) -> bool
    requires { 0 < by }
    ensures { result ≡ is_beyond (more.now -ℤ less.now) by }
{
    is_above(more, less) && (distance(more, less) - 1) / by >= 1_000_000_000_000_000
}

// One more than a number.
fn next(whole: u128) -> i128
    requires { whole < 10 ^ 15 }
    ensures { result ≡ pos (whole + 1) }
{
    (whole + 1) as i128
}

// A number taken from 0, but no more than 10^15.
fn taken(whole: u128) -> i128
    ensures { result ≡ taken whole }
{
    if whole > 1_000_000_000_000_000 {
        -1_000_000_000_000_000
    } else {
        -(whole as i128)
    }
}

/// The least number from -10^15 to 10^15 that is at least the fraction (more - less) / by; nothing where the fraction is above.
pub fn bound(more: &i128, less: &i128, by: u128) -> Option<i128>
    requires { 0 < by }
    ensures { MatchOption result (is_beyond (more.now -ℤ less.now) by ≡ true)
        (λ v. IsBound v (more.now -ℤ less.now) by) }
{
    if is_beyond(more, less, by) {
        return None;
    }
    let gap = distance(more, less);
    if is_above(more, less) {
        Some(next((gap - 1) / by))
    } else {
        Some(taken(gap / by))
    }
}
