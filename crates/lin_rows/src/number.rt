// Products and sums that stay in the range of a row.
ghost use Rattle.std.specs.Prelude.{◌≡◌, int_le, ◌*ℤ◌, ◌+ℤ◌, ◌-ℤ◌, pos, true, ◌↔◌, IsTrue};
ghost use Rattle.std.specs.Option.{option_and_then};
ghost use Rattle.lin_rows.specs.Numbers.{fit, in_range};

/// Whether a number is in the range of a row: all but the least `i128`.
pub fn is_in_range(a: i128) -> bool
    ensures { result ≡ in_range a }
{
    a != i128::MIN
}

/// The product, where it is in range.
pub fn times(a: &i128, b: &i128) -> Option<i128>
    ensures { result ≡ fit (a.now *ℤ b.now) }
{
    match a.checked_mul(*b) {
        Some(c) if is_in_range(c) => Some(c),
        _ => None,
    }
}

/// The sum, where it is in range.
pub fn plus(a: &i128, b: &i128) -> Option<i128>
    ensures { result ≡ fit (a.now +ℤ b.now) }
{
    match a.checked_add(*b) {
        Some(c) if is_in_range(c) => Some(c),
        _ => None,
    }
}

/// A sum so far and one more product, where the product and the sum are in range.
pub fn add_product(so_far: &i128, a: &i128, b: &i128) -> Option<i128>
    ensures { result ≡ option_and_then (λ product. fit (so_far.now +ℤ product))
        (fit (a.now *ℤ b.now)) }
{
    plus(so_far, &times(a, b)?)
}

/// Whether one number is at most another.
pub fn is_at_most(a: &i128, b: &i128) -> bool
    ensures { result ≡ int_le a.now b.now }
{
    *a <= *b
}

/// The number with the other sign.
pub fn minus(a: &i128) -> i128
    requires { in_range a.now ≡ true }
    ensures { result ≡ pos 0 -ℤ a.now }
{
    -*a
}

/// The greatest whole number below the one with the other sign.
pub fn below_minus(a: &i128) -> Option<i128>
    requires { in_range a.now ≡ true }
    ensures { result ≡ fit (pos 0 -ℤ a.now -ℤ pos 1) }
{
    match minus(a).checked_sub(1) {
        Some(c) if is_in_range(c) => Some(c),
        _ => None,
    }
}

/// Whether two numbers are equal.
pub fn same_number(left: &i128, right: &i128) -> bool
    ensures { IsTrue result ↔ (left.now ≡ right.now) }
{
    *left == *right
}

/// Whether a number is 1.
pub fn is_one(a: &i128) -> bool
    ensures { IsTrue result → a.now ≡ pos 1 }
{
    *a == 1
}
