// Reading whole numbers.

ghost use Rattle.std.specs.Prelude.{◌≡◌, ◌≤◌, ◌+◌, ◌*◌, ◌↔◌, ℤ, pos, neg_ℤ, Some, true};
ghost use Rattle.std.specs.{Prelude.{unsigned_abs, SomeIff}, Fmt.{signed_decimal}, List.{list_all}};
ghost use Rattle.word_cut.specs.Texts.{is_digit as digit_test, is_number as number_test};
ghost use Rattle.word_cut.specs.Whole.{number_of as number_for, greatest, size_read, read_of};

use crate::lengths::is_digit;

const GREATEST: u128 = 170141183460469231731687303715884105727;

fn are_digits(text: &[u8]) -> bool
    ensures { result ≡ list_all digit_test text.now }
{
    text.iter().all(|byte| is_digit(*byte))
}

fn is_number(text: &[u8]) -> bool
    ensures { result ≡ number_test text.now }
{
    match text {
        [] => false,
        [first, rest @ ..] => {
            if *first == b'0' {
                rest.is_empty()
            } else {
                is_digit(*first) && are_digits(rest)
            }
        }
    }
}

/// The number with one more digit behind it, if it isn't too great.
fn with_digit(number: u128, digit: u8) -> Option<u128>
    requires { digit ≤ 9 }
    ensures { SomeIff result (10 * number + digit ≤ greatest) (10 * number + digit) }
{
    let digit = digit as u128;
    if number > (GREATEST - digit) / 10 {
        return None;
    }
    Some(10 * number + digit)
}

/// The number that digits write, if it isn't too great.
fn number_of(text: &[u8]) -> Option<u128>
    requires { list_all digit_test text.now ≡ true }
    ensures { SomeIff result (number_for text.now ≤ greatest) (number_for text.now) }
{
    let mut number: u128 = 0;
    for byte in text {
        number = with_digit(number, *byte - b'0')?;
    }
    Some(number)
}

/// The number that a text writes without a sign, up to 2^127 - 1.
pub fn read_number(text: &[u8]) -> Option<u128>
    ensures { result ≡ size_read text.now }
{
    if !is_number(text) {
        return None;
    }
    number_of(text)
}

fn negative(size: u128) -> i128
    requires { size ≤ greatest }
    ensures { result ≡ neg_ℤ (pos size) }
{
    -(size as i128)
}

fn read(text: &[u8]) -> Option<i128>
    ensures { result ≡ read_of text.now }
{
    match text {
        [b'-', rest @ ..] => {
            if rest == b"0".as_slice() {
                return None;
            }
            let size = read_number(rest)?;
            Some(negative(size))
        }
        _ => {
            let size = read_number(text)?;
            Some(size as i128)
        }
    }
}

/// The whole number that a text spells in decimal, from -(2^127 - 1) to 2^127 - 1: `0`, or digits of which the first
/// isn't 0, with or without a `-` before them. Other texts, and greater numbers, give None.
pub fn read_whole(text: &[u8]) -> Option<i128>
    ensures value { result ≡ read_of text.now }
    ensures spelled { (z : ℤ) → unsigned_abs z ≤ greatest
        → (result ≡ Some z) ↔ (text.now ≡ signed_decimal z) }
{
    read(text)
}
