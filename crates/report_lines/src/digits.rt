// The numbers that words spell: short ones in 64 bits and in one pass, the others by the readers of all whole numbers.

ghost use Rattle.std.specs.Prelude.{◌≡◌, ◌≤◌, ◌==◌, true, IfSome, Some, length, take};
ghost use Rattle.std.specs.List.{list_all, position_or_len};
ghost use Rattle.word_cut.specs.{Texts.{is_digit}, Whole.{number_of, size_read, read_of, greatest}};

use word_cut::{read_number, read_whole};

// The number that digits write, unless there are more than 19 of them.
fn digits(text: &[u8]) -> Option<u64>
    ensures digits { IfSome result (λ n. list_all is_digit text.now ≡ true) }
    ensures number { IfSome result (λ n. number_of text.now ≡ n) }
    ensures small { IfSome result (λ n. n ≤ greatest) }
{
    let mut number: u64 = 0;
    for byte in text {
        if *byte < b'0' || *byte > b'9' || number > 1_000_000_000_000_000_000 {
            return None;
        }
        number = 10 * number + (*byte - b'0') as u64;
    }
    Some(number)
}

// The number that the digits up to the first space write, and how many there are, unless more than 19, or another byte stands there.
#[inline(always)]
fn front_digits(bytes: &[u8]) -> Option<(u64, usize)>
    ensures len { IfSome result (λ x. x.1 ≡ position_or_len (λ b. b == 32) bytes.now) }
    ensures within { IfSome result (λ x. x.1 ≤ length bytes.now) }
    ensures digits { IfSome result (λ x. list_all is_digit (take x.1 bytes.now) ≡ true) }
    ensures number { IfSome result (λ x. number_of (take x.1 bytes.now) ≡ x.0) }
    ensures small { IfSome result (λ x. x.0 ≤ greatest) }
{
    let mut number: u64 = 0;
    for (place, byte) in bytes.iter().enumerate() {
        if *byte == b' ' {
            return Some((number, place));
        }
        if *byte < b'0' || *byte > b'9' || number > 1_000_000_000_000_000_000 {
            return None;
        }
        number = 10 * number + (*byte - b'0') as u64;
    }
    Some((number, bytes.len()))
}

/// The short number that the first word of bytes spells, and how long the word is. None says nothing.
#[tactic(auto, using(crate::proofs::ShortNumbers::front_read))]
#[inline(always)]
pub fn front_number(bytes: &[u8]) -> Option<(u64, usize)>
    ensures len { IfSome result (λ x. x.1 ≡ position_or_len (λ b. b == 32) bytes.now) }
    ensures within { IfSome result (λ x. x.1 ≤ length bytes.now) }
    ensures number { IfSome result (λ x. size_read (take x.1 bytes.now) ≡ Some x.0) }
{
    match bytes {
        [b'0'] => Some((0, 1)),
        [b'0', b' ', ..] => Some((0, 1)),
        [b'0', ..] => None,
        [b' ', ..] => None,
        [] => None,
        _ => front_digits(bytes),
    }
}

// The number that a word spells, where it is short. None says nothing.
#[tactic(auto, using(crate::proofs::ShortNumbers::digits_read))]
fn short_number(word: &[u8]) -> Option<u64>
    ensures { IfSome result (λ n. size_read word.now ≡ Some n) }
{
    match word {
        [] => None,
        [b'0'] => Some(0),
        [b'0', ..] => None,
        _ => digits(word),
    }
}

/// The number that a word spells without a sign, up to 2^127 - 1.
#[inline(always)]
pub fn word_number(word: &[u8]) -> Option<u128>
    ensures { result ≡ size_read word.now }
{
    match short_number(word) {
        Some(number) => Some(number as u128),
        None => read_number(word),
    }
}

/// The whole number that a word spells, up to 2^127 - 1 in size.
#[tactic(auto, using(crate::proofs::ShortNumbers::whole_read))]
pub fn word_integer(word: &[u8]) -> Option<i128>
    ensures { result ≡ read_of word.now }
{
    match short_number(word) {
        Some(number) => Some(number as i128),
        None => read_whole(word),
    }
}
