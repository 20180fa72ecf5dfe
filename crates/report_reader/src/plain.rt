// Plain numbers of a line, read where they stand: of a few digits, before a space or at the end. Most numbers of a log are such.

ghost use Rattle.std.specs.Prelude.{◌≡◌, ◌<◌, ◌≤◌, ℕ, List, [], Some, IfSome, true, length, take};
ghost use Rattle.std.specs.{Prelude.{slice_index_or}, List.{list_all}, Prelude.{codes}};
ghost use Rattle.word_cut.specs.{Texts.{is_digit}, Whole.{number_of}};
ghost use Rattle.report_lines.specs.{Fields.{count_format}, Formats.{key_at}, Words.{parts}};
ghost use Rattle.report_reader.specs.Resolving.{IsShort};

// The number that the digits in front of bytes write, and how many there are: not all, where the number is a large one. The codes of the
// digits are 48 to 57.
#[inline(always)]
fn front_digits(bytes: &[u8]) -> (u32, usize)
    ensures within { result.1 ≤ length bytes.now }
    ensures plain { (k : ℕ) → k < result.1 → slice_index_or bytes.now k 0 ≡ 32 → ⊥ }
    ensures digits { list_all is_digit (take result.1 bytes.now) ≡ true }
    ensures number { number_of (take result.1 bytes.now) ≡ result.0 }
{
    let mut number: u32 = 0;
    for (place, byte) in bytes.iter().enumerate() {
        let code = *byte as u32;
        if code >= 48 && code <= 57 && number <= 400_000_000 {
            number = 10 * number + (code - 48);
        } else {
            return (number, place);
        }
    }
    (number, bytes.len())
}

// Whether so many bytes in front, which are digits, are a number: some, and no 0 before another one.
#[inline(always)]
fn is_short(bytes: &[u8], len: usize) -> bool
    requires { len ≤ length bytes.now }
    ensures { result ≡ true → IsShort len bytes.now }
{
    len == 1 || len > 1 && bytes[0] != b'0'
}

// The number in front of a space, and the bytes behind the space. None says nothing.
#[inline(always)]
pub(crate) fn number_before(bytes: &[u8]) -> Option<(u32, &[u8])>
    ensures { IfSome result (λ x. count_format.get (parts bytes.now) ≡ Some (x.0, parts x.1.now)) }
{
    let (number, len) = front_digits(bytes);
    if len < bytes.len() && bytes[len] == b' ' && is_short(bytes, len) {
        return Some((number, &bytes[len + 1..]));
    }
    None
}

// The number that all bytes are. None says nothing.
#[inline(always)]
pub(crate) fn last_number(bytes: &[u8]) -> Option<u32>
    ensures { IfSome result (λ n. count_format.get (parts bytes.now) ≡ Some (n, [])) }
{
    let (number, len) = front_digits(bytes);
    if len == bytes.len() && is_short(bytes, len) {
        return Some(number);
    }
    None
}

// The bytes behind an r and a space.
#[inline(always)]
pub(crate) fn behind_key(text: &[u8]) -> Option<&[u8]>
    ensures { IfSome result (λ rest. key_at (codes "r") (parts text.now) ≡ Some (tt, parts rest.now)) }
{
    if text.len() > 2 && text[0] == b'r' && text[1] == b' ' {
        return Some(&text[2..]);
    }
    None
}
