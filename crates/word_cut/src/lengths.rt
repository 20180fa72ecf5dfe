// How many bytes a gap or a word takes at the front of some bytes.

ghost use Rattle.std.specs.Prelude.{◌≡◌, ◌≤◌, ◌∷◌, [], false, take, drop, length};
ghost use Rattle.word_cut.specs.Texts.{is_letter as letter_test, is_digit as digit_test};
ghost use Rattle.word_cut.specs.Texts.{is_name_byte as name_byte_test, is_space as space_test};
ghost use Rattle.word_cut.specs.Texts.{is_single_sign as single_test};
ghost use Rattle.word_cut.specs.Texts.{is_double_sign as double_test};
ghost use Rattle.word_cut.specs.Words.{line_feeds as feeds_of};
ghost use Rattle.word_cut.specs.Fronts.{IsGapFront, IsWordFront, IsRun, double_at};

/// Whether a byte is an ASCII letter.
pub fn is_letter(byte: u8) -> bool
    ensures { result ≡ letter_test byte }
{
    (byte >= b'a' && byte <= b'z') || (byte >= b'A' && byte <= b'Z')
}

/// Whether a byte is an ASCII digit.
pub fn is_digit(byte: u8) -> bool
    ensures { result ≡ digit_test byte }
{
    byte >= b'0' && byte <= b'9'
}

/// Whether a byte may stand in a name after its first letter: an ASCII letter, a digit or `_`.
pub fn is_name_byte(byte: u8) -> bool
    ensures { result ≡ name_byte_test byte }
{
    is_letter(byte) || is_digit(byte) || byte == b'_'
}

fn is_space(byte: u8) -> bool
    ensures { result ≡ space_test byte }
{
    byte == b' ' || byte == b'\t' || byte == b'\r' || byte == b'\n'
}

fn is_single_sign(byte: u8) -> bool
    ensures { result ≡ single_test byte }
{
    b"(),:.*+-=<>".contains(&byte)
}

fn is_double_sign(byte: u8) -> bool
    ensures { result ≡ double_test byte }
{
    b"!<>".contains(&byte)
}

/// The length of the gap at the front, which may be 0.
pub fn gap_len(bytes: &[u8]) -> usize
    ensures { IsGapFront bytes.now result }
{
    let mut commented = false;
    for (place, byte) in bytes.iter().enumerate() {
        if commented {
            commented = *byte != b'\n';
        } else if *byte == b'#' {
            commented = true;
        } else if !is_space(*byte) {
            return place;
        }
    }
    bytes.len()
}

/// How many lines end in the bytes.
pub fn line_feeds(bytes: &[u8]) -> usize
    ensures { result ≡ feeds_of bytes.now }
{
    bytes.iter().filter(|byte| **byte == b'\n').count()
}

fn name_run(bytes: &[u8]) -> usize
    ensures { IsRun name_byte_test bytes.now result }
{
    for (place, byte) in bytes.iter().enumerate() {
        if !is_name_byte(*byte) {
            return place;
        }
    }
    bytes.len()
}

fn digit_run(bytes: &[u8]) -> usize
    ensures { IsRun digit_test bytes.now result }
{
    for (place, byte) in bytes.iter().enumerate() {
        if !is_digit(*byte) {
            return place;
        }
    }
    bytes.len()
}

fn begins_double(first: u8, rest: &[u8]) -> bool
    ensures { result ≡ double_at first rest.now }
{
    match rest {
        [] => false,
        [next, ..] => is_double_sign(first) && *next == b'=',
    }
}

fn sign_len(first: u8, rest: &[u8]) -> usize
    requires no_letter { letter_test first ≡ false }
    requires no_digit { digit_test first ≡ false }
    ensures { IsWordFront (first ∷ rest.now) result }
{
    if begins_double(first, rest) {
        2
    } else if is_single_sign(first) {
        1
    } else {
        0
    }
}

/// The length of the longest word at the front, or 0 where no word begins there.
pub fn word_len(bytes: &[u8]) -> usize
    ensures { IsWordFront bytes.now result }
{
    let [first, rest @ ..] = bytes else {
        return 0;
    };
    if is_letter(*first) {
        1 + name_run(rest)
    } else if *first == b'0' {
        1
    } else if is_digit(*first) {
        1 + digit_run(rest)
    } else {
        sign_len(*first, rest)
    }
}
