// Which kind a word is of.

ghost use Rattle.std.specs.Prelude.{◌≡◌, true};
ghost use Rattle.word_cut.specs.Texts.{is_word as word_test, is_reserved as reserved_test};
ghost use Rattle.word_cut.specs.Texts.{kind_of as kind_for, is_long_name as long_name_test};
ghost use Rattle.word_cut.specs.Texts.{is_long_number as long_number_test, is_among, item_names};
ghost use Rattle.word_cut.specs.Texts.{line_names, formula_names, other_names};

use crate::lengths::{is_digit, is_letter};
use crate::word::WordKind;

fn is_item_name(text: &[u8]) -> bool
    ensures { result ≡ is_among item_names text.now }
{
    text == b"sort".as_slice()
        || text == b"const".as_slice()
        || text == b"relation".as_slice()
        || text == b"counter".as_slice()
        || text == b"initially".as_slice()
        || text == b"token".as_slice()
        || text == b"conflict".as_slice()
        || text == b"invariant".as_slice()
        || text == b"operation".as_slice()
        || text == b"end".as_slice()
}

fn is_line_name(text: &[u8]) -> bool
    ensures { result ≡ is_among line_names text.now }
{
    text == b"requires".as_slice()
        || text == b"insert".as_slice()
        || text == b"remove".as_slice()
        || text == b"add".as_slice()
        || text == b"set".as_slice()
        || text == b"takes".as_slice()
}

fn is_formula_name(text: &[u8]) -> bool
    ensures { result ≡ is_among formula_names text.now }
{
    text == b"forall".as_slice()
        || text == b"exists".as_slice()
        || text == b"true".as_slice()
        || text == b"false".as_slice()
        || text == b"not".as_slice()
        || text == b"and".as_slice()
        || text == b"or".as_slice()
        || text == b"implies".as_slice()
}

fn is_other_name(text: &[u8]) -> bool
    ensures { result ≡ is_among other_names text.now }
{
    text == b"cise".as_slice() || text == b"when".as_slice() || text == b"int".as_slice()
}

#[tactic(auto, unfolding(crate::specs::Texts::is_reserved))]
fn is_reserved(text: &[u8]) -> bool
    ensures { result ≡ reserved_test text.now }
{
    is_item_name(text) || is_line_name(text) || is_formula_name(text) || is_other_name(text)
}

/// The kind of a word.
pub fn kind_of(text: &[u8]) -> WordKind
    requires { word_test text.now ≡ true }
    ensures { result ≡ kind_for text.now }
{
    if is_reserved(text) {
        return WordKind::Reserved;
    }
    let [first, ..] = text else {
        return WordKind::Sign;
    };
    if is_letter(*first) {
        WordKind::Name
    } else if is_digit(*first) {
        WordKind::Number
    } else {
        WordKind::Sign
    }
}

/// The most bytes of a name.
pub const LONGEST_NAME: usize = 32;

/// The most digits of a number.
pub const LONGEST_NUMBER: usize = 38;

/// Whether a word is a name that is too long.
pub fn is_long_name(text: &[u8]) -> bool
    requires { word_test text.now ≡ true }
    ensures { result ≡ long_name_test text.now }
{
    match text {
        [] => false,
        [first, ..] => is_letter(*first) && text.len() > LONGEST_NAME,
    }
}

/// Whether a word is a number that is too long.
pub fn is_long_number(text: &[u8]) -> bool
    requires { word_test text.now ≡ true }
    ensures { result ≡ long_number_test text.now }
{
    match text {
        [] => false,
        [first, ..] => is_digit(*first) && text.len() > LONGEST_NUMBER,
    }
}
