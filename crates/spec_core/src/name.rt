// Names, seen as their bytes, and the test that a name is a word of the language.

ghost use Rattle.std.specs.{Prelude.{◌≡◌, ◌≤◌, length, IfOk}, List.{list_all}};
ghost use Rattle.spec_core.specs.Limits.{most_name_bytes};
ghost use Rattle.spec_core.specs.Name.{is_letter as is_letter_of, is_name_byte as is_name_byte_of};
ghost use Rattle.spec_core.specs.Name.{is_word as is_word_of, is_word_name as is_word_name_of};

use crate::limits::MOST_NAME_BYTES;
use items::Items;
use std::alloc::{AllocError, Global};
use std::marker::Model;

/// A text of 1 to 32 bytes that names a thing of a specification.
#[derive(Drop)]
pub struct Name {
    text: Items<u8>,
}

impl Model for Name {
    ghost use Rattle.std.specs.Prelude.{List, ℕ, ◌≡◌, true};
    ghost use Rattle.spec_core.specs.Name.{is_name};

    ghost Value = { List ℕ };

    ghost view = { λ a. a.text };

    ghost invariant = { λ a. is_name a.text ≡ true };
}

impl Name {
    /// A copy of a text of 1 to 32 bytes.
    pub fn new(alloc: Global, text: &[u8]) -> Result<Name, AllocError>
        requires some { 1 ≤ length text.now }
        requires within { length text.now ≤ most_name_bytes }
        ensures { IfOk result (λ name. name ≡ text.now) }
    {
        Ok(Name {
            text: Items::from_slice(alloc, text)?,
        })
    }

    /// The bytes of the text.
    pub fn bytes(&self) -> &[u8]
        ensures value { result.now ≡ self.now }
        ensures some { 1 ≤ length self.now }
        ensures within { length self.now ≤ most_name_bytes }
    {
        self.text.as_slice()
    }
}

fn is_letter(byte: u8) -> bool
    ensures { result ≡ is_letter_of byte }
{
    (b'a' <= byte && byte <= b'z') || (b'A' <= byte && byte <= b'Z')
}

fn is_name_byte(byte: u8) -> bool
    ensures { result ≡ is_name_byte_of byte }
{
    is_letter(byte) || (b'0' <= byte && byte <= b'9') || byte == b'_'
}

fn all_name_bytes(text: &[u8]) -> bool
    ensures { result ≡ list_all is_name_byte_of text.now }
{
    text.iter().all(|byte| is_name_byte(*byte))
}

fn is_word(text: &[u8]) -> bool
    ensures { result ≡ is_word_of text.now }
{
    match text {
        [] => false,
        [first, rest @ ..] => is_letter(*first) && all_name_bytes(rest),
    }
}

/// Whether a text is a word of the language that can be a name: a letter, and letters, digits and `_` behind it, at most 32
/// bytes in all.
pub fn is_word_name(text: &[u8]) -> bool
    ensures { result ≡ is_word_name_of text.now }
{
    1 <= text.len() && text.len() <= MOST_NAME_BYTES && is_word(text)
}
