// Lines of words, added to a text.
ghost use Rattle.std.specs.Prelude.{◌≡◌, ◌++◌, OnOk, codes, decimal, [], ◌∷◌};
ghost use Rattle.spec_from_bytes.specs.Lines.{line};

use std::alloc::{AllocError, Global};

/// Adds bytes to a text.
pub fn push(text: &mut Vec<u8>, bytes: &[u8]) -> Result<(), AllocError>
    ensures { OnOk result (text.new.items ≡ text.old.items ++ bytes.now) }
{
    text.extend_from_slice(bytes)
}

/// Adds the line of two words.
pub fn push_pair(text: &mut Vec<u8>, first: &[u8], second: &[u8]) -> Result<(), AllocError>
    ensures { OnOk result (text.new.items ≡ text.old.items ++ line (first.now ∷ second.now ∷ [])) }
{
    push(text, first)?;
    push(text, b" ")?;
    push(text, second)?;
    push(text, b"\n")
}

/// Adds the line of a word and a number.
pub fn push_numbered(
    alloc: Global,
    text: &mut Vec<u8>,
    word: &[u8],
    number: usize,
) -> Result<(), AllocError>
    ensures { OnOk result (text.new.items ≡ text.old.items
        ++ line (word.now ∷ decimal number ∷ [])) }
{
    let digits = number.to_string(alloc)?;
    push_pair(text, word, digits.as_bytes())
}

/// Adds the line of two words and a number.
pub fn push_placed(
    alloc: Global,
    text: &mut Vec<u8>,
    first: &[u8],
    second: &[u8],
    number: usize,
) -> Result<(), AllocError>
    ensures { OnOk result (text.new.items ≡ text.old.items
        ++ line (first.now ∷ second.now ∷ decimal number ∷ [])) }
{
    push(text, first)?;
    push(text, b" ")?;
    push_numbered(alloc, text, second, number)
}

/// Adds the line of two words and of the place of a word.
pub fn push_named(
    alloc: Global,
    text: &mut Vec<u8>,
    what: &[u8],
    name: &[u8],
    word: u32,
) -> Result<(), AllocError>
    ensures { OnOk result (text.new.items ≡ text.old.items
        ++ line (what.now ∷ name.now ∷ codes "word" ∷ decimal word ∷ [])) }
{
    push(text, what)?;
    push(text, b" ")?;
    push_placed(alloc, text, name, b"word", word as usize)
}
