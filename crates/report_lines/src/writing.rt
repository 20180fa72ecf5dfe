// Writing words, numbers and lists behind spaces, and the ends of a line.

ghost use Rattle.std.specs.{Prelude.{◌≡◌, ◌∷◌, ◌++◌, [], map, OnOk}, Fmt.{decimal, signed_decimal}};
ghost use Rattle.std.specs.List.{flat_map};
ghost use Rattle.report_lines.specs.{Formats.{counted}, Fields.{most_count}};
ghost use Rattle.report_lines.specs.Words.{spaced, line_text};

use crate::list::Entry;
use itoa::Buffer;
use std::alloc::AllocError;

/// Appends a word behind a space.
pub fn put_word(out: &mut Vec<u8>, word: &[u8]) -> Result<(), AllocError>
    ensures { OnOk result (out.new.items ≡ out.old.items ++ spaced (word.now ∷ [])) }
{
    out.push(b' ')?;
    out.extend_from_slice(word)
}

/// Appends a number behind a space.
pub fn put_number(out: &mut Vec<u8>, number: u64) -> Result<(), AllocError>
    ensures { OnOk result (out.new.items ≡ out.old.items ++ spaced (decimal number ∷ [])) }
{
    let mut buffer = Buffer::new();
    put_word(out, buffer.format(number).as_bytes())
}

/// Appends a whole number behind a space.
pub fn put_integer(out: &mut Vec<u8>, number: i128) -> Result<(), AllocError>
    ensures { OnOk result (out.new.items ≡ out.old.items ++ spaced (signed_decimal number ∷ [])) }
{
    let mut buffer = Buffer::new();
    put_word(out, buffer.format(number).as_bytes())
}

/// Appends the words of some values, each behind a space.
pub fn put_entries<T: Entry>(out: &mut Vec<u8>, entries: &[T]) -> Result<(), AllocError>
    ensures { OnOk result (out.new.items ≡ out.old.items
        ++ spaced (flat_map T.format.put entries.now)) }
{
    'entries: for entry in entries {
        entry.write(out)?;
    }
    Ok(())
}

/// Appends a list behind its number.
pub fn put_list<T: Entry>(out: &mut Vec<u8>, entries: &[T]) -> Result<(), AllocError>
    ensures { OnOk result (out.new.items ≡ out.old.items
        ++ spaced ((counted most_count T.format).put entries.now)) }
{
    put_number(out, entries.len() as u64)?;
    put_entries(out, entries)
}

fn put_words(out: &mut Vec<u8>, words: &[&[u8]]) -> Result<(), AllocError>
    ensures { OnOk result (out.new.items ≡ out.old.items ++ spaced (map (λ w. w.now) words.now)) }
{
    match words {
        [] => Ok(()),
        [word, rest @ ..] => {
            put_word(out, *word)?;
            put_words(out, rest)
        }
    }
}

/// Appends the line of these words.
pub fn write_words(out: &mut Vec<u8>, first: &[u8], words: &[&[u8]]) -> Result<(), AllocError>
    ensures { OnOk result (out.new.items ≡ out.old.items
        ++ line_text (first.now ∷ map (λ w. w.now) words.now)) }
{
    out.extend_from_slice(first)?;
    put_words(out, words)?;
    out.push(b'\n')?;
    Ok(())
}
