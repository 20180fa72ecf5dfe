// Fields of numbers.

ghost use Rattle.report_lines.specs.Formats.{number, both, behind};
ghost use Rattle.report_lines.specs.Fields.{count_format, integer_format, value_format};
ghost use Rattle.report_lines.specs.{Fields.{element_format}, Words.{left, Gives}};

use crate::digits::{word_integer, word_number};
use crate::words::{ReadError, Words, keyword, next, next_number};

/// A number up to a bound. Most are short, so these are read where they stand.
#[inline(always)]
pub fn number(words: Words<'_>, most: u32) -> Result<(u32, Words<'_>), ReadError>
    ensures { Gives (λ x. (x.0, left x.1)) result ((number most).get (left words.entry)) }
{
    let Some((number, rest)) = next_number(words) else {
        return long_number(words, most);
    };
    if number > most as u64 {
        return Err(ReadError::Form);
    }
    Ok((number as u32, rest))
}

// The same of a word that may be long.
#[cold]
#[inline(never)]
fn long_number(words: Words<'_>, most: u32) -> Result<(u32, Words<'_>), ReadError>
    ensures { Gives (λ x. (x.0, left x.1)) result ((number most).get (left words.entry)) }
{
    let (word, rest) = next(words)?;
    let Some(number) = word_number(word) else {
        return Err(ReadError::Form);
    };
    if number > most as u128 {
        return Err(ReadError::Form);
    }
    Ok((number as u32, rest))
}

/// A count, or the number of a clause, a row, an atom or a name.
#[inline(always)]
pub fn count(words: Words<'_>) -> Result<(u32, Words<'_>), ReadError>
    ensures { Gives (λ x. (x.0, left x.1)) result (count_format.get (left words.entry)) }
{
    number(words, u32::MAX)
}

/// A whole number in the range of a row.
#[tactic(auto, using(crate::proofs::ShortNumbers::whole_read))]
#[inline(always)]
pub fn integer(words: Words<'_>) -> Result<(i128, Words<'_>), ReadError>
    ensures { Gives (λ x. (x.0, left x.1)) result (integer_format.get (left words.entry)) }
{
    match next_number(words) {
        Some((number, rest)) => Ok((number as i128, rest)),
        None => long_integer(words),
    }
}

// The same of a word that may be long, or has a sign.
#[cold]
#[inline(never)]
fn long_integer(words: Words<'_>) -> Result<(i128, Words<'_>), ReadError>
    ensures { Gives (λ x. (x.0, left x.1)) result (integer_format.get (left words.entry)) }
{
    let (word, rest) = next(words)?;
    match word_integer(word) {
        Some(number) => Ok((number, rest)),
        None => Err(ReadError::Form),
    }
}

/// A whole number in the range of a state.
pub fn value(words: Words<'_>) -> Result<(i64, Words<'_>), ReadError>
    ensures { Gives (λ x. (x.0, left x.1)) result (value_format.get (left words.entry)) }
{
    let (word, rest) = next(words)?;
    let Some(number) = word_integer(word) else {
        return Err(ReadError::Form);
    };
    if number.unsigned_abs() > 1_000_000_000_000_000 {
        return Err(ReadError::Form);
    }
    Ok((number as i64, rest))
}

/// An element of a sort of this size.
pub fn element(words: Words<'_>, size: u32) -> Result<(u32, Words<'_>), ReadError>
    ensures { Gives (λ x. (x.0, left x.1)) result ((element_format size).get (left words.entry)) }
{
    let (element, rest) = count(words)?;
    if element >= size {
        return Err(ReadError::Form);
    }
    Ok((element, rest))
}

/// A count behind a word that must be next.
pub fn behind<'a>(words: Words<'a>, key: &[u8]) -> Result<(u32, Words<'a>), ReadError>
    ensures { Gives (λ x. (x.0, left x.1)) result
        ((behind key.now count_format).get (left words.entry)) }
{
    let rest = keyword(words, key)?;
    count(rest)
}

/// A count, and a whole number in the range of a row.
#[inline(always)]
pub fn pair(words: Words<'_>) -> Result<((u32, i128), Words<'_>), ReadError>
    ensures { Gives (λ x. (x.0, left x.1)) result
        ((both count_format integer_format).get (left words.entry)) }
{
    let (number, rest) = count(words)?;
    let (integer, rest) = integer(rest)?;
    Ok(((number, integer), rest))
}
