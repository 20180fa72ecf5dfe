// The words of a line, without a copy of them.

ghost use Rattle.std.specs.Prelude.{◌≡◌, ◌==◌, ◌≤◌, ℕ, List, length, map, take, Some, IfSome};
ghost use Rattle.std.specs.List.{position_or_len};
ghost use Rattle.word_cut.specs.Whole.{size_read};
ghost use Rattle.report_lines.specs.Formats.{key_at, these_at, is_empty};
ghost use Rattle.report_lines.specs.Words.{left, parts, next_of, Gives};
ghost use Rattle.report_lines.specs.declared.words.ReadError.TheVariants.{Memory};

use crate::digits::front_number;
use std::alloc::{AllocError, AllocFailed};

/// Why words are not read.
#[derive(Clone, Copy, Debug)]
pub enum ReadError {
    Memory,
    /// The words aren't those of such a line.
    Form,
}

impl From<AllocError> for ReadError {
    ghost from_gives = { λ _ e. e ≡ Memory };

    fn from(_e: AllocError) -> ReadError {
        ReadError::Memory
    }
}

impl<T: Drop> From<AllocFailed<T>> for ReadError {
    ghost from_gives = { λ _ e. e ≡ Memory };

    fn from(_e: AllocFailed<T>) -> ReadError {
        ReadError::Memory
    }
}

/// The words of a line that are left: those of `rest`, or none where the line is over.
#[derive(Clone, Copy)]
pub struct Words<'a> {
    rest: Option<&'a [u8]>,
}

impl<'a> Words<'a> {
    /// All words of a line.
    pub fn of(line: &'a [u8]) -> Words<'a>
        ensures { left result ≡ parts line.now }
    {
        Words { rest: Some(line) }
    }

    /// Whether no words are left.
    pub fn is_over(self) -> bool
        ensures { result ≡ is_empty (left self.entry) }
    {
        match self.rest {
            Some(_) => false,
            None => true,
        }
    }
}

#[inline(always)]
fn word_len(bytes: &[u8]) -> usize
    ensures len { result ≡ position_or_len (λ b. b == 32) bytes.now }
    ensures within { result ≤ length bytes.now }
{
    for (place, byte) in bytes.iter().enumerate() {
        if *byte == b' ' {
            return place;
        }
    }
    bytes.len()
}

// The words of a line behind its first word, which is so long.
#[inline(always)]
fn behind(line: &[u8], len: usize) -> Words<'_>
    requires len { len ≡ position_or_len (λ b. b == 32) line.now }
    requires within { len ≤ length line.now }
    ensures { next_of (parts line.now) ≡ Some (take len line.now, left result) }
{
    if len == line.len() {
        return Words { rest: None };
    }
    Words {
        rest: Some(&line[len + 1..]),
    }
}

/// The next word, and the words behind it.
#[inline(always)]
pub fn next(words: Words<'_>) -> Result<(&[u8], Words<'_>), ReadError>
    ensures { Gives (λ x. (x.0.now, left x.1)) result (next_of (left words.entry)) }
{
    let Some(line) = words.rest else {
        return Err(ReadError::Form);
    };
    let len = word_len(line);
    Ok((&line[..len], behind(line, len)))
}

/// The number that the next word spells, where it is a short one, and the words behind it. None says nothing.
#[inline(always)]
pub(crate) fn next_number(words: Words<'_>) -> Option<(u64, Words<'_>)>
    ensures { IfSome result (λ x. (w : List ℕ) × (next_of (left words.entry) ≡ Some (w, left x.1))
        × (size_read w ≡ Some x.0)) }
{
    let line = words.rest?;
    let (number, len) = front_number(line)?;
    Some((number, behind(line, len)))
}

/// The words behind a word that must be next.
pub fn keyword<'a>(words: Words<'a>, key: &[u8]) -> Result<Words<'a>, ReadError>
    ensures { Gives (λ x. (tt, left x)) result (key_at key.now (left words.entry)) }
{
    let (word, rest) = next(words)?;
    if word != key {
        return Err(ReadError::Form);
    }
    Ok(rest)
}

/// The words behind some words that must be next.
pub fn these<'a>(words: Words<'a>, keys: &[&[u8]]) -> Result<Words<'a>, ReadError>
    ensures { Gives (λ x. (tt, left x)) result
        (these_at (map (λ w. w.now) keys.now) (left words.entry)) }
{
    match keys {
        [] => Ok(words),
        [key, keys @ ..] => {
            let rest = keyword(words, *key)?;
            these(rest, keys)
        }
    }
}
