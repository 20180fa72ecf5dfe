// Cutting bytes into words.

ghost use Rattle.std.specs.Prelude.{◌≡◌, ◌≤◌, ◌<◌, ◌+◌, length, IfOk, IfErr};
ghost use Rattle.word_cut.specs.Words.{IsCut, IsRefused};
ghost use Rattle.word_cut.specs.Fronts.{StopsAt, goes_on_gap, GivesWord, GivesNext};
ghost use Rattle.word_cut.specs.declared.cutting.CutRefused.TheVariants.{Memory};

use crate::kinds::{is_long_name, is_long_number, kind_of};
use crate::lengths::{gap_len, line_feeds, word_len};
use crate::word::Word;
use std::alloc::{AllocError, AllocFailed, Global};

/// Why bytes have no words. The place is that of the first byte that is neither in a gap nor in a word that is short
/// enough; of a long name or number it is the place of its first byte.
#[derive(Clone, Copy, PartialEq, Eq, Debug)]
pub enum CutRefused {
    /// The byte there begins no word.
    Letter { at: u32 },
    /// A name of more than 32 bytes begins there.
    TooLongName { at: u32 },
    /// A number of more than 38 digits begins there.
    TooLongNumber { at: u32 },
    Memory,
}

impl From<AllocError> for CutRefused {
    ghost from_gives = { λ _ e. e ≡ Memory };

    fn from(_e: AllocError) -> CutRefused {
        CutRefused::Memory
    }
}

impl<T: Drop> From<AllocFailed<T>> for CutRefused {
    ghost from_gives = { λ _ e. e ≡ Memory };

    fn from(_e: AllocFailed<T>) -> CutRefused {
        CutRefused::Memory
    }
}

/// The word at the front of some bytes, which begin no gap.
fn word_here(bytes: &[u8], at: u32, line: u32) -> Result<Word, CutRefused>
    requires some { 0 < length bytes.now }
    requires size { length bytes.now ≤ 65536 }
    requires no_gap { StopsAt goes_on_gap bytes.now }
    ensures { GivesWord bytes.now at line result }
{
    let len = word_len(bytes);
    if len == 0 {
        return Err(CutRefused::Letter { at });
    }
    let text = &bytes[..len];
    if is_long_name(text) {
        return Err(CutRefused::TooLongName { at });
    }
    if is_long_number(text) {
        return Err(CutRefused::TooLongNumber { at });
    }
    Ok(Word {
        kind: kind_of(text),
        at,
        len: len as u32,
        line,
    })
}

/// The next word from a place on, in a line.
fn next_word(bytes: &[u8], at: u32, line: u32) -> Result<Option<Word>, CutRefused>
    requires place { at ≤ length bytes.now }
    requires size { length bytes.now ≤ 65536 }
    requires lines { line ≤ at + 1 }
    ensures { GivesNext bytes.now at line result }
{
    let from = &bytes[at as usize..];
    let gap = gap_len(from);
    let feeds = line_feeds(&from[..gap]);
    let rest = &from[gap..];
    if rest.is_empty() {
        return Ok(None);
    }
    let word = word_here(rest, at + gap as u32, line + feeds as u32)?;
    Ok(Some(word))
}

/// The words of some bytes, in their order.
pub fn cut(alloc: Global, bytes: &[u8]) -> Result<Vec<Word>, CutRefused>
    requires { length bytes.now ≤ 65536 }
    ensures ok { IfOk result (λ words. IsCut bytes.now words.items) }
    ensures refused { IfErr result (IsRefused bytes.now) }
{
    let mut words = Vec::new(alloc);
    let mut at = 0;
    let mut line = 1;
    'words: while let Some(word) = next_word(bytes, at, line)? {
        words.push(word)?;
        at = word.at + word.len;
        line = word.line;
    }
    Ok(words)
}
