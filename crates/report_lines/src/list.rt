// Lists behind their number.

ghost use Rattle.std.specs.Prelude.{◌≡◌, ◌++◌, [], IfOk, OnOk};
ghost use Rattle.report_lines.specs.{Formats.{Format, counted, times_at}, Fields.{most_count}};
ghost use Rattle.report_lines.specs.Words.{left, spaced, Gives};

use crate::fields;
use crate::words::{ReadError, Words};
use items::Items;
use std::alloc::{AllocError, Global};

/// What a list in a line is made of: it is read from a few words, and written as them.
pub trait Entry: Drop {
    ghost format: { Format Self };

    /// The value at the front of words.
    fn read(words: Words<'_>) -> Result<(Self, Words<'_>), ReadError>
        ensures { Gives (λ x. (x.0, left x.1)) result (format.get (left words.entry)) };

    /// Appends the words of the value, each behind a space.
    fn write(&self, out: &mut Vec<u8>) -> Result<(), AllocError>
        ensures { OnOk result (out.new.items ≡ out.old.items ++ spaced (format.put self.now)) };
}

/// The room for so many values that is asked for at once. Most lists are short; the number of a longer one may be wrong, so for those room is
/// asked for as they are read.
const MOST_AT_ONCE: usize = 64;

// A list without values, with room for so many.
fn list_for<T: Entry>(alloc: Global, count: u32) -> Result<Items<T>, AllocError>
    ensures { IfOk result (λ list. list ≡ []) }
{
    let entries = Vec::with_capacity(alloc, MOST_AT_ONCE.min(count as usize))?;
    Ok(Items::from_vec(entries))
}

/// So many values.
pub fn times<'a, T: Entry>(
    alloc: Global,
    count: u32,
    words: Words<'a>,
) -> Result<(Items<T>, Words<'a>), ReadError>
    ensures { Gives (λ x. (x.0, left x.1)) result (times_at T.format count (left words.entry)) }
{
    let mut entries = list_for(alloc, count)?;
    let mut rest = words;
    'entries: for _ in 0..count {
        let (entry, after) = T::read(rest)?;
        entries.push(entry)?;
        rest = after;
    }
    Ok((entries, rest))
}

/// A list behind its number.
pub fn list<'a, T: Entry>(
    alloc: Global,
    words: Words<'a>,
) -> Result<(Items<T>, Words<'a>), ReadError>
    ensures { Gives (λ x. (x.0, left x.1)) result
        ((counted most_count T.format).get (left words.entry)) }
{
    let (count, rest) = fields::count(words)?;
    times(alloc, count, rest)
}
