// What lists in lines are made of: literals, steps of rows and numbers.

ghost use Rattle.word_cut.specs.Whole.{size_read};
ghost use Rattle.report_lines.specs.Fields.{count_format, integer_format};
ghost use Rattle.report_lines.specs.Entries.{with_sign, literal_of, literal_format, small_literal};
ghost use Rattle.report_lines.specs.{Entries.{step_format}, Words.{Gives}};

use crate::digits::word_number;
use crate::fields::{count, integer, pair};
use crate::list::Entry;
use crate::words::{ReadError, Words, next};
use crate::writing::{put_integer, put_number};
use itoa::Buffer;
use proof_lines::{Lit, RowStep};
use std::alloc::AllocError;

fn signed(positive: bool, digits: &[u8]) -> Result<Lit, ReadError>
    ensures { Gives (λ l. l) result (small_literal (with_sign positive (size_read digits.now))) }
{
    let Some(atom) = word_number(digits) else {
        return Err(ReadError::Form);
    };
    if atom > u32::MAX as u128 {
        return Err(ReadError::Form);
    }
    Ok(Lit {
        atom: atom as u32,
        positive,
    })
}

fn literal(word: &[u8]) -> Result<Lit, ReadError>
    ensures { Gives (λ l. l) result (small_literal (literal_of word.now)) }
{
    match word {
        [b'+', digits @ ..] => signed(true, digits),
        [b'-', digits @ ..] => signed(false, digits),
        _ => Err(ReadError::Form),
    }
}

impl Entry for Lit {
    ghost format = { literal_format };

    fn read(words: Words<'_>) -> Result<(Lit, Words<'_>), ReadError> {
        let (word, rest) = next(words)?;
        let literal = literal(word)?;
        Ok((literal, rest))
    }

    fn write(&self, out: &mut Vec<u8>) -> Result<(), AllocError> {
        let mut buffer = Buffer::new();
        out.push(b' ')?;
        out.push(if self.positive { b'+' } else { b'-' })?;
        out.extend_from_slice(buffer.format(self.atom).as_bytes())
    }
}

impl Entry for RowStep {
    ghost format = { step_format };

    fn read(words: Words<'_>) -> Result<(RowStep, Words<'_>), ReadError> {
        let ((left, first), rest) = pair(words)?;
        let ((right, second), rest) = pair(rest)?;
        Ok((
            RowStep {
                left,
                first,
                right,
                second,
            },
            rest,
        ))
    }

    fn write(&self, out: &mut Vec<u8>) -> Result<(), AllocError> {
        put_number(out, self.left as u64)?;
        put_integer(out, self.first)?;
        put_number(out, self.right as u64)?;
        put_integer(out, self.second)
    }
}

impl Entry for i128 {
    ghost format = { integer_format };

    fn read(words: Words<'_>) -> Result<(i128, Words<'_>), ReadError> {
        integer(words)
    }

    fn write(&self, out: &mut Vec<u8>) -> Result<(), AllocError> {
        put_integer(out, *self)
    }
}

impl Entry for u32 {
    ghost format = { count_format };

    fn read(words: Words<'_>) -> Result<(u32, Words<'_>), ReadError> {
        count(words)
    }

    fn write(&self, out: &mut Vec<u8>) -> Result<(), AllocError> {
        put_number(out, *self as u64)
    }
}
