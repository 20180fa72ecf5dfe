// The lines of evidence: what they say, and reading them.

ghost use Rattle.std.specs.{Prelude.{◌≡◌, ◌∷◌, ◌++◌, [], OnOk}, Fmt.{decimal}};
ghost use Rattle.proof_lines.specs.declared.line.RangeWhat.TheVariants.{Product};
ghost use Rattle.std.proofs.Common.{inl, inr};
ghost use Rattle.report_lines.specs.{Formats.{both, mapped}, Fields.{count_format}};
ghost use Rattle.report_lines.specs.Evidence.{rows_format, product_words, values_words, to_range};
ghost use Rattle.report_lines.specs.Evidence.{range_word as range_word_of, what_words};
ghost use Rattle.report_lines.specs.Evidence.{range_format};
ghost use Rattle.report_lines.specs.Words.{left, spaced, line_text, Gives};

use crate::fields::count;
use crate::log::{decided, put_used, put_values, used};
use crate::words::{ReadError, Words, keyword, next};
use crate::writing::put_number;
use items::{Items, or_drop};
use proof_lines::{Lit, RangeWhat, RowStep};
use std::alloc::{AllocError, Global};

/// The used literals and the steps of rows that became too many.
#[derive(Drop)]
pub struct RowsLine {
    pub used: Items<Lit>,
    pub steps: Items<RowStep>,
}

/// The used literals and the steps of rows, and where a number beyond the range stands.
#[derive(Drop)]
pub struct RangeLine {
    pub used: Items<Lit>,
    pub steps: Items<RowStep>,
    pub what: RangeWhat,
}

/// `rows`, the used literals and the steps.
pub fn read_rows(alloc: Global, words: Words<'_>) -> Result<(RowsLine, Words<'_>), ReadError>
    ensures { Gives (λ x. (x.0, left x.1)) result (rows_format.get (left words.entry)) }
{
    let rest = keyword(words, b"rows")?;
    used(alloc, rest)
}

fn place(words: Words<'_>) -> Result<(RangeWhat, Words<'_>), ReadError>
    ensures { Gives (λ x. (x.0, left x.1)) result
        (mapped (λ x. Product x.0 x.1.0 x.1.1)
        ((both count_format (both count_format count_format)).get (left words.entry))) }
{
    let (left, rest) = count(words)?;
    let (right, rest) = count(rest)?;
    let (place, rest) = count(rest)?;
    Ok((RangeWhat::Product { left, right, place }, rest))
}

fn product(alloc: Global, words: Words<'_>) -> Result<(RangeLine, Words<'_>), ReadError>
    ensures { Gives (λ x. (x.0, left x.1)) result
        (mapped (λ x. to_range (inl x)) (product_words.get (left words.entry))) }
{
    let (rows, rest) = used(alloc, words)?;
    let (what, rest) = or_drop!(place(rest); rows);
    Ok((
        RangeLine {
            used: rows.used,
            steps: rows.steps,
            what,
        },
        rest,
    ))
}

fn value(alloc: Global, words: Words<'_>) -> Result<(RangeLine, Words<'_>), ReadError>
    ensures { Gives (λ x. (x.0, left x.1)) result
        (mapped (λ x. to_range (inr (inl x))) (values_words.get (left words.entry))) }
{
    let (rows, rest) = used(alloc, words)?;
    let (decision, rest) = or_drop!(decided(alloc, rest); rows);
    Ok((
        RangeLine {
            used: rows.used,
            steps: rows.steps,
            what: RangeWhat::Value {
                row: decision.first,
                place: decision.second,
                values: decision.values,
            },
        },
        rest,
    ))
}

fn sum(alloc: Global, words: Words<'_>) -> Result<(RangeLine, Words<'_>), ReadError>
    ensures { Gives (λ x. (x.0, left x.1)) result
        (mapped (λ x. to_range (inr (inr x))) (values_words.get (left words.entry))) }
{
    let (rows, rest) = used(alloc, words)?;
    let (decision, rest) = or_drop!(decided(alloc, rest); rows);
    Ok((
        RangeLine {
            used: rows.used,
            steps: rows.steps,
            what: RangeWhat::Sum {
                row: decision.first,
                place: decision.second,
                values: decision.values,
            },
        },
        rest,
    ))
}

/// `product ..`, `value ..` or `sum ..`.
pub fn read_range(alloc: Global, words: Words<'_>) -> Result<(RangeLine, Words<'_>), ReadError>
    ensures { Gives (λ x. (x.0, left x.1)) result (range_format.get (left words.entry)) }
{
    let (word, rest) = next(words)?;
    if word == b"product".as_slice() {
        return product(alloc, rest);
    }
    if word == b"value".as_slice() {
        return value(alloc, rest);
    }
    if word == b"sum".as_slice() {
        return sum(alloc, rest);
    }
    Err(ReadError::Form)
}

/// Appends the line of evidence of too many rows.
pub fn write_rows(out: &mut Vec<u8>, used: &[Lit], steps: &[RowStep]) -> Result<(), AllocError>
    ensures { OnOk result (out.new.items ≡ out.old.items
        ++ line_text (rows_format.put (record { used = used.now; steps = steps.now }))) }
{
    out.extend_from_slice(b"rows")?;
    put_used(out, used, steps)?;
    out.push(b'\n')?;
    Ok(())
}

fn put_product(out: &mut Vec<u8>, left: u32, right: u32, place: u32) -> Result<(), AllocError>
    ensures { OnOk result (out.new.items ≡ out.old.items
        ++ spaced (decimal left ∷ decimal right ∷ decimal place ∷ [])) }
{
    put_number(out, left as u64)?;
    put_number(out, right as u64)?;
    put_number(out, place as u64)?;
    Ok(())
}

// The first word of the line of a number beyond the range.
fn range_word(what: &RangeWhat) -> &'static [u8]
    ensures { result.now ≡ range_word_of what.now }
{
    match what {
        RangeWhat::Product { .. } => b"product",
        RangeWhat::Value { .. } => b"value",
        RangeWhat::Sum { .. } => b"sum",
    }
}

// Its last words.
fn put_what(out: &mut Vec<u8>, what: &RangeWhat) -> Result<(), AllocError>
    ensures { OnOk result (out.new.items ≡ out.old.items ++ spaced (what_words what.now)) }
{
    match what {
        RangeWhat::Product { left, right, place } => put_product(out, *left, *right, *place),
        RangeWhat::Value { row, place, values } => put_values(out, *row, *place, values.as_slice()),
        RangeWhat::Sum { row, place, values } => put_values(out, *row, *place, values.as_slice()),
    }
}

/// Appends the line of evidence of a number beyond the range.
pub fn write_range(
    out: &mut Vec<u8>,
    used: &[Lit],
    steps: &[RowStep],
    what: &RangeWhat,
) -> Result<(), AllocError>
    ensures { OnOk result (out.new.items ≡ out.old.items
        ++ line_text (range_format.put (record {
          used = used.now;
          steps = steps.now;
          what = what.now;
        }))) }
{
    out.extend_from_slice(range_word(what))?;
    put_used(out, used, steps)?;
    put_what(out, what)?;
    out.push(b'\n')?;
    Ok(())
}
