// Reading the lines of a log.

ghost use Rattle.std.specs.{Prelude.{◌≡◌, ◌∷◌, ◌++◌, [], OnOk}, Fmt.{decimal, signed_decimal}};
ghost use Rattle.proof_lines.specs.declared.line.Line.TheVariants.{Resolve, Farkas, Drop};
ghost use Rattle.std.proofs.Common.{inl, inr};
ghost use Rattle.report_lines.specs.Formats.{mapped};
ghost use Rattle.report_lines.specs.Logs.{used_words, resolve_words, decision_words, split_words};
ghost use Rattle.report_lines.specs.Logs.{drop_words, to_line, line_format, may_stand, log_format};
ghost use Rattle.report_lines.specs.Words.{left, spaced, Gives, line_text};

use crate::evidence::RowsLine;
use crate::fields::{count, pair};
use crate::list::list;
use crate::words::{ReadError, Words, next};
use crate::writing::{put_integer, put_list, put_number};
use items::{Items, or_drop};
use proof_lines::{Line, Lit, RowStep};
use std::alloc::{AllocError, Global};

/// The used literals and the steps, each list behind its number.
pub fn used(alloc: Global, words: Words<'_>) -> Result<(RowsLine, Words<'_>), ReadError>
    ensures { Gives (λ x. ((x.0.used, x.0.steps), left x.1)) result
        (used_words.get (left words.entry)) }
{
    let (used, rest) = list(alloc, words)?;
    let (steps, rest) = or_drop!(list(alloc, rest); used);
    Ok((RowsLine { used, steps }, rest))
}

fn resolve(words: Words<'_>) -> Result<(Line, Words<'_>), ReadError>
    ensures { Gives (λ x. (x.0, left x.1)) result
        (mapped (λ x. to_line (inl x)) (resolve_words.get (left words.entry))) }
{
    let (left, rest) = count(words)?;
    let (right, rest) = count(rest)?;
    let (pivot, rest) = count(rest)?;
    Ok((Line::Resolve { left, right, pivot }, rest))
}

fn farkas(alloc: Global, words: Words<'_>) -> Result<(Line, Words<'_>), ReadError>
    ensures { Gives (λ x. (x.0, left x.1)) result
        (mapped (λ x. to_line (inr (inl x))) (used_words.get (left words.entry))) }
{
    let (rows, rest) = used(alloc, words)?;
    Ok((
        Line::Farkas {
            used: rows.used,
            steps: rows.steps,
        },
        rest,
    ))
}

/// Behind the rows of a line: two numbers, and values behind their number.
#[derive(Drop)]
pub struct Decision {
    pub first: u32,
    pub second: u32,
    pub values: Items<i128>,
}

/// What decides.
pub fn decided(alloc: Global, words: Words<'_>) -> Result<(Decision, Words<'_>), ReadError>
    ensures { Gives (λ x. ((x.0.first, (x.0.second, x.0.values)), left x.1)) result
        (decision_words.get (left words.entry)) }
{
    let (first, rest) = count(words)?;
    let (second, rest) = count(rest)?;
    let (values, rest) = list(alloc, rest)?;
    Ok((
        Decision {
            first,
            second,
            values,
        },
        rest,
    ))
}

fn split(alloc: Global, words: Words<'_>) -> Result<(Line, Words<'_>), ReadError>
    ensures { Gives (λ x. (x.0, left x.1)) result
        (mapped (λ x. to_line (inr (inr (inl x)))) (split_words.get (left words.entry))) }
{
    let ((place, at), rest) = pair(words)?;
    let (rows, rest) = used(alloc, rest)?;
    let (decision, rest) = or_drop!(decided(alloc, rest); rows);
    Ok((
        Line::Split {
            place,
            at,
            used: rows.used,
            steps: rows.steps,
            low: decision.first,
            high: decision.second,
            values: decision.values,
        },
        rest,
    ))
}

fn dropped(alloc: Global, words: Words<'_>) -> Result<(Line, Words<'_>), ReadError>
    ensures { Gives (λ x. (x.0, left x.1)) result
        (mapped (λ x. to_line (inr (inr (inr x)))) (drop_words.get (left words.entry))) }
{
    let (clauses, rest) = list(alloc, words)?;
    Ok((Line::Drop { clauses }, rest))
}

fn line(alloc: Global, words: Words<'_>) -> Result<(Line, Words<'_>), ReadError>
    ensures { Gives (λ x. (x.0, left x.1)) result (line_format.get (left words.entry)) }
{
    let (word, rest) = next(words)?;
    if word == b"r".as_slice() {
        return resolve(rest);
    }
    if word == b"f".as_slice() {
        return farkas(alloc, rest);
    }
    if word == b"s".as_slice() {
        return split(alloc, rest);
    }
    if word == b"d".as_slice() {
        return dropped(alloc, rest);
    }
    Err(ReadError::Form)
}

fn stands(drops: bool, line: &Line) -> bool
    ensures { result ≡ may_stand drops line.now }
{
    match line {
        Line::Drop { clauses: _ } => drops,
        _ => true,
    }
}

/// A line of a log, in which clauses may be dropped or may not.
pub fn read_log_line(
    alloc: Global,
    drops: bool,
    words: Words<'_>,
) -> Result<(Line, Words<'_>), ReadError>
    ensures { Gives (λ x. (x.0, left x.1)) result ((log_format drops).get (left words.entry)) }
{
    let (line, rest) = line(alloc, words)?;
    if !stands(drops, &line) {
        return Err(ReadError::Form);
    }
    Ok((line, rest))
}

/// Appends the used literals and the steps, each list behind its number.
pub fn put_used(out: &mut Vec<u8>, used: &[Lit], steps: &[RowStep]) -> Result<(), AllocError>
    ensures { OnOk result (out.new.items ≡ out.old.items
        ++ spaced (used_words.put (used.now, steps.now))) }
{
    put_list(out, used)?;
    put_list(out, steps)?;
    Ok(())
}

fn put_numbers(out: &mut Vec<u8>, first: u32, second: u32) -> Result<(), AllocError>
    ensures { OnOk result (out.new.items ≡ out.old.items
        ++ spaced (decimal first ∷ decimal second ∷ [])) }
{
    put_number(out, first as u64)?;
    put_number(out, second as u64)?;
    Ok(())
}

/// Appends two numbers, and a list behind its number.
pub fn put_values(
    out: &mut Vec<u8>,
    first: u32,
    second: u32,
    values: &[i128],
) -> Result<(), AllocError>
    ensures { OnOk result (out.new.items ≡ out.old.items
        ++ spaced (decision_words.put (first, (second, values.now)))) }
{
    put_numbers(out, first, second)?;
    put_list(out, values)?;
    Ok(())
}

fn write_resolve(out: &mut Vec<u8>, left: u32, right: u32, pivot: u32) -> Result<(), AllocError>
    ensures { OnOk result (out.new.items ≡ out.old.items
        ++ line_text (line_format.put (Resolve left right pivot))) }
{
    out.push(b'r')?;
    put_numbers(out, left, right)?;
    put_number(out, pivot as u64)?;
    out.push(b'\n')?;
    Ok(())
}

fn write_farkas(out: &mut Vec<u8>, used: &[Lit], steps: &[RowStep]) -> Result<(), AllocError>
    ensures { OnOk result (out.new.items ≡ out.old.items
        ++ line_text (line_format.put (Farkas used.now steps.now))) }
{
    out.push(b'f')?;
    put_used(out, used, steps)?;
    out.push(b'\n')?;
    Ok(())
}

fn put_place(out: &mut Vec<u8>, place: u32, at: &i128) -> Result<(), AllocError>
    ensures { OnOk result (out.new.items ≡ out.old.items
        ++ spaced (decimal place ∷ signed_decimal at.now ∷ [])) }
{
    put_number(out, place as u64)?;
    put_integer(out, *at)?;
    Ok(())
}

fn write_dropped(out: &mut Vec<u8>, clauses: &[u32]) -> Result<(), AllocError>
    ensures { OnOk result (out.new.items ≡ out.old.items
        ++ line_text (line_format.put (Drop clauses.now))) }
{
    out.push(b'd')?;
    put_list(out, clauses)?;
    out.push(b'\n')?;
    Ok(())
}

/// Appends a line of a log.
pub fn write_log_line(out: &mut Vec<u8>, line: &Line) -> Result<(), AllocError>
    ensures { OnOk result (out.new.items ≡ out.old.items ++ line_text (line_format.put line.now)) }
{
    match line {
        Line::Resolve { left, right, pivot } => write_resolve(out, *left, *right, *pivot),
        Line::Farkas { used, steps } => write_farkas(out, used.as_slice(), steps.as_slice()),
        Line::Split {
            place,
            at,
            used,
            steps,
            low,
            high,
            values,
        } => {
            out.push(b's')?;
            put_place(out, *place, at)?;
            put_used(out, used.as_slice(), steps.as_slice())?;
            put_values(out, *low, *high, values.as_slice())?;
            out.push(b'\n')?;
            Ok(())
        }
        Line::Drop { clauses } => write_dropped(out, clauses.as_slice()),
    }
}
