// The first two lines of a block: what they say, and reading them.

ghost use Rattle.std.specs.{Prelude.{◌≡◌, ◌+◌, ◌∷◌, ◌++◌, [], codes, OnOk}, Fmt.{decimal}};
ghost use Rattle.report_lines.specs.Blocks.{invariant_name, operation_name, thing_name};
ghost use Rattle.report_lines.specs.Blocks.{obligation_format, cause_words, undecided_words};
ghost use Rattle.report_lines.specs.{Blocks.{to_cause, verdict_format}, Formats.{mapped}};
ghost use Rattle.report_lines.specs.Words.{left, line_text, Gives};

use crate::fields::count;
use crate::words::{ReadError, Words, keyword, next, these};
use crate::writing::write_words;
use itoa::Buffer;
use obligation_list::Obligation;
use spec_core::{Spec, Thing};
use std::alloc::AllocError;

/// The first line of a verdict, with the number of log lines that follow.
#[derive(Clone, Copy)]
pub enum VerdictWord {
    Proved(u32),
    Refuted,
    Instances,
    Lines(u32),
    Rows(u32),
    Range(u32),
}

/// The word or words of a verdict.
pub fn read_verdict(words: Words<'_>) -> Result<(VerdictWord, Words<'_>), ReadError>
    ensures { Gives (λ x. (x.0, left x.1)) result (verdict_format.get (left words.entry)) }
{
    let (word, rest) = next(words)?;
    if word == b"proved".as_slice() {
        let (lines, rest) = count(rest)?;
        return Ok((VerdictWord::Proved(lines), rest));
    }
    if word == b"refuted".as_slice() {
        return Ok((VerdictWord::Refuted, rest));
    }
    undecided(words)
}

fn undecided(words: Words<'_>) -> Result<(VerdictWord, Words<'_>), ReadError>
    ensures { Gives (λ x. (x.0, left x.1)) result
        (mapped to_cause (undecided_words.get (left words.entry))) }
{
    let rest = keyword(words, b"undecided")?;
    cause(rest)
}

fn cause(words: Words<'_>) -> Result<(VerdictWord, Words<'_>), ReadError>
    ensures { Gives (λ x. (x.0, left x.1)) result
        (mapped to_cause (cause_words.get (left words.entry))) }
{
    let (word, rest) = next(words)?;
    if word == b"instances".as_slice() {
        return Ok((VerdictWord::Instances, rest));
    }
    let (lines, rest) = count(rest)?;
    if word == b"lines".as_slice() {
        return Ok((VerdictWord::Lines(lines), rest));
    }
    if word == b"rows".as_slice() {
        return Ok((VerdictWord::Rows(lines), rest));
    }
    if word == b"range".as_slice() {
        return Ok((VerdictWord::Range(lines), rest));
    }
    Err(ReadError::Form)
}

fn thing_name<'a>(spec: &'a Spec, thing: Thing) -> &'a [u8]
    ensures { result.now ≡ thing_name spec.now thing }
{
    match thing {
        Thing::Relation(k) => match spec.relations.as_slice().get(k as usize) {
            Some(relation) => relation.name.bytes(),
            None => &[],
        },
        Thing::Counter(k) => match spec.counters.as_slice().get(k as usize) {
            Some(counter) => counter.name.bytes(),
            None => &[],
        },
    }
}

fn invariant_name<'a>(spec: &'a Spec, inv: u8) -> &'a [u8]
    ensures { result.now ≡ invariant_name spec.now inv }
{
    match spec.invariants.as_slice().get(inv as usize) {
        Some(invariant) => invariant.name.bytes(),
        None => &[],
    }
}

/// The name of an operation; none where there is no such operation.
pub fn operation_name<'a>(spec: &'a Spec, op: u8) -> &'a [u8]
    ensures { result.now ≡ operation_name spec.now op }
{
    match spec.operations.as_slice().get(op as usize) {
        Some(operation) => operation.name.bytes(),
        None => &[],
    }
}

/// The line of this obligation.
pub fn read_obligation<'a>(
    spec: &Spec,
    obligation: Obligation,
    words: Words<'a>,
) -> Result<((), Words<'a>), ReadError>
    ensures { Gives (λ x. (tt, left x.1)) result
        ((obligation_format spec.now obligation).get (left words.entry)) }
{
    let rest = due(spec, obligation, words)?;
    Ok(((), rest))
}

fn due<'a>(spec: &Spec, obligation: Obligation, words: Words<'a>) -> Result<Words<'a>, ReadError>
    ensures { Gives (λ x. (tt, left x)) result
        ((obligation_format spec.now obligation).get (left words.entry)) }
{
    match obligation {
        Obligation::Init { inv } => these(words, &[b"init", invariant_name(spec, inv)]),
        Obligation::Safety { op, inv } => {
            let operation = operation_name(spec, op);
            these(words, &[b"safety", operation, invariant_name(spec, inv)])
        }
        Obligation::Commute {
            first,
            second,
            thing,
        } => {
            let first = operation_name(spec, first);
            let second = operation_name(spec, second);
            these(words, &[b"commute", first, second, thing_name(spec, thing)])
        }
        Obligation::Stable { op, line, other } => {
            let mut buffer = Buffer::new();
            let line = buffer.format(line as u32 + 1).as_bytes();
            let operation = operation_name(spec, op);
            these(
                words,
                &[b"stable", operation, line, operation_name(spec, other)],
            )
        }
    }
}

/// Appends the line of an obligation.
pub fn write_obligation(
    out: &mut Vec<u8>,
    spec: &Spec,
    obligation: Obligation,
) -> Result<(), AllocError>
    ensures { OnOk result (out.new.items ≡ out.old.items
        ++ line_text ((obligation_format spec.now obligation).put tt)) }
{
    match obligation {
        Obligation::Init { inv } => write_words(out, b"init", &[invariant_name(spec, inv)]),
        Obligation::Safety { op, inv } => {
            let operation = operation_name(spec, op);
            write_words(out, b"safety", &[operation, invariant_name(spec, inv)])
        }
        Obligation::Commute {
            first,
            second,
            thing,
        } => {
            let first = operation_name(spec, first);
            let second = operation_name(spec, second);
            write_words(out, b"commute", &[first, second, thing_name(spec, thing)])
        }
        Obligation::Stable { op, line, other } => {
            let mut buffer = Buffer::new();
            let line = buffer.format(line as u32 + 1).as_bytes();
            let operation = operation_name(spec, op);
            write_words(
                out,
                b"stable",
                &[operation, line, operation_name(spec, other)],
            )
        }
    }
}

fn write_undecided(out: &mut Vec<u8>, cause: &[u8], lines: u32) -> Result<(), AllocError>
    ensures { OnOk result (out.new.items ≡ out.old.items
        ++ line_text (codes "undecided" ∷ cause.now ∷ decimal lines ∷ [])) }
{
    let mut buffer = Buffer::new();
    let lines = buffer.format(lines).as_bytes();
    write_words(out, b"undecided", &[cause, lines])
}

/// Appends the line of a verdict's word.
pub fn write_verdict_word(out: &mut Vec<u8>, verdict: VerdictWord) -> Result<(), AllocError>
    ensures { OnOk result (out.new.items ≡ out.old.items
        ++ line_text (verdict_format.put verdict)) }
{
    match verdict {
        VerdictWord::Proved(lines) => {
            let mut buffer = Buffer::new();
            let lines = buffer.format(lines).as_bytes();
            write_words(out, b"proved", &[lines])
        }
        VerdictWord::Refuted => write_words(out, b"refuted", &[]),
        VerdictWord::Instances => write_words(out, b"undecided", &[b"instances"]),
        VerdictWord::Lines(lines) => write_undecided(out, b"lines", lines),
        VerdictWord::Rows(lines) => write_undecided(out, b"rows", lines),
        VerdictWord::Range(lines) => write_undecided(out, b"range", lines),
    }
}
