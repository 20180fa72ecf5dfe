// The lines that stand once in a report: what they say, and reading them.

ghost use Rattle.std.specs.Prelude.{◌≡◌, ◌∷◌, ◌++◌, [], codes, OnOk};
ghost use Rattle.report_lines.specs.Heads.{title_format, budget_format, obligations_format};
ghost use Rattle.report_lines.specs.Heads.{summary_format, outcome_format};
ghost use Rattle.report_lines.specs.Words.{left, line_text, Gives};

use crate::fields::{behind, number};
use crate::words::{ReadError, Words, keyword, next, these};
use crate::writing::write_words;
use itoa::Buffer;
use std::alloc::AllocError;

/// How many verdicts of each kind there are.
#[derive(Clone, Copy)]
pub struct Tally {
    pub proved: u32,
    pub refuted: u32,
    pub undecided: u32,
}

/// The last word of a report.
#[derive(Clone, Copy)]
pub enum Outcome {
    Accepted,
    Rejected,
    Undecided,
}

/// `cise report N`, with the version, 1 or 2.
pub fn read_title(words: Words<'_>) -> Result<(u8, Words<'_>), ReadError>
    ensures { Gives (λ x. (x.0, left x.1)) result (title_format.get (left words.entry)) }
{
    let rest = these(words, &[b"cise", b"report"])?;
    let (version, rest) = number(rest, 2)?;
    if version < 1 {
        return Err(ReadError::Form);
    }
    Ok((version as u8, rest))
}

/// `budget N`, with the most lines of a log.
pub fn read_budget(words: Words<'_>) -> Result<(u32, Words<'_>), ReadError>
    ensures { Gives (λ x. (x.0, left x.1)) result (budget_format.get (left words.entry)) }
{
    let rest = keyword(words, b"budget")?;
    let (budget, rest) = number(rest, 1_000_000)?;
    if budget < 1 {
        return Err(ReadError::Form);
    }
    Ok((budget, rest))
}

/// `obligations M`, with their number.
pub fn read_obligations(words: Words<'_>) -> Result<(u32, Words<'_>), ReadError>
    ensures { Gives (λ x. (x.0, left x.1)) result (obligations_format.get (left words.entry)) }
{
    behind(words, b"obligations")
}

/// `summary proved P refuted R undecided U`.
pub fn read_summary(words: Words<'_>) -> Result<(Tally, Words<'_>), ReadError>
    ensures { Gives (λ x. (x.0, left x.1)) result (summary_format.get (left words.entry)) }
{
    let rest = keyword(words, b"summary")?;
    let (proved, rest) = behind(rest, b"proved")?;
    let (refuted, rest) = behind(rest, b"refuted")?;
    let (undecided, rest) = behind(rest, b"undecided")?;
    Ok((
        Tally {
            proved,
            refuted,
            undecided,
        },
        rest,
    ))
}

/// `accepted`, `rejected` or `undecided`.
pub fn read_outcome(words: Words<'_>) -> Result<(Outcome, Words<'_>), ReadError>
    ensures { Gives (λ x. (x.0, left x.1)) result (outcome_format.get (left words.entry)) }
{
    let (word, rest) = next(words)?;
    if word == b"accepted".as_slice() {
        return Ok((Outcome::Accepted, rest));
    }
    if word == b"rejected".as_slice() {
        return Ok((Outcome::Rejected, rest));
    }
    if word == b"undecided".as_slice() {
        return Ok((Outcome::Undecided, rest));
    }
    Err(ReadError::Form)
}

/// Appends the line of the title.
pub fn write_title(out: &mut Vec<u8>, version: u8) -> Result<(), AllocError>
    ensures { OnOk result (out.new.items ≡ out.old.items ++ line_text (title_format.put version)) }
{
    let mut buffer = Buffer::new();
    let version = buffer.format(version).as_bytes();
    write_words(out, b"cise", &[b"report", version])
}

/// Appends the line of the budget.
pub fn write_budget(out: &mut Vec<u8>, budget: u32) -> Result<(), AllocError>
    ensures { OnOk result (out.new.items ≡ out.old.items ++ line_text (budget_format.put budget)) }
{
    let mut buffer = Buffer::new();
    let budget = buffer.format(budget).as_bytes();
    write_words(out, b"budget", &[budget])
}

/// Appends the line of the number of obligations.
pub fn write_obligations(out: &mut Vec<u8>, count: u32) -> Result<(), AllocError>
    ensures { OnOk result (out.new.items ≡ out.old.items
        ++ line_text (obligations_format.put count)) }
{
    let mut buffer = Buffer::new();
    let count = buffer.format(count).as_bytes();
    write_words(out, b"obligations", &[count])
}

fn write_counts(
    out: &mut Vec<u8>,
    proved: &[u8],
    refuted: &[u8],
    undecided: &[u8],
) -> Result<(), AllocError>
    ensures { OnOk result (out.new.items ≡ out.old.items
        ++ line_text (codes "summary" ∷ codes "proved" ∷ proved.now ∷ codes "refuted" ∷ refuted.now
        ∷ codes "undecided" ∷ undecided.now ∷ [])) }
{
    write_words(
        out,
        b"summary",
        &[
            b"proved",
            proved,
            b"refuted",
            refuted,
            b"undecided",
            undecided,
        ],
    )
}

/// Appends the line of the summary.
pub fn write_summary(out: &mut Vec<u8>, tally: Tally) -> Result<(), AllocError>
    ensures { OnOk result (out.new.items ≡ out.old.items ++ line_text (summary_format.put tally)) }
{
    let mut first = Buffer::new();
    let mut second = Buffer::new();
    let mut third = Buffer::new();
    let proved = first.format(tally.proved).as_bytes();
    let refuted = second.format(tally.refuted).as_bytes();
    let undecided = third.format(tally.undecided).as_bytes();
    write_counts(out, proved, refuted, undecided)
}

/// Appends the line of the last word.
pub fn write_outcome(out: &mut Vec<u8>, outcome: Outcome) -> Result<(), AllocError>
    ensures { OnOk result (out.new.items ≡ out.old.items
        ++ line_text (outcome_format.put outcome)) }
{
    match outcome {
        Outcome::Accepted => write_words(out, b"accepted", &[]),
        Outcome::Rejected => write_words(out, b"rejected", &[]),
        Outcome::Undecided => write_words(out, b"undecided", &[]),
    }
}
