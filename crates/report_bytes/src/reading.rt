// Reading a whole report.

ghost use Rattle.std.specs.Prelude.{◌≡◌, OnOk, IfOk, IfErr, Some};
ghost use Rattle.report_reader.specs.Reader.{first_reader};
ghost use Rattle.report_bytes.specs.Collecting.{verdict_of, with_line, with_end, collect, IsTaken};
ghost use Rattle.report_bytes.specs.Collecting.{AreTaken, IsRefused, IsEnded, AreRead, IsFaulty};
ghost use Rattle.report_bytes.specs.{Collecting.{Holds, nothing_kept, budget_in}, Reading.{IsRead}};

use crate::lines::next_line;
use items::Items;
use proof_lines::{Line, RangeEvidence, RowsEvidence};
use proof_report::{Block, Cause, Ended, Fed, Report, ReportKind, ReportRefused, Verdict};
use report_reader::ReportReader;
use spec_core::Spec;
use std::alloc::{AllocError, Global};
use std::mem;

/// What is kept between two lines: the line that began the last verdict, the lines of its log so far, and the blocks before it.
#[derive(Drop)]
pub struct Collected {
    pub line: u32,
    pub log: Items<Line>,
    pub blocks: Items<Block>,
}

fn verdict_of(ended: Ended, log: Items<Line>) -> Verdict
    ensures { result ≡ verdict_of ended log }
{
    match ended {
        Ended::Proved => Verdict::Proved(log),
        Ended::Refuted(witness) => Verdict::Refuted(witness),
        Ended::Instances => Verdict::Undecided(Cause::Instances),
        Ended::Lines => Verdict::Undecided(Cause::Lines(log)),
        Ended::Rows(used, steps) => Verdict::Undecided(Cause::Rows(RowsEvidence {
            log,
            used,
            steps,
        })),
        Ended::Range(used, steps, what) => Verdict::Undecided(Cause::Range(RangeEvidence {
            log,
            used,
            steps,
            what,
        })),
    }
}

fn end_block(alloc: Global, collected: &mut Collected, ended: Ended) -> Result<(), AllocError>
    ensures { OnOk result (collected.new ≡ with_end (Some ended) collected.old) }
{
    let log = mem::replace(&mut collected.log, Items::new(alloc));
    let block = Block {
        line: collected.line,
        verdict: verdict_of(ended, log),
    };
    collected.blocks.push(block)
}

fn add_line(collected: &mut Collected, line: Line) -> Result<(), AllocError>
    ensures { OnOk result (collected.new ≡ with_line (Some line) collected.old) }
{
    collected.log.push(line)
}

fn collect(
    alloc: Global,
    collected: &mut Collected,
    number: u32,
    fed: Fed,
) -> Result<(), AllocError>
    ensures { OnOk result (collected.new ≡ collect number fed collected.old) }
{
    let Fed { begin, log, ended } = fed;
    if let Some(_begin) = begin {
        collected.line = number;
    }
    if let Some(line) = log {
        if let Err(error) = add_line(collected, line) {
            drop(ended);
            return Err(error);
        }
    }
    match ended {
        Some(ended) => end_block(alloc, collected, ended),
        None => Ok(()),
    }
}

fn take_line(
    alloc: Global,
    reader: &mut ReportReader<'_>,
    collected: &mut Collected,
    line: &[u8],
) -> Result<(), ReportRefused>
    ensures { IsTaken reader.old collected.old line.now reader.new collected.new result }
{
    let fed = reader.feed(line)?;
    match collect(alloc, collected, reader.taken(), fed) {
        Ok(()) => Ok(()),
        Err(_) => Err(ReportRefused::Memory),
    }
}

// Takes all lines, and answers what stands behind the last line feed.
fn take_lines<'b>(
    alloc: Global,
    reader: &mut ReportReader<'_>,
    collected: &mut Collected,
    bytes: &'b [u8],
) -> Result<&'b [u8], ReportRefused>
    requires { Holds reader.old.spec nothing_kept collected.old }
    ensures ok { IfOk result
        (λ rest. AreTaken reader.old nothing_kept bytes.now reader.new collected.new rest.now) }
    ensures refused { IfErr result (λ error. IsRefused reader.old bytes.now error) }
{
    let mut rest = bytes;
    'lines: for taken in 0..bytes.len() {
        let Some((line, behind)) = next_line(rest) else {
            return Ok(rest);
        };
        match take_line(alloc, reader, collected, line) {
            Ok(()) => rest = behind,
            Err(error) => return Err(error),
        }
    }
    Ok(rest)
}

// Whether all is there behind the last line.
fn end(reader: &ReportReader<'_>, rest: &[u8]) -> Result<(), ReportRefused>
    ensures { IsEnded reader.now rest.now result }
{
    if rest.is_empty() {
        return reader.finish();
    }
    if reader.taken() == u32::MAX {
        return Err(ReportRefused::Memory);
    }
    Err(ReportRefused::Line {
        number: reader.taken() + 1,
        kind: ReportKind::Form,
    })
}

fn budget_in(reader: &ReportReader<'_>) -> u32
    ensures { result ≡ budget_in reader.now.budget }
{
    match reader.budget() {
        Some(budget) => budget,
        None => 0,
    }
}

// Takes all lines, and answers the version and the budget where they are a whole report.
fn read_blocks(
    alloc: Global,
    reader: &mut ReportReader<'_>,
    collected: &mut Collected,
    bytes: &[u8],
) -> Result<(u8, u32), ReportRefused>
    requires { Holds reader.old.spec nothing_kept collected.old }
    ensures ok { IfOk result (λ x. AreRead reader.old bytes.now collected.new x.0 x.1) }
    ensures refused { IfErr result (λ error. IsFaulty reader.old bytes.now error) }
{
    let rest = match take_lines(alloc, reader, collected, bytes) {
        Ok(rest) => rest,
        Err(error) => return Err(error),
    };
    match end(reader, rest) {
        Ok(()) => Ok((reader.version(), budget_in(reader))),
        Err(error) => Err(error),
    }
}

/// Reads a whole report. It is refused at the first line that is wrong; a last line without a line feed is `Form`, and a missing line
/// has the number behind the last.
pub fn read_report(alloc: Global, spec: &Spec, bytes: &[u8]) -> Result<Report, ReportRefused>
    ensures { IsRead spec.now bytes.now result }
{
    spec.well_formed();
    let Ok(mut reader) = ReportReader::new(alloc, spec) else {
        return Err(ReportRefused::Memory);
    };
    let mut collected = Collected {
        line: 0,
        log: Items::new(alloc),
        blocks: Items::new(alloc),
    };
    let read = read_blocks(alloc, &mut reader, &mut collected, bytes);
    drop(reader);
    let Collected {
        line: _,
        log,
        blocks,
    } = collected;
    drop(log);
    match read {
        Ok((version, budget)) => Ok(Report {
            version,
            budget,
            blocks,
        }),
        Err(error) => {
            drop(blocks);
            Err(error)
        }
    }
}
