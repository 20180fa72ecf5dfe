// Writing a report: the lines before the blocks, a block, and the lines behind them.

ghost use Rattle.std.specs.Prelude.{◌≡◌, ◌++◌, ◌+◌, ◌<◌, ◌^◌, OnOk, OnErr, IfOk, true, length};
ghost use Rattle.spec_core.specs.{State.{reads}, Fits.{is_state}};
ghost use Rattle.spec_states.specs.StateText.{state_text};
ghost use Rattle.obligation_list.specs.Obligations.{IsObligation};
ghost use Rattle.proof_report.specs.{Verdicts.{obligation_count}, Events.{outcome_of}};
ghost use Rattle.proof_report.specs.Texts.{log_text, sizes_text, consts_text, calls_text, witness_text, rows_text, range_text, cause_text, verdict_text, block_text, head_text, end_text, CanStand};

use crate::names::{const_name, sort_name};
use crate::verdict::{Cause, Verdict};
use obligation_list::{Obligation, Witness};
use proof_lines::{Line, RangeEvidence, RowsEvidence};
use report_lines::evidence::{write_range, write_rows};
use report_lines::head::{
    Outcome, Tally, write_budget, write_obligations, write_outcome, write_summary, write_title,
};
use report_lines::log::write_log_line;
use report_lines::verdict::{VerdictWord, write_obligation, write_verdict_word};
use report_lines::witness::{write_at, write_call, write_const, write_size};
use spec_core::{Call, Spec};
use spec_states::write_state;
use std::alloc::{AllocError, Global};

fn write_log(lines: &[Line], out: &mut Vec<u8>) -> Result<(), AllocError>
    ensures { OnOk result (out.new.items ≡ out.old.items ++ log_text lines.now) }
{
    for line in lines {
        write_log_line(out, line)?;
    }
    Ok(())
}

fn write_calls(spec: &Spec, calls: &[Call], out: &mut Vec<u8>) -> Result<(), AllocError>
    ensures { OnOk result (out.new.items ≡ out.old.items ++ calls_text spec.now calls.now) }
{
    for call in calls {
        write_call(out, spec, call)?;
    }
    Ok(())
}

// The number of lines of a log; more than a report can count are answered as want of memory.
fn count(lines: &[Line]) -> Result<u32, AllocError>
    ensures { IfOk result (λ n. n ≡ length lines.now) }
{
    if lines.len() > u32::MAX as usize {
        return Err(AllocError);
    }
    Ok(lines.len() as u32)
}

// Appends a text that was made in a list of its own. A refusal leaves what was there.
fn append(out: &mut Vec<u8>, text: Vec<u8>) -> Result<(), AllocError>
    ensures ok { OnOk result (out.new.items ≡ out.old.items ++ text.items) }
    ensures err { OnErr result (out.new.items ≡ out.old.items) }
{
    if out.is_empty() {
        *out = text;
        return Ok(());
    }
    let told = out.extend_from_slice(text.as_slice());
    drop(text);
    told
}

// The lines before the blocks.
fn head(
    alloc: Global,
    spec: &Spec,
    version: u8,
    budget: u32,
    obligations: u32,
) -> Result<Vec<u8>, AllocError>
    requires { obligations ≡ obligation_count spec.now }
    ensures { IfOk result (λ text. text.items ≡ head_text spec.now version budget) }
{
    let mut text = Vec::new(alloc);
    write_title(&mut text, version)?;
    write_budget(&mut text, budget)?;
    write_obligations(&mut text, obligations)?;
    Ok(text)
}

/// Appends the lines before the blocks. After a refusal nothing is appended.
pub fn write_head(
    alloc: Global,
    spec: &Spec,
    version: u8,
    budget: u32,
    obligations: u32,
    out: &mut Vec<u8>,
) -> Result<(), AllocError>
    requires { obligations ≡ obligation_count spec.now }
    ensures ok { OnOk result (out.new.items ≡ out.old.items ++ head_text spec.now version budget) }
    ensures err { OnErr result (out.new.items ≡ out.old.items) }
{
    let text = head(alloc, spec, version, budget, obligations)?;
    append(out, text)
}

/// What the verdicts come to.
pub fn outcome(tally: &Tally) -> Outcome
    ensures { result ≡ outcome_of tally.now }
{
    if tally.refuted > 0 {
        Outcome::Rejected
    } else if tally.undecided > 0 {
        Outcome::Undecided
    } else {
        Outcome::Accepted
    }
}

// The lines behind the blocks.
fn end(alloc: Global, tally: Tally) -> Result<Vec<u8>, AllocError>
    ensures { IfOk result (λ text. text.items ≡ end_text tally) }
{
    let mut text = Vec::new(alloc);
    write_summary(&mut text, tally)?;
    write_outcome(&mut text, outcome(&tally))?;
    Ok(text)
}

/// Appends the lines behind the blocks. After a refusal nothing is appended.
pub fn write_end(alloc: Global, tally: Tally, out: &mut Vec<u8>) -> Result<(), AllocError>
    ensures ok { OnOk result (out.new.items ≡ out.old.items ++ end_text tally) }
    ensures err { OnErr result (out.new.items ≡ out.old.items) }
{
    let text = end(alloc, tally)?;
    append(out, text)
}

fn write_sizes(
    spec: &Spec,
    place: usize,
    sizes: &[u32],
    out: &mut Vec<u8>,
) -> Result<(), AllocError>
    requires { place + length sizes.now < 2 ^ 63 }
    ensures { OnOk result (out.new.items ≡ out.old.items ++ sizes_text spec.now place sizes.now) }
{
    match sizes {
        [] => Ok(()),
        [size, sizes @ ..] => {
            write_size(out, sort_name(spec, place), *size)?;
            write_sizes(spec, place + 1, sizes, out)
        }
    }
}

fn write_consts(
    spec: &Spec,
    place: usize,
    consts: &[u32],
    out: &mut Vec<u8>,
) -> Result<(), AllocError>
    requires { place + length consts.now < 2 ^ 63 }
    ensures { OnOk result (out.new.items ≡ out.old.items ++ consts_text spec.now place consts.now) }
{
    match consts {
        [] => Ok(()),
        [element, consts @ ..] => {
            write_const(out, const_name(spec, place), *element)?;
            write_consts(spec, place + 1, consts, out)
        }
    }
}

fn write_shown_state(
    alloc: Global,
    spec: &Spec,
    witness: &Witness,
    out: &mut Vec<u8>,
) -> Result<(), AllocError>
    requires { is_state spec.now witness.now.world witness.now.state ≡ true }
    ensures { OnOk result (out.new.items ≡ out.old.items
        ++ state_text spec.now witness.now.world (reads witness.now.state)) }
{
    write_state(alloc, spec, &witness.state, out)
}

fn write_witness(
    alloc: Global,
    spec: &Spec,
    witness: &Witness,
    out: &mut Vec<u8>,
) -> Result<(), AllocError>
    requires { is_state spec.now witness.now.world witness.now.state ≡ true }
    ensures { OnOk result (out.new.items ≡ out.old.items ++ witness_text spec.now witness.now) }
{
    write_sizes(spec, 0, witness.world.sizes.as_slice(), out)?;
    write_consts(spec, 0, witness.world.consts.as_slice(), out)?;
    write_shown_state(alloc, spec, witness, out)?;
    write_calls(spec, witness.calls.as_slice(), out)?;
    write_at(out, witness.elements.as_slice())?;
    Ok(())
}

fn write_rows_evidence(evidence: &RowsEvidence, out: &mut Vec<u8>) -> Result<(), AllocError>
    ensures { OnOk result (out.new.items ≡ out.old.items ++ rows_text evidence.now) }
{
    let lines = count(evidence.log.as_slice())?;
    write_verdict_word(out, VerdictWord::Rows(lines))?;
    write_log(evidence.log.as_slice(), out)?;
    write_rows(out, evidence.used.as_slice(), evidence.steps.as_slice())?;
    Ok(())
}

fn write_range_evidence(evidence: &RangeEvidence, out: &mut Vec<u8>) -> Result<(), AllocError>
    ensures { OnOk result (out.new.items ≡ out.old.items ++ range_text evidence.now) }
{
    let lines = count(evidence.log.as_slice())?;
    write_verdict_word(out, VerdictWord::Range(lines))?;
    write_log(evidence.log.as_slice(), out)?;
    write_range(
        out,
        evidence.used.as_slice(),
        evidence.steps.as_slice(),
        &evidence.what,
    )?;
    Ok(())
}

fn write_cause(cause: &Cause, out: &mut Vec<u8>) -> Result<(), AllocError>
    ensures { OnOk result (out.new.items ≡ out.old.items ++ cause_text cause.now) }
{
    match cause {
        Cause::Instances => write_verdict_word(out, VerdictWord::Instances),
        Cause::Lines(log) => {
            let lines = count(log.as_slice())?;
            write_verdict_word(out, VerdictWord::Lines(lines))?;
            write_log(log.as_slice(), out)
        }
        Cause::Rows(evidence) => write_rows_evidence(evidence, out),
        Cause::Range(evidence) => write_range_evidence(evidence, out),
    }
}

fn write_all(
    alloc: Global,
    spec: &Spec,
    verdict: &Verdict,
    out: &mut Vec<u8>,
) -> Result<(), AllocError>
    requires { CanStand spec.now verdict.now }
    ensures { OnOk result (out.new.items ≡ out.old.items ++ verdict_text spec.now verdict.now) }
{
    match verdict {
        Verdict::Proved(log) => {
            let lines = count(log.as_slice())?;
            write_verdict_word(out, VerdictWord::Proved(lines))?;
            write_log(log.as_slice(), out)
        }
        Verdict::Refuted(witness) => {
            write_verdict_word(out, VerdictWord::Refuted)?;
            write_witness(alloc, spec, witness, out)
        }
        Verdict::Undecided(cause) => write_cause(cause, out),
    }
}

// The block of an obligation with its verdict.
fn block(
    alloc: Global,
    spec: &Spec,
    obligation: Obligation,
    verdict: &Verdict,
) -> Result<Vec<u8>, AllocError>
    requires obligation { IsObligation spec.now obligation }
    requires verdict { CanStand spec.now verdict.now }
    ensures { IfOk result (λ text. text.items ≡ block_text spec.now obligation verdict.now) }
{
    let mut text = Vec::new(alloc);
    write_obligation(&mut text, spec, obligation)?;
    write_all(alloc, spec, verdict, &mut text)?;
    Ok(text)
}

/// Appends the block of an obligation with its verdict. After a refusal nothing is appended.
pub fn write_verdict(
    alloc: Global,
    spec: &Spec,
    obligation: Obligation,
    verdict: &Verdict,
    out: &mut Vec<u8>,
) -> Result<(), AllocError>
    requires obligation { IsObligation spec.now obligation }
    requires verdict { CanStand spec.now verdict.now }
    ensures ok { OnOk result (out.new.items ≡ out.old.items
        ++ block_text spec.now obligation verdict.now) }
    ensures err { OnErr result (out.new.items ≡ out.old.items) }
{
    let text = block(alloc, spec, obligation, verdict)?;
    append(out, text)
}
