// Reports that are written: a block, and whole ones as they were read.

use crate::reports::VERDICTS;
use crate::running::{reading_of, spec_of};
use example_specs::FLAG;
use items::Items;
use obligation_list::{Obligation, list};
use proof_report::{Report, Verdict, write_end, write_head, write_verdict};
use report_bytes::read_report;
use report_lines::head::Tally;
use spec_core::Spec;
use std::alloc::Global;
use std::process::Abort;

fn write_block(rt: &impl Abort, alloc: Global, spec: &Spec, verdict: &Verdict, out: &mut Vec<u8>) {
    if let Verdict::Refuted(witness) = verdict {
        assert!(rt; witness.world.fits(spec) && witness.state.fits(spec, &witness.world));
        assert!(rt; witness.calls.is_empty());
    }
    assert!(rt; spec.invariants.len() > 0);
    write_verdict(alloc, spec, Obligation::Init { inv: 0 }, verdict, out).expect(rt, "memory");
}

// Whether the block of a flag's obligation, which an empty log proves, is this text.
fn is_written(rt: &impl Abort, alloc: Global, spec: &Spec, text: &[u8]) -> bool {
    let verdict = Verdict::Proved(Items::new(alloc));
    let mut out = Vec::new(alloc);
    write_block(rt, alloc, spec, &verdict, &mut out);
    drop(verdict);
    let same = out.as_slice() == text;
    drop(out);
    same
}

#[test]
fn a_block_is_written(rt: HostRuntime) {
    let reading = reading_of(&rt, rt.alloc(), FLAG);
    let spec = spec_of(&rt, &reading);
    let same = is_written(&rt, rt.alloc(), spec, b"init alive\nproved 0\n");
    reading.let_go();
    assert!(&rt; same);
}

fn tally_of(verdict: &Verdict) -> Tally {
    let mut tally = Tally {
        proved: 0,
        refuted: 0,
        undecided: 0,
    };
    match verdict {
        Verdict::Proved(_) => tally.proved = 1,
        Verdict::Refuted(_) => tally.refuted = 1,
        Verdict::Undecided(_) => tally.undecided = 1,
    }
    tally
}

fn write_front(rt: &impl Abort, alloc: Global, spec: &Spec, report: &Report, out: &mut Vec<u8>) {
    let obligations = list(alloc, spec).expect(rt, "memory");
    assert!(rt; obligations.len() == 1);
    write_head(
        alloc,
        spec,
        report.version,
        report.budget,
        obligations.len() as u32,
        out,
    )
    .expect(rt, "memory");
    drop(obligations);
}

// The text of a report with one verdict.
fn write_again(rt: &impl Abort, alloc: Global, spec: &Spec, report: &Report) -> Vec<u8> {
    let mut out = Vec::new(alloc);
    write_front(rt, alloc, spec, report, &mut out);
    for block in report.blocks.as_slice() {
        write_block(rt, alloc, spec, &block.verdict, &mut out);
        write_end(alloc, tally_of(&block.verdict), &mut out).expect(rt, "memory");
    }
    out
}

// Whether a text is a report that is written so again.
fn is_written_again(rt: &impl Abort, alloc: Global, spec: &Spec, text: &[u8]) -> bool {
    let report = read_report(alloc, spec, text).expect(rt, "a report");
    let written = write_again(rt, alloc, spec, &report);
    drop(report);
    let same = written.as_slice() == text;
    drop(written);
    same
}

fn check_written_again(rt: &impl Abort, alloc: Global, spec: &Spec) {
    for text in VERDICTS {
        assert!(rt; is_written_again(rt, alloc, spec, text));
    }
}

#[test]
fn what_is_read_is_written_so(rt: HostRuntime) {
    let reading = reading_of(&rt, rt.alloc(), FLAG);
    let spec = spec_of(&rt, &reading);
    check_written_again(&rt, rt.alloc(), spec);
    reading.let_go();
}
