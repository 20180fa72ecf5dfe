// What a search answered, in short, with its log given to the proof kernel.
use items::Items;
use proof_kernel::{check_lines, check_log, check_range};
use proof_lines::{AtomKind, Clause, Line, Problem, RangeEvidence};
use sat_core::Answer;
use std::alloc::Global;
use std::process::Abort;

/// An answer whose log or evidence, if it has one, is accepted by the proof kernel.
#[derive(Clone, Copy, PartialEq)]
pub enum Summary {
    /// No interpretation, by so many lines.
    Unsat(usize),
    /// An interpretation of so many atoms.
    Sat(usize),
    /// The budget is spent, with so many lines.
    Lines(usize),
    /// A number beyond the range.
    Range,
    /// No answer of those, or one that the kernel refuses.
    Other,
}

/// The summary of an answer to a problem, for which the search had a budget.
pub fn summary_of(alloc: Global, problem: &Problem, answer: &Answer, budget: u32) -> Summary {
    match answer {
        Answer::Unsat(log) => log_summary(alloc, problem, log.as_slice()),
        Answer::Sat(found) => Summary::Sat(found.truths.len()),
        Answer::Lines(log) => lines_summary(alloc, problem, log.as_slice(), budget),
        Answer::Range(evidence) => range_summary(alloc, problem, evidence),
        _ => Summary::Other,
    }
}

fn log_summary(alloc: Global, problem: &Problem, log: &[Line]) -> Summary {
    match check_log(alloc, problem, log) {
        Ok(_) => Summary::Unsat(log.len()),
        Err(_) => Summary::Other,
    }
}

fn lines_summary(alloc: Global, problem: &Problem, log: &[Line], budget: u32) -> Summary {
    match check_lines(alloc, problem, log, budget) {
        Ok(_) => Summary::Lines(log.len()),
        Err(_) => Summary::Other,
    }
}

fn range_summary(alloc: Global, problem: &Problem, evidence: &RangeEvidence) -> Summary {
    match check_range(alloc, problem, evidence) {
        Ok(_) => Summary::Range,
        Err(_) => Summary::Other,
    }
}

/// What a search said.
#[derive(Clone, Copy, PartialEq)]
pub enum Said {
    /// No interpretation, with a log that the proof kernel accepts.
    Unsat,
    Sat,
    /// No answer of those, or want of memory.
    Nothing,
}

/// What an answer to a problem says, in short.
pub fn in_short(alloc: Global, problem: &Problem, answer: &Answer) -> Said {
    match answer {
        Answer::Unsat(log) => match check_log(alloc, problem, log.as_slice()) {
            Ok(_) => Said::Unsat,
            Err(_) => Said::Nothing,
        },
        Answer::Sat(_) => Said::Sat,
        _ => Said::Nothing,
    }
}

/// Whether an answer is an interpretation with just these truths and numbers.
pub fn is_found(answer: &Answer, truths: &[bool], ints: &[i128]) -> bool {
    match answer {
        Answer::Sat(found) => found.truths.as_slice() == truths && found.ints.as_slice() == ints,
        _ => false,
    }
}

/// The problem over some atoms and numbers with some clauses.
pub fn made(rt: &impl Abort, kinds: Items<AtomKind>, ints: u32, clauses: Items<Clause>) -> Problem {
    match Problem::new(kinds, ints, clauses) {
        Some(problem) => problem,
        None => panic!(rt; "no problem"),
    }
}
