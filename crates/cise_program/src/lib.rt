// The program but for its edge: from words, two sources and a sink to a status.
//
// `run::run` is the whole. Its clauses stand in the order of what a user asks: what is answered, when nothing is, what is left of an answer
// that was stopped, what is read, and what an answer says, the headline first. `words` has the accepted words, `commands` a file for each
// command, which writes its text to the sink and answers the status, `outcome` the status that verdicts come to. `law` says what the
// answers say of a specification, that two answers to the same words and bytes agree, and that none contradicts another, and `checked`
// that what a check wrote is verified alike.
//
// It stands on `byte_ports`, which says how the writing of a text ends and answers the bytes of a source, on `spec_from_bytes`, which reads the
// specification, on `check_run`, which decides its obligations and writes the report, on `report_verifier`, which verifies one, on
// `report_upgrader`, which upgrades one, on `replay_text` and `simulate_text`, which carry a schedule out, on `suggest`, which finds the
// pairs that must conflict, and on `executions`, whose theorem makes a check that ends with status 0 a proof of convergence. The definitions
// stand in specs/, in this order: Outside (what the sources tell and the sink holds), Words (which words are accepted, what they ask for,
// and which inputs that reads), commands (what each command answers, in a file for each), Answer (which status and text belong to which
// words and bytes), Headline (what status 0 says, what a refutation says, what a replay or a simulation of a safe specification keeps, what a
// suggestion says, for what bytes are refused, and which statuses may come).
//
// Decisions:
// - Where a clause is about one command, the job is compared with it; where it is about several, a
//   table over tasks says which, with one row for all others. So a new command needs a row only
//   where something is said of it.
// - That what a check wrote is verified alike is said here, above both, so that the checker and the
//   verifier stay independent of each other.
// - That a run is complete asks that no count of faults rose and, for a task, that the known bytes
//   of the source are a specification.
// - A job is a task for a specification, or a sample, which reads no input. What may be left of a
//   stopped answer is defined for each command beside its outcome.
// - Where a specification is refused, the second input isn't read, and no clause says so: what
//   stays unread is said of the job. The third word of `check SPEC --budget N` names a source that
//   is never opened.
#![tactic(auto)]

mod checked;
mod commands;
mod law;
mod outcome;
pub mod run;
mod words;

pub use checked::{law_checked_has_one_answer, law_checked_is_verified};
pub use law::{
    law_answers_agree, law_headline, law_least_fault_is_answered, law_refused_for_all,
    law_reports_are_verified, law_verdicts_never_contradict,
};
