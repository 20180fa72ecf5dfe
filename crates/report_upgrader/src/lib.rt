// Upgrading reports: a report that stands is written in version 2 of the format, with the same budget and verdicts. In each log that
// proves, each clause is dropped after the last line that names it, so that a checker keeps as few clauses as it can.
//
// It stands on `proof_kernel`, whose rules judge the lines of a log, and on `report_verifier`, which says whether a report stands.
//
// A log is upgraded from its end on, with the numbers in a set that later lines name; each look-up is one hash (src/dropping). An
// upgraded log stands where the log did, and upgrading twice changes nothing more (src/log_laws).
//
// Of a report, a source is read once, and nothing may be written where it is refused; so the bytes are held, of which there are at most
// 64 MiB, and gone through twice: they are verified, with a note of each line, and then written line by line. A report that stands needs
// no second reader: the first word of a line tells a proved verdict, and the notes of its log what upgrading has to know of most lines.
// Each line is passed on as it is but for the first one and those of proved verdicts. A proved log is gone through twice: from its last
// line on it is found what is written for each line, and then it is written. What is gathered of it is written at every 64 KiB.
//
// Definitions, in the order in which a reader needs them: specs/UpgradedLogs (the upgraded log), specs/Agreement (what stands after a log
// and after the upgraded one), specs/Reports (the upgraded report), specs/Upgrading (what is answered, and what is written). specs/Plans
// and specs/Passing mirror the code.
//
// Decisions:
// - Room for the notes is asked for at once, eight bytes a line as for lines of seven bytes: pages
//   that are never written take no memory. A line that doesn't fit its note is read again.
// - What can't be read of a report that stands is answered as want of memory.
// - A Resolve line names its two clauses, once where they are one, and no other line names any.
//   Drop lines of the log that is upgraded are taken away first. What no line names is never
//   dropped, so the last clause stays.
#![tactic(auto)]

mod dropping;
mod gathering;
mod laws;
mod log_bytes;
mod log_laws;
mod log_writing;
mod passing;
mod planning;
mod refused;
mod report_laws;
mod rewriting;
mod upgrading;

pub use dropping::upgrade_log;
pub use laws::{
    law_one_upgraded_text, law_upgraded_report_is_accepted, law_upgraded_report_is_verified,
    law_upgraded_text_is_upgraded,
};
pub use refused::UpgradeRefused;
pub use report_laws::{
    law_report_upgraded_twice, law_upgraded_report_has_the_same_summary,
    law_upgraded_report_is_a_report,
};
pub use upgrading::upgrade_all;
