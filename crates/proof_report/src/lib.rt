// The text of a report: the verdicts on the obligations of a specification, with what each rests on.
//
// It knows lines and verdicts and decides nothing: whether a log is good, and whether a witness breaks its obligation, is asked
// elsewhere. It stands on `report_lines`, which has the formats of single lines, and on what verdicts are made of: `obligation_list`
// for obligations and witnesses, `proof_lines` for logs and evidence. `writing` appends the text; `report_reader` reads it.
//
// Definitions, in the order in which a reader needs them: specs/Verdicts (verdicts as plain data, and which may stand in a report),
// specs/Texts (the text of a report, block by block), specs/Events (what its lines say), specs/Feeding (reading line by line: the
// line that may come at each place, what it must say besides, and the place behind it), specs/Gathering (the verdicts that lines
// say).
//
// Decisions:
// - The places at which a reader may stand are declared here, since which line may come is defined
//   by them.
// - A line of a witness that breaks the order is `form`, as a line of another form is; so is a
//   summary that isn't there where all blocks are.
// - A head, a block and an end are written into a list of their own, which is put behind the others
//   when it is whole. So a refusal appends nothing, and the functions that write a line promise
//   nothing of one.
#![tactic(auto)]

pub mod event;
pub mod kind;
mod laws;
mod names;
pub mod place;
pub mod verdict;
mod writing;

pub use kind::{Fault, ReportKind, ReportRefused};
pub use laws::{law_fed_is_text, law_one_report, law_text_is_fed};
pub use names::{const_name, sort_name};
pub use verdict::{Block, Cause, Ended, Fed, Report, Verdict};
pub use writing::{outcome, write_end, write_head, write_verdict};
