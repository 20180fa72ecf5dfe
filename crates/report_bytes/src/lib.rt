// The bytes of a report: what is written is read back, and what is read is what was written.
//
// It stands on `proof_report`, which has the text of a report as lines, and on `report_reader`, which reads it line by line. Here the same
// is said of bytes, and of a whole report at once.
//
// Definitions, in the order in which a reader needs them: specs/Bytes (the bytes of a report, and the lines of bytes), specs/Showing
// (what a report shows of verdicts, and its text as it is written), specs/Reading (a report that is read from bytes, and their first
// fault). specs/Collecting mirrors the code of the reader.
//
// Decisions:
// - Blocks are numbered by the report alone, so the definition counts the lines before them. The
//   line of a block is that of the verdict's word.
// - Where bytes don't end with a line feed, faults of the lines before come first; the unended line
//   is then `form`, also after the last word.
// - A state is shown by what it reads in its world, so a report says nothing of values that are
//   listed as 0: what is read back shows the same.
#![tactic(auto)]

mod laws;
mod lines;
mod reading;

pub use laws::{
    law_bytes_are_text, law_one_report_of_bytes, law_report_has_no_fault, law_text_bytes_are_fed,
    law_witness_is_shown, law_written_is_read, law_written_is_report,
};
pub use lines::next_line;
pub use reading::read_report;
