// A report is read line by line: what each line says, or the first fault.
//
// It stands on `proof_report`, whose definitions say which line may come at each place, what it must say besides, and the place behind
// it, and on `report_lines`, which has the formats of single lines. It decides nothing: whether a log is good, and whether a witness
// breaks its obligation, is asked elsewhere.
//
// Definitions: specs/Reader (what a reader keeps between two lines, and what it tells of each), specs/Resolving (lines that resolve two
// clauses). `reading` reads the line that may come, `saying` asks whether it is true, `moving` goes on to the place behind it, `feeding`
// joins these, and `reader` is the whole. `plain` reads the short numbers of lines that resolve two clauses where they stand.
//
// Decisions:
// - A reader keeps what the current witness has shown, and never a log: log lines are answered one
//   by one, and evidence with the line that ends its block.
// - A line's number is below 2^32; one more is answered as want of memory.
// - The short way takes numbers up to 4,000,000,009 that begin with no 0; all else goes the way of
//   all lines, which says what is wrong with them.
// - A reader's next place is put by one call, which lets the place before go: each place where a
//   value with lists is let go is gone through field by field in a proof.
#![tactic(auto)]

mod elements;
mod feeding;
mod moving;
mod plain;
mod reader;
mod reading;
pub mod resolving;
mod saying;
mod showing;

pub use reader::ReportReader;
pub use resolving::ResolveLine;
