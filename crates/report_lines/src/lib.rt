// The lines of a report, one by one, and the words of a line: what a line says, how it is written, and how it is read.
//
// It stands on `proof_lines`, whose lines a log has, and on `obligation_list`. A line is its words, between single spaces. A format gives
// the writer of a value, its reader, and the values that it can hold; the format of a line is put together from formats of its parts, and
// each kind of line has one. What is written is read again, and what is read is written so. A reader keeps what is left of its line as a
// slice, so no word is copied. Which line may stand where is the matter of the layer above, and whether a log is good that of the proof
// kernel.
//
// Definitions, in the order in which a reader needs them: specs/Words (the words of a line), specs/Formats (formats, and how they are put
// together), specs/Fields (numbers), specs/Entries (literals and steps, of which lists are made); specs/Heads (the lines that stand once),
// specs/Blocks (the obligation and the verdict's word), specs/Logs (the lines of a log), specs/Evidence (the evidence of an undecided
// verdict), specs/Witnesses (the lines of a witness).
//
// Decisions:
// - A witness is read with the relations and counters that are still due: a name is looked for from
//   the last one on, so a tuple or value of an earlier one is no line that may come.
// - Two spaces next to one another stand round an empty word, which is no word of any line.
// - Numbers of clauses, rows, atoms and names, and counts, are 0 to 4294967295. Multipliers, bounds
//   and values are in the range of a row, negative multipliers too: whether one is good is the
//   kernel's matter.
// - All that a list in a line is made of is an `Entry`. Literals and steps are entries.
// - What is written after a want of memory isn't said: who writes a block does so into a text of
//   his own. Digits are written by `itoa`, which takes no memory.
#![tactic(auto)]

mod digits;
mod entries;
pub mod evidence;
pub mod fields;
pub mod head;
mod laws;
mod list;
pub mod log;
mod names;
pub mod verdict;
pub mod witness;
pub mod words;
pub mod writing;

pub use laws::{law_blocks, law_heads, law_logs, law_states, law_witnesses};
