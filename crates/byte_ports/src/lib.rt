// Where bytes come from and where they go: sources and sinks that count their faults, and answers, a status with a text.
// `status` names the statuses.
//
// A `Source` shows contracts the bytes that it has left, and a `Sink` the bytes that it holds, where they can: those in memory
// do, files and standard output don't. Both count their faults. So `read_up_to` and `write_all` say of every source and sink
// which bytes were read or written, and name the outside as the cause of a failure only where its count rose.
//
// `write_answer` writes a text and ends with its status. `answer_source` reads a source up to a limit and answers its bytes by a job,
// and `write_answer_from` writes that answer, so that a command whose input is one source is its job.
//
// It stands on std and on `thiserror`, which derives the error types. The definitions that contracts cite are in
// specs/Faults.antt (how faults are counted, and when a failure may come), specs/Ports.antt (what a sink holds with how often it has
// failed), specs/Written.antt (what a sink holds after the writing of a text), specs/Memory.antt (the source and the sink in memory, and
// what one call does to them), specs/Ending.antt (how the writing of an answer ends) and specs/Told.antt (which bytes a source gives, and
// what is answered to them).
//
// Decisions:
// - Calls may be counted as faults are, each by at most one: by this count `read_up_to` reads at
//   most limit + 1 times, and `write_all` writes at most as often as there are bytes.
// - A read that fails before the end is a fault also where more bytes than the limit were still to
//   come. A source is said to be read to its end only where it gave no more bytes than the limit;
//   of more, one is read and no further.
// - An ending is said of one record, the port before and the port after (`Port`: what a sink holds,
//   and how often it has failed). The trait has the two apart, since most clauses speak of one.
// - `write_text` and the statuses stand here, since checks, suggestions, upgrades and replays write
//   their texts alike.
#![tactic(auto)]

ghost use Rattle.std.specs.Prelude.{◌≡◌};
ghost use Rattle.byte_ports.specs.Faults.{one_more};

mod ending;
pub mod endless;
pub mod memory;
pub mod outside;
pub mod sink;
pub mod source;
mod status;
pub mod text;
mod told;

pub use ending::{Answer, write_answer};
pub use endless::EndlessSource;
pub use memory::{MemSink, MemSource};
pub use outside::{FileSource, StdSink};
pub use sink::{Sink, WriteRefused, write_all};
pub use source::{ReadRefused, Source, read_up_to};
pub use status::{
    ACCEPTED, MEMORY, NO_WORDS, READ_FAULT, REFUSED, REJECTED, SPECIFICATION, UNDECIDED, WORDS,
    WRITE_FAULT,
};
pub use text::{WriteOut, write_text};
use thiserror::Error;
pub use told::{Stopped, answer_source, write_answer_from};

/// A read or a write that failed outside. The count of faults shows that there was a cause, and nothing says which.
#[derive(Clone, Copy, Debug, PartialEq, Eq, Error)]
#[error("the outside failed")]
pub struct Failed;

/// One fault more, in a count that stops at the greatest number.
fn count_up(faults: u64) -> u64
    ensures { result ≡ one_more faults }
{
    faults.saturating_add(1)
}
