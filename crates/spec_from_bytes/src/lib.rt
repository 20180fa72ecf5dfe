// From bytes to a specification, or to the text that says why they are none.
//
// `read_bytes` cuts bytes into words, reads their tree and types it; `read_specification` does so for what a source gives, and stops at
// one byte more than the limit. The first of these steps that fails names the refusal, and its text is made at once. `reading` puts the
// steps together, `faults` has the texts of faults of typing, and `texts` the lines that all texts are made of. `law` says that bytes
// are read as one tree at most, places and all. They are one specification, or refused for one reason, and never both; where a fault is
// the reason, it is the least fault of their tree.
//
// It stands on the layers of the language, from `word_cut` to `spec_types`, and on `byte_ports`, which says which bytes a source gives.
// The definitions stand in specs/, in this order: Lines (a line of words), Refusal (which specification some bytes are, why they are
// none, and the text that says so), Reading (what a call answers of bytes and of a source).
//
// Decisions:
// - The lines of words that texts are made of stand here, since refusals are the lowest texts;
//   reports are made of the same lines.
// - The reason of a refusal is one value, and its text a function of it. That bytes have at most
//   one is a law and no property of this code: any reader gives the same refusal.
#![tactic(auto)]

mod faults;
mod law;
mod reading;
pub mod texts;

pub use law::{
    law_least_refusal, law_one_refusal, law_one_specification, law_one_tree,
    law_refused_or_specified,
};
pub use reading::{Reading, SPECIFICATION_LIMIT, read_bytes, read_specification};
