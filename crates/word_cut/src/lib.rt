// From bytes to words, and from texts to whole numbers.
//
// The words of some bytes are defined in `specs/Words.antt`, as a statement about the bytes: gaps of white space and
// comments, and between them the longest names, numbers and signs. `specs/Texts.antt` says which texts are words,
// `specs/Whole.antt` which texts spell whole numbers. The crate stands on std alone.
//
// Decisions:
// - The longest word is taken first and its length is asked then, so a name or a number that is too
//   long is refused also where its front would be short enough.
// - A comment that the text ends in is white space like any other.
// - `read_whole` takes no `-0`, so that each whole number has one spelling.
#![tactic(auto)]

mod cutting;
mod kinds;
mod laws;
mod lengths;
mod whole;
mod word;

pub use cutting::{CutRefused, cut};
pub use kinds::LONGEST_NAME;
pub use laws::{law_cut_or_refused, law_one_cut, law_one_refusal, law_words_stand};
pub use whole::{read_number, read_whole};
pub use word::{Word, WordKind};
