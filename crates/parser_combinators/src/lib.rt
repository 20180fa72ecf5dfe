// Readers over tokens: the pieces that a grammar is put together from, with what is known of each.
//
// A part of a grammar is a type of trees, the words that spell a tree, and a reader from words to a tree. The record `Part` says that
// the reader is exact. What it reads is spelled so, with each place in the tree the place of its word. Where it stops, the words before
// begin a spelling and no spelling goes on with the next word. And one spelling has one tree but for places. Parts are put together as
// the readers are (one after the other, one or the other, perhaps, as often as there are some, a list with commas), so a grammar of any
// size is exact by its shape alone. Words and readers are defined in `specs/`, the parts are in `proofs/`; `Loop` there is for code
// that reads one after the other.
//
// Decisions:
// - A word's number fits 32 bits without a limit on the text: each word has a byte of its own, and
//   places have 32 bits.
// - The brackets of formulas are read by three functions here (`is_opening`, `opening`, `closing`),
//   so that a body that leaves brackets out is tried on this crate, which is proved in a fraction
//   of the time of the grammar.
#![tactic(auto)]

mod brackets;
mod fault;
mod looking;
mod making;
mod token;

pub use brackets::{closing, is_opening, opening};
pub use fault::ReadError;
pub use looking::{is_key, is_name, is_number, key, kind_of_symbol, next_kind, sign};
pub use making::{key_text, tokens};
pub use token::{Key, Kind, Symbol, Token, Version};
