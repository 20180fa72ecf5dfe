// States as a program keeps them, and the lines that show one.
//
// It stands on `items` and on `spec_core`, which says what a state is, as it is listed and as it is read. `State` keeps an ordered
// set of tuples for each relation and an ordered map for each counter, so a reading is a look-up, and going through them gives
// tuples and keys in rising order. specs/StateText has the lines that show a state; `Starting` and `Same` serve the proofs alone.
//
// Decisions:
// - `write_state` asks of no world. Where a state fits one, its text is that of its readings there,
//   so a value that is listed as 0 isn't written.
// - A refused `write_state` appends nothing, since the text is made before it is appended.
// - Where a state has fewer or more lists than the specification has things, those that both have
//   are written. Where it is compared with another state, a list that isn't there reads false or 0.
#![tactic(auto)]

mod initial;
mod laws;
mod lines;
mod listed;
mod state;

pub use laws::law_texts_that_agree;
pub use state::{State, write_state};
