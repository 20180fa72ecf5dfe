// The effect of a call: the state after it, as a whole and reading by reading.
//
// It stands on `spec_core` and `spec_states`. The definition is in specs/Effect: for each tuple or key, the updates of its thing in written order,
// whose guards and amounts read the old state. specs/Beyond says which value a refusal names. `Places`, `Reaching`, `Outside` and
// `Refusal` serve the proofs of the code alone. `Spare` is the second state
// that is kept beside one, over which `apply_over` writes.
//
// Decisions:
// - A thing that isn't declared, and a tuple or key that doesn't fit, reads false or 0 after a call
//   too (`post_has`, `post_count` and their likes).
// - The definition lists all keys of each counter, those of value 0 too. The state that `apply`
//   gives lists what the old one listed and what an update reaches; it reads the same.
// - `apply` writes over a copy, and `apply_over` over a second state: a write that lacks memory
//   can't always be undone, so the state itself is never half written. All counters are gone
//   through only where a value is out of range, for the first one.
#![tactic(auto)]

mod after;
mod applying;
mod in_place;
mod law;
mod matching;
mod outside;
mod readings;
mod updates;
mod writing;

pub use after::{After, post_count, post_has, post2_count, post2_has};
pub use applying::{ApplyRefused, apply};
pub use in_place::{apply_over, caught_up};
pub use law::{law_effects_that_agree, law_first_beyond};
pub use readings::{count_after_call, has_after_call};
pub use updates::{is_thing, spots_match};
