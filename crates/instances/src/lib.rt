// The ground problem of an obligation: its formulas over numbered atoms.
//
// It stands on `ground_groups`, which makes the groups that state the obligation, and on `clausify`. Here the groups stand one after
// another: what is true at the entry, that the conclusion fails, the definitions of later readings, and equality. Equality goes over each
// of three constants to the other two (src/equating), and equal tuples have equal readings (src/agreeing); pairs are counted before their
// formulas are made. What obligations share at the entry is made once (src/entry.rt), and goes on from one to the next. Which of those
// that were kept serves is a hint, and is tested where it is used (src/keys.rt).
//
// Definitions: specs/Ground (what the ground problem is, as a program holds it), specs/Entry (what is shared), specs/Pairs (how many pairs
// there are), specs/Congruent (what the code has of the two parts of a formula on equal readings), specs/Equalities (the numbers of equalities
// of constants).
//
// In the field's words this is an instantiation: each line of the specification at all choices of
// constants for its variables.
//
// Decisions:
// - `Grounded` keeps nothing by its type. What its parts keep is said once, of the definition
//   (`law_obligation_fits`), and `ground` says that it answers that (`IsGrounded`): a type that
//   kept it would want it while the list still grows.
// - What stands in some formulas one after another is looked up once: the three equalities of three
//   constants, and the names of a counter's readings at two tuples.
#![tactic(auto)]

/// The value of a call; where it fails, lets go of these values and ends with its error. Values that are let go by name are let go
/// once in a proof, and not once for each way out.
macro_rules! or_drop {
    ($call:expr; $($value:ident),*) => {
        match $call {
            Ok(value) => value,
            Err(error) => {
                $(drop($value);)*
                return Err(error);
            }
        }
    };
}

mod agreeing;
mod concluding;
mod congruence;
pub mod entry;
mod equating;
pub mod grounding;
mod keys;
pub mod listing;

pub use agreeing::{add_congruence, rising};
pub use clausify::KeptClauses;
pub use congruence::congruent;
pub use entry::{Entry, EntryPart, EntrySize, kept_clauses};
pub use equating::add_equality;
pub use ground_groups::GroundRefused;
pub use grounding::{Grounded, ground, ground_from};
pub use keys::EntryKey;
