// What a specification is and what it means: worlds, states, truth, initial states, calls and their preconditions.
//
// It stands on `items`. The definitions are in specs/, over plain data, in this order: `Form`, `Line` and `UpdateLine` (a
// formula, a line and an update, wherever they lie in memory), `Specification` (all that is declared), `State` (a state as it
// is listed and as it is read), `World` (elements and tuples), `Truth`, `Meaning` (invariant, precondition, observation,
// initial state), `Fits` (which worlds, calls, states and arguments fit) and `Typed` (which specifications are well formed);
// `Limits` and `Name` have the limits of the language and its names. `Code`, `Sizes` and `Choices` serve the proofs alone.
//
// Truth is computed over whatever reads like a state, without memory, by `holds`, `line_holds`, `invariant_broken_at`,
// `requires_broken_at` and `observes_broken_at`. The elements of a line's variables are chosen one after the other. As soon as those
// that are chosen force the body's truth (specs/Forced), no element is chosen for the others, so parts in which the last variables
// don't stand are asked once for all elements of these. With sparse relations nearly all choices end at the first or second
// variable. Where nothing is forced before the last variable, the work is the product of the sizes of the sorts, and the tests on
// the way there add a part in as many as the last sort has elements.
//
// Decisions:
// - The field of an operation for its precondition is `requires_`, since `requires` is a word of
//   Rattle.
// - What is compared as an element is a number: a whole-number argument that stands there counts by
//   its size. In a well-formed specification none does.
// - `holds` and `line_holds` ask nothing of a formula's size or depth: that what it names exists,
//   that elements fit their places and that terms are within their limits is enough.
// - A `Name` is any text of 1 to 32 bytes. That the names of a specification are words of the
//   language is kept by `Spec`; reserved words aren't excluded there.
#![tactic(auto)]

mod choices;
mod fits;
mod forced;
mod formula;
mod laws;
pub mod limits;
mod line;
mod lines;
mod name;
mod operation;
mod spec;
mod truth;
mod tuples;
mod update;
mod world;

pub use fits::is_in_state_range;
pub use forced::is_forced;
pub use formula::{Body, Cmp, Elem, Formula, Summand, Term};
pub use laws::{law_operations_fit, law_readings_that_agree};
pub use line::{Prefix, Prefixed};
pub use lines::{invariant_broken_at, line_holds, observes_broken_at, requires_broken_at};
pub use name::{Name, is_word_name};
pub use operation::{Kind, Operation, Param, Take};
pub use spec::{Const, Counter, Invariant, Pattern, Relation, Rule, Spec, Token};
pub use truth::{Readings, count_at, elem_at, has_at, holds, term_value};
pub use update::{Change, Spot, Thing, Update};
pub use world::{Call, World};
