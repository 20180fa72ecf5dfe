// What is wrong with the parts of a tree, found without memory.
//
// `draft` is what is declared so far, `names` the map of what names mean, `fault` what is wrong at a word, and `scope` what is in scope at
// a place. Each function of `elements`, `terms`, `formulas`, `sentences` and `lines` gives the first fault of a part, exactly.

mod draft;
mod elements;
mod fault;
mod formulas;
mod lines;
mod names;
mod scope;
mod sentences;
mod terms;

pub use draft::Draft;
pub use elements::{elem_of, is_of_sort, places_fault, small};
pub use fault::{Fault, limit_at};
pub use formulas::side_element;
pub use lines::{line_fault, token_places};
pub use names::Names;
pub use scope::{Scope, declared_fault, sort_fault, sort_number, stranger_fault};
pub use sentences::{sentence_fault, vars_of, with_vars};
pub use terms::{literal_fault, number_named};
