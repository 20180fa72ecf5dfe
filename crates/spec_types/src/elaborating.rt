// The lines of a specification, with their formulas, terms and elements, which lines of a tree without a fault are.
//
// `formulas` makes elements, terms and formulas, `lines` the lines of an operation. Nothing is refused here but for memory: that the parts
// have no fault is asked before.

mod formulas;
mod lines;

pub use formulas::{literal_of, sentence_of};
pub use lines::add_line;
