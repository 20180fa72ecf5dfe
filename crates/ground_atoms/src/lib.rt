// The numbering of ground atoms and integer names, and formulas over their numbers.
//
// It stands on `ground_numbers`, whose tables it holds, and on `lin_rows`. Formulas are numbered as they are made, from left to
// right; the readings that they name are kept in the order in which they are first named. Definitions, in specs/: `Symbols` (what
// atoms, names, readings and summands of a program stand for), `Known` (what a numbering knows), `Sizes` (a numbering cut back to an earlier size), `Staying`
// (numbers stay where it grows), `Making` (formulas that are numbered as they are made), `Formulas` (what formulas of a program are); `Keys` serves the hashing of rows.
//
// Decisions:
// - The readings are kept in the order in which they were first named: atoms and integers are
//   numbered apart, so that their numbers don't say it.
// - A `Tuple` has room for three constants in itself, as many as a relation may have places; a
//   longer one is refused as want of memory.
// - "And" and "or" hold one box of two formulas. Forms that are most of a list hold numbers and
//   take no box: `NotAtom`, `BothAtoms`, `AtomImplies`, `Implied`, and `Congruent`, which says that
//   a thing reads the same at equal tuples. The definition's form is the same.
// - A formula is made and numbered at once. One of a definition that names the reading before twice
//   is made twice; its atoms have their numbers by then.
// - The names of whole-number parameters are asked for by call and place, not by the number that a
//   call's argument holds; the two are equal.
#![tactic(auto)]

pub mod atom;
pub mod atoms;
pub mod call;
pub mod formula;
mod guesses;
pub mod keyed_row;
pub mod laws;
pub mod part;
pub mod rows;
pub mod tuple;

pub use atom::{Atom, IntName, NamedReading};
pub use atoms::{Atoms, KnownSize};
pub use call::{GroundArg, GroundCall};
pub use formula::{Agreement, GroundFormula, Places};
pub use keyed_row::KeyedRow;
pub use laws::law_making_is_numbering;
pub use part::SumPart;
pub use rows::{at_most, at_most_name};
pub use tuple::Tuple;
