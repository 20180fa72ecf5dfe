// The trees of specifications, how they are spelled, and their text.
//
// `tree` has the types. The definitions are in specs/, over plain data, in this order: `Form`
// (trees wherever they lie in memory), `Spelling` (the words of a tree: the grammar of both
// versions of the language), `Trees` (which trees there are, and which differ in the places of
// their words alone), `Depth` (how deep a formula nests), `Place` (which bytes are read as which
// tree, and how far some spelling goes) and `Layout` (the text of a tree). `putting` gives the
// words of a tree, one after the other, as `Spelling` says; `spelling` writes them with the white
// space that `Layout` asks for. `spec_reader` makes trees of words; that what is spelled is read as
// the same tree is a law there. The crate stands on `word_cut` (words), `parser_combinators` (what
// is spelled by which words) and `spec_core` (names).
//
// Decisions:
// - The trees are below reading and writing, with all definitions of how they are spelled, so that
//   neither typing nor writing needs the reader. Which place a refusal names is said beside the
//   reader.
// - The version of a tree is `First` or `Second` and not a number, so that no tree has another.
// - The place of the first summand of a sum is that of its number or name, also where a `-` is
//   before it.
// - Where there are no brackets, the list of arguments, places, parameters or spots is empty.
// - A tree of the grammar has names and numbers that are words. Other trees can be built, and
//   `spell` writes what they say, but nothing is promised of reading them again.
#![tactic(auto)]

mod laws;
mod putting;
mod spelling;
mod tree;

pub use laws::law_depth;
pub use parser_combinators::Version;
pub use spelling::spell;
pub use tree::{
    Comparison, Connective, Figure, Formula, Item, Line, Mark, Mode, Param, ParamKind, Prefix,
    Prefixed, Product, Quantifier, Reading, Sign, Signed, Spot, Summand, Term, Tree, Value,
    Variable,
};
