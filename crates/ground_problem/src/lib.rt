// The ground problem of an obligation: a list of formulas over named atoms.
//
// It stands on `obligation_list`, whose obligations it is about. The definitions are in specs/, in this order: `Symbols` (formulas
// over named atoms, and what makes them true), `Constants` (names for the elements), `Formulas` (formulas of the specification at
// constants), `Entry`, `Conclusion`, `Definitions`, `Equality` (the groups of the list), `Problem` (the list), `Classes` and
// `Readback` (the values that an interpretation gives). docs/embedders/GROUND.md explains them in words, with an example.
//
// Decisions:
// - A stage is the list of the calls made so far, the latest first; only code numbers stages.
// - A whole-number parameter has no constant: the constants of a call are a list of options, one
//   for each parameter. A plain line counts as one with no variables and one assignment.
// - Spots and tuples of unequal length say `false`; neither arises in a well-formed specification.
//   Where a rule is tried with its left pattern at the second call, that pattern's places still
//   come first. A rule without repeated variables gives "not true".
// - Equal constants may list a key twice in the values that are read from an interpretation, with
//   one value. The range of a state doesn't come in there: any test that the interpretation's
//   numbers pass is said of these values.
// - That the values break asks that the obligation is one of the specification, since operations
//   and things that don't exist have formulas too.
// - The definitions of later readings need no worklist: those after two calls come first, then
//   those after one. Adding up coefficients and moving numbers to the bound belong to the numbering
//   of atoms.
#![tactic(auto)]

mod laws;

pub use laws::{law_broken_has_interpretation, law_interpretation_breaks, law_values_break};
