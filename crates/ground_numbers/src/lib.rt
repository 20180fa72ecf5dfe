// The problem of an obligation in numbers: its formulas over numbered atoms, and their clauses.
//
// It stands on `ground_problem`, whose formulas it numbers, and on `proof_lines`, whose problems it makes. The definitions are in
// specs/, in this order: `Stages` (numbers for stages), `Numbered` (formulas over numbered atoms), `Numbers` (which number an atom
// and a name has), `Steps` (the same as a program does it, from left to right), `Clauses` (formulas as clauses), `Problem` (the
// whole). docs/embedders/GROUND.md explains them in words, with an example.
//
// Decisions:
// - The table of numbers is over stages, not over their numbers: `stage_of` is one to one on all
//   numbers, so nothing needs to be known of which stages occur.
// - Stages have the same numbers in every obligation: 0 the entry, 1 after the first call, 2 then
//   after the second, 3 after the second call, 4 then after the first.
// - An integer name has a number also where its coefficients add up to 0, and an atom also where
//   its part is folded; a row without terms is a truth value. What has no number reads false or 0.
// - A clause is a list of different literals in the order in which they first stand. Formulas that
//   repeat give their clauses again.
#![tactic(auto)]

mod laws;

pub use laws::{
    law_arguments_are_first, law_broken_has_meaning, law_clauses_make_formulas_true,
    law_integers_are_of_meaning, law_meaning_breaks, law_numbers_are_names, law_obligation_fits,
    law_problem_fits, law_refuted_problem_holds, law_row_of_terms, law_stage_numbers,
    law_steps_are_numbers,
};
