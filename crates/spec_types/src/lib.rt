// From trees to specifications: what is wrong with a tree is found without memory, and a tree without a fault is made a specification.
//
// It stands on `typing_rules`, whose definitions say which specification a tree is and what is wrong with one that is none. `faults` looks
// for what is wrong, and `elaborating` makes the lines that have no fault. `known` is what is known after some items; `declaring`,
// `initials`, `rules` and `operations` have the items, `refusal` the answer with a fault, and `typing` the whole.
//
// Decisions:
// - The parts of a specification in the making are a `Draft`, which may be ill formed.
//   `Draft::into_spec` asks that it is well formed, which the law of typing proves of a tree
//   without a fault; a test at run time would be proved never to fail.
// - `type_tree` asks that its tree is one of the grammar (`IsTree`), as the law of typing does: a
//   `Tree` may hold any text as a name, and no refusal says that a name is no word. That the fault
//   is the least one is said of trees that stand in a text (`IsWritten`). Each tree that is read is
//   both.
#![tactic(auto)]

mod declaring;
mod elaborating;
mod faults;
mod initials;
mod known;
mod operations;
mod refusal;
mod rules;
mod typing;

pub use refusal::TypeRefused;
pub use typing::type_tree;
pub use typing_rules::Which;
