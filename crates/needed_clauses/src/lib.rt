// The search of a problem of which it needs few clauses.
//
// Most clauses of an obligation's problem say what equality is: that it goes over, and that all things read the same at equal tuples. There
// is one for each two tuples of each relation that any invariant names, and a search looks at few of them. So the clauses in front of them
// are searched first, as a problem of their own over the atoms that they name (src/parts.rt), which is tested to be a part of the whole
// (src/testing.rt). Where they have no interpretation, the log is written with the numbers of the whole problem (src/renumbering.rt), and the kernel takes
// it there, as is proved (specs/Renaming, proofs/Renaming). Where they have one, it is extended to the other atoms, and
// the clauses that it makes false join those that are searched (src/judging.rt). Where it makes none false, it is an interpretation of
// the whole problem, which is tested by evaluation; it is answered where a search of the whole problem finds none in a few lines. After some
// rounds, or where a search of a part comes to no end in a few lines, the whole problem is searched.
//
// So no trust is put in the choice: what is answered is what `watched_search` answers of a part or of the whole, or was tested.
//
// Definitions: specs/Renaming (parts, and what a log of a part is over the whole), specs/Rounds (what a round comes to).
//
// Decisions:
// - Where fewer than 100 clauses are after the front, a round isn't worth it, and the whole is
//   searched.
// - A log of a part has at most 2,000 lines. Where these don't do, the whole is searched with the
//   whole budget, so evidence of a limit is always that of the whole problem.
// - Where a part gives an interpretation of the whole, the whole is searched for another one first:
//   with the clauses on equality at hand its worlds are smaller.
// - A log that splits whole numbers isn't answered from a part, since an answer to a problem that
//   fits the solver of difference rows has none.
#![tactic(auto)]

mod judging;
pub mod parts;
pub mod renumbering;
mod searching;
pub mod testing;

pub use searching::{search, search_whole_first};
