// The search of the lazy ground problem of an obligation: for a log that shows that it has no interpretation, or a witness.
//
// Some clauses are searched first, as a problem of their own over the atoms that they name (src/picking.rt, src/beside.rt, src/parts.rt),
// which is tested to be a part of the whole (src/testing.rt). Where they have no interpretation, the log is written with the numbers of the whole
// problem, and the kernel takes it there. Where they have one, it says which constants are equal and which readings are true; true
// atoms that no clause needs become false (src/lessening.rt). That is read back as a witness, which is the answer where it breaks the
// obligation (src/trying.rt). Else the pairs of tuples that the interpretation makes equal and of which it reads one true and one false
// (src/agreeing.rt) are those whose clauses are false. These or other clauses that it makes false join the first ones, and so do those
// of the entry that they lead to (src/leading.rt); all are searched again (src/searching.rt).
//
// So no formula is made for a pair of tuples that no interpretation makes equal, and none is looked at. Nothing is answered where all
// pairs agree, or where a search comes to no end in a few lines; then the whole problem is to be searched.
//
// Some clauses of the problem are written without the others (src/choosing.rt). Every two tuples of a relation have three clauses that
// say that they read the same where they are equal, and one atom that names a part; so the numbers of their clauses are told by how
// many pairs there are before them (src/places.rt), and the others aren't made. The last formulas in front of them, which say that
// equality is transitive, have one clause each and name no part, and their clauses are written in the same way.
//
// Definitions: specs/Chosen (clauses that have numbers among all, and the places of pairs), specs/Refuting (what is answered, and
// what the tests of a part say).
//
// Decisions:
// - The numbers of a pair's clauses follow from places and counts alone, since its tuples differ.
//   That they differ is tested too: they rise.
// - Each interpretation of a round is read back as a witness before anything else is made of it, and
//   where that breaks the obligation, it is the answer. Nothing has to be shown of the clauses that
//   weren't searched, since `breaks` looks at the specification alone. The test costs about as much
//   as what a round does beside its search, and it spares the searches that follow.
// - Where no witness of a round breaks it and all pairs agree, the problem is completed and searched
//   whole. The formulas are counted before the first round, so too many of them leave an obligation
//   undecided, whether or not a witness would be found.
// - Of the clauses that say that equality is transitive, those come first whose equalities are all
//   named by the conclusion, the definitions and the preconditions; of the entry's, those whose
//   readings and rows are. Most others are true in what is found, and those that aren't join the next
//   round. Pairs are looked for only where equality is transitive in it: else tuples may seem equal
//   that aren't.
// - Two calls mostly commute whatever the invariants say. So an obligation on two calls whose entry
//   has at least 64 clauses is first searched without these, once, and its time doesn't grow with
//   the number of invariants. Where that has an interpretation, the entry's clauses that are false in
//   it join, as in each round. Of one call the invariants are needed nearly always. After five
//   rounds all clauses but those of pairs are searched.
// - Where an interpretation is found, the obligation is mostly refuted, and each further round costs
//   about as much as a proof does. So as much joins at once as the next round would find false.
#![tactic(auto)]

mod agreeing;
mod beside;
mod choosing;
pub mod counting;
mod leading;
mod lessening;
mod measured;
pub mod parts;
mod picking;
mod places;
mod searching;
pub mod testing;
mod trying;

pub use agreeing::PairAt;
pub use choosing::{Chosen, chosen_front};
pub use places::{Layout, Place};
pub use searching::{LazyAnswer, search_lazily};
