// The typing of specifications: which specification a tree is, and what is wrong with a tree that is none, in the order of the words and
// as rules without order.
//
// It stands on `spec_trees`, whose trees are typed, and on `spec_core`, whose specifications they give. The definitions are in
// specs/, over plain data, in this order: `Fault` (what is wrong at a word), `Scope` (what a name means where it stands),
// `Terms` (elements and amounts), `Formulas` (formulas and their prefixes), `Lines` (what operations do) and `Items` (the
// declarations, and the whole). Each part of a tree has the first of its faults, and what it is in the specification. Where the
// places in the tree are those of its words, as in each tree that is read, faults come in the order of the words.
//
// By the rules, a fault of a tree is something that is wrong at a word by one rule, whatever else is wrong: `Sites` (what stands at the
// words of a tree, each in its scope) and `FaultRules` (the rules; the least fault). A law says that the answer is the least fault, and
// that a tree without faults is what it declares.
//
// Decisions:
// - In version 1 no observes line is allowed and no taking is shared, so that part of typing needs
//   no premise.
// - The law of typing asks for a tree of the grammar, since a specification's names are words; each
//   tree that is read is one.
// - What is made of a tree with a fault is bounded all the same: a literal that is too large and a
//   place that a byte can't number stand for 0 there. The number of nodes that is answered is at
//   most 2^32, since words are numbered below that.
// - Names after one that has no places, or fewer, still need to be elements of some sort, so each
//   use of an unknown name is a fault of its own.
// - A counter with keys that stands alone in an amount has two faults, kind and count, of which
//   kind is answered.
// - A tree stands in a text where its places are those of its words, at most 2^32 of them; so the
//   number of nodes needs no bound in the rule.
#![tactic(auto)]

mod fault_laws;
mod laws;
mod meaning;
mod which;

pub use fault_laws::{law_least_fault, law_read_is_written};
pub use laws::law_typed_is_well_formed;
pub use meaning::Meaning;
pub use which::Which;
