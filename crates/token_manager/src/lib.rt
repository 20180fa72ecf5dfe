// The manager of the token protocol in code, which grants calls, and the index by which it finds the grants that can conflict with one.
//
// It stands on `token_protocol`, whose definitions say what a manager grants, and on `token_rules`, by which calls conflict.
//
// For each operation of which a call has asked, the index has a list of candidates: how calls of each operation can conflict with its
// calls, and the numbers of the grants of calls that can. A list is caught up when it is asked for. So each grant is gone through once
// for each list, and a call that asks meets the grants on its list alone. A list rests on the rules: where it is asked for with others
// than before, it is begun anew.
//
// Calls that take the same tokens conflict with the same calls, by the lemma `conflicts_alike` of proofs/SameTokens; `take_alike` finds
// them. So what conflicts with a call among the grants before an earlier call with its tokens is what the grant of that call names.
//
// `specs/Index.antt` says what a list and the index are, `specs/Named.antt` which calls the grants on a list name; that these are all
// that conflict is the lemma `conflicts_listed` of proofs/Listed. `specs/Grants.antt` mirrors the code of the manager.
//
// Decisions:
// - It is apart from nodes and networks, which know nothing of how it finds a grant. `token_core`
//   passes it on, so that its users name one crate.
// - Which earlier grant took the same tokens is found by a map over a sum of the elements and then
//   tested, so the map has no invariant. The index is no part of what contracts see.
#![tactic(auto)]

mod alike;
mod candidates;
mod index;
mod manager;

pub use manager::{Manager, copy_call};
