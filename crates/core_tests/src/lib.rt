// One table of worked examples for the specification core.
//
// The contracts of `spec_core`, `spec_states`, `effectors`, `token_rules`, `obligation_list` and `executions` say that each call is its definition.
// That the definitions say what is meant is shown here, on small specifications with values that were worked out by hand; and that
// each call which may run out of memory answers where there is enough. It stands above them all, so that no crate below is proved
// again with tests of its own.
//
// `examples` has the specifications as texts, and `setting` makes worlds, states and calls that fit one. `states`, `lines`,
// `effects`, `conflicts`, `obligations` and `orders` have the tests. `language` has words, trees and spellings.
#![tactic(auto)]

#[cfg(test)]
mod conflicts;
#[cfg(test)]
mod effects;
#[cfg(test)]
mod examples;
#[cfg(test)]
mod language;
#[cfg(test)]
mod lines;
#[cfg(test)]
mod obligations;
#[cfg(test)]
mod orders;
#[cfg(test)]
mod setting;
#[cfg(test)]
mod states;
