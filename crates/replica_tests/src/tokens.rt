// Worked examples of the token protocol, with answers that were worked out by hand.
//
// The contract of `token_core` says that each step of a network answers and leaves what its definition says. That the definition says
// what is meant is shown here: each answer and each refusal once, with grants and messages that are lost, repeated and late.
// `examples` has the specifications as texts, `setting` makes networks and goes through tables of steps, `steps` has the tests of
// networks, `grants` that of the manager, `nodes` that of a node.
#[cfg(test)]
mod examples;
#[cfg(test)]
mod grants;
#[cfg(test)]
mod nodes;
#[cfg(test)]
mod setting;
#[cfg(test)]
mod steps;
