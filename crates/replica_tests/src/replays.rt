// Worked examples of replays, with answers that were worked out by hand.
//
// The contract of `replica_replay` says that each step answers and leaves what its definition says. That the definition says what is
// meant is shown here, on one small specification, with each refusal once. `building` makes the specification, `steps` has the
// tests.
#[cfg(test)]
mod building;
#[cfg(test)]
mod steps;
