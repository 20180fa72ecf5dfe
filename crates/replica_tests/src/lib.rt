// Worked examples of replicas: replays, the token protocol, its simulations, and hosts with code of an application's own.
//
// The contracts of these layers say that each step answers and leaves what its definition says. That the definitions say what is meant is
// shown here, with answers that were worked out by hand.
#![tactic(auto)]

pub mod hosts;
#[cfg(test)]
mod replays;
#[cfg(test)]
mod simulations;
#[cfg(test)]
mod specifications;
#[cfg(test)]
mod tokens;
