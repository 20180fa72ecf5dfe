// Worked examples of hosts: the bank of the README, replayed with code of the application's own.
//
// The contract of `replica_host` says that a host answers and leaves what a replay does. That it does so with the application's code, and
// not by evaluating the specification, is shown here: code that always lacks memory makes a fitting step lack memory, at a host and in a
// network. `evaluated` has an effect and a guard with the facts that a host asks of them, `memory` those that always lack memory. `bank`
// has the specification and the schedules, `running` makes hosts, `schedules` and `code` have the tests.
#[cfg(test)]
mod bank;
#[cfg(test)]
mod code;
pub mod evaluated;
#[cfg(test)]
mod memory;
#[cfg(test)]
mod running;
#[cfg(test)]
mod schedules;
