// Tests of the search by its public call, each worked by hand.
//
// The contract of the search says what each answer promises; here it is run on small problems, and its logs are given to the proof
// kernel. They stand in a crate of their own so that the search stays small. `clauses` has problems over plain atoms alone, `rows`
// problems over rows, with the solver in `known`, which refutes, splits, stops and finds numbers; `summaries` says in short what was
// answered; `refuting` asks solvers alone, one of them the solver in `constants`. `watched` has the search on watched literals beside the plain one, and
// `solvers` the solvers of rows.
//
// Decisions:
// - The solver of the tests is in an ordinary module, since wrong bodies are tried without tests.
//   All else is there for the tests alone, and so is proved once.
#![tactic(auto)]

#[cfg(test)]
mod clauses;
#[cfg(test)]
mod constants;
pub mod known;
#[cfg(test)]
mod refuting;
#[cfg(test)]
mod rows;
#[cfg(test)]
mod solvers;
#[cfg(test)]
mod summaries;
#[cfg(test)]
mod watched;
