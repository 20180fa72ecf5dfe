// Worked examples of specifications that code makes: of the generated ones the second is what a text says that was written by hand, and
// some have as many obligations as the formula 10 n^2 - 6 n - 1 says; the bank's is what its text in examples/ says. And tests of the bank's
// program, by its public call: which texts its own code comes to, and what stops it.
//
// `generated` and `bank` have the specifications, which `reading` reads from texts and `sameness` compares part by part; `replays` and
// `simulations` have the texts of the program, which `running` runs.
#![tactic(auto)]

#[cfg(test)]
mod bank;
#[cfg(test)]
mod generated;
#[cfg(test)]
mod reading;
#[cfg(test)]
mod replays;
#[cfg(test)]
mod running;
#[cfg(test)]
mod sameness;
#[cfg(test)]
mod simulations;
