// Tests of the proof kernel by its public calls: a table of problems and logs worked by hand, with the answer to each.
//
// The kernel's contracts say exactly what each call answers. The table shows the same on small examples, so that a reader can
// compare his own reading of docs/users/REPORT.md with what runs. It stands in a crate of its own so that the kernel stays small. A
// problem is written by `making`; `rows` has the arithmetic of rows, `logs` plain clauses, `farkas` and `splits` the lines over
// rows, `evidence` the evidence of undecided verdicts. `gaps` and `chains` ask `line_rows` alone.
#![tactic(auto)]

#[cfg(test)]
mod chains;
#[cfg(test)]
mod evidence;
#[cfg(test)]
mod farkas;
#[cfg(test)]
mod gaps;
#[cfg(test)]
mod logs;
#[cfg(test)]
mod making;
#[cfg(test)]
mod rows;
#[cfg(test)]
mod splits;
