// Tests of the program and of the ports below it, by their public calls.
//
// What no clause says is shown here: that memory which is there is used, and that the printed texts are those of the documents.
// Each test is a table. It stands in a crate of its own so that no library is proved again with tests.
//
// `ports` has the sources and sinks. `printing` and `running` run the program on words and bytes and say what it prints; `check`,
// `verify`, `upgrade`, `sample`, `replay`, `simulate`, `suggestions` and `spell` have the commands, with the texts of `examples`;
// `whole_numbers` has what is decided of numbers, `words` the words, `refusals` what is no specification, `limits` the limits of the
// language, and `statuses` and `failing` what stops a run.
//
// Decisions:
// - The ports are tested here, since a crate of their own would cost more than the tests do.
// - Where memory is wanting, a test ends at once: its helpers call `expect` with the runtime, and
//   no `?` lets go of what they own.
#![tactic(auto)]

#[cfg(test)]
mod check;
#[cfg(test)]
mod examples;
#[cfg(test)]
mod failing;
#[cfg(test)]
mod limits;
#[cfg(test)]
mod ports;
#[cfg(test)]
mod printing;
#[cfg(test)]
mod refusals;
#[cfg(test)]
mod replay;
#[cfg(test)]
mod running;
#[cfg(test)]
mod sample;
#[cfg(test)]
mod simulate;
#[cfg(test)]
mod spell;
#[cfg(test)]
mod statuses;
#[cfg(test)]
mod suggestions;
#[cfg(test)]
mod upgrade;
#[cfg(test)]
mod verify;
#[cfg(test)]
mod whole_numbers;
#[cfg(test)]
mod words;
