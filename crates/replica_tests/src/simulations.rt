// Worked examples of simulations, with texts that were worked out by hand.
//
// The contract of `simulate_text` says that the text and the status are those of its definition. That the definition says what is meant
// is shown here: each kind of line and each refusal once. `examples` has the specifications as texts, `rows` the schedules with what they
// come to.
#[cfg(test)]
mod examples;
#[cfg(test)]
mod rows;
