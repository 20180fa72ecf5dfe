// Worked examples of suggestions, and of the bare specifications that they rest on.
//
// That a suggestion is right is proved in `suggest`. That memory which is there is used, that the texts are those of the documents, and
// that what a person expects of a specification is what is found, is shown here. `examples` has the specifications, `running` what is
// done with them, and `suggestions` the tables.
#![tactic(auto)]

#[cfg(test)]
mod examples;
#[cfg(test)]
mod running;
#[cfg(test)]
mod suggestions;
