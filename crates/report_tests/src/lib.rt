// Worked examples of reports: read line by line and whole, written, verified and upgraded.
//
// That a reader takes exactly the text of a report, that `verify_all` accepts exactly the reports whose verdicts rest on what they say, and
// that `upgrade_all` writes exactly the upgraded report of one that stands, is proved in the crates for reports. That the texts, logs,
// witnesses and kinds of refusal are those that are meant is shown here, on small specifications with reports written by hand.
//
// `examples` has the specifications, `reports` the reports, `running` what is done with them; `reading`, `writing`, `verifying` and `upgrading`
// have the tables, `logs` that of upgraded logs.
#![tactic(auto)]

#[cfg(test)]
mod examples;
#[cfg(test)]
mod logs;
#[cfg(test)]
mod reading;
#[cfg(test)]
mod reports;
#[cfg(test)]
mod running;
#[cfg(test)]
mod upgrading;
#[cfg(test)]
mod verifying;
#[cfg(test)]
mod writing;
