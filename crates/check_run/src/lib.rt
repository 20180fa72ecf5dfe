// From a specification to the report on its obligations.
//
// It stands on `lazy_ground` and `lazy_search`, which look for a log over few of an obligation's
// clauses, on `needed_clauses`, which searches its whole problem where there is none, on
// `model_back` and `witness_shrinking`, which make a witness of an interpretation, and on
// `proof_report`, which writes the text. Definitions, in specs/: `Good` (when a verdict is good),
// `Asked` (what a verdict on the obligation that is asked has to be), `Fitting` (which verdicts lines can hold), `Decided` (what can leave an obligation undecided
// whose rows are differences), `Reports` (what is written), `Shown` (the state that a witness
// shows). `Checking` mirrors the code. What decided obligations leave for others is kept by
// `KeptCache` of `lazy_ground`.
//
// Decisions:
// - What obligations share is taken out of `KeptCache` and put back, by value, in `decide_next`;
//   `decide` begins with nothing. A refusal lets go of what it took.
// - `decide_all` counts verdicts without a report; a generated specification is checked by it.
#![tactic(auto)]

mod checking;
mod counting;
mod deciding;
mod fitting;
mod laws;
mod question;

pub use byte_ports::WriteOut;
pub use checking::check_all;
pub use counting::decide_all;
pub use deciding::{decide, decide_next, refuted_by};
pub use laws::{law_checked_is_read, law_good_verdicts, law_safe};
