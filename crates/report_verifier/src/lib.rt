// The verifier of reports: whether bytes are a report on a specification whose verdicts all rest on what they say.
//
// It believes nothing of the program that wrote the report. The text is read by `report_bytes`; for each verdict the ground problem of
// its obligation is made anew (`lazy_ground`), the lines of a log are taken by the kernel (`proof_kernel`), and a witness is
// tried by evaluation (`obligation_list`). So an accepted report whose verdicts are all proved shows that the specification is safe.
//
// Definitions, in the order in which a reader needs them: specs/Valid (when a verdict is valid), specs/Rules (the same as a function:
// the fault of a verdict and its line, and the first one of a report), specs/Verified (what is answered to bytes), specs/Verifier
// (what is kept of a report line by line), specs/Notes (what is noted of the lines of a report that is held). specs/Taking, specs/Listed,
// specs/Posing and specs/Deferring mirror the code.
//
// Decisions:
// - After the first fault of a verdict no further problem is posed; only the text is read on.
// - The lines of a log that proves are deferred to the end of their block, up to 4,000 of them. Most
//   are accepted there over the clauses that they name (`lazy_logs`), and the whole problem isn't
//   made. In each other case it is, and its kernel takes the lines that were deferred: what is
//   answered is the same (src/deferring.rt).
// - What obligations share is kept as a check keeps it (`KeptCache`) and believed as little: it
//   was made here, of the specification. It holds what up to 32 problems of other blocks share with
//   later ones, at most 60,000 formulas together.
// - A witness is judged by what it shows: tuples that aren't shown are false, values 0.
// - A line number, a count or a log beyond 32 bits is answered as want of memory; no report of 64
//   MiB reaches it.
// - A verifier is let go by a caller that does nothing else, and answers by reference: so what it
//   owns is gone through once in the proof.
#![tactic(auto)]

/// The value of a call; where it fails, lets go of these values and ends with its error. Values that are let go by name are let go
/// once in a proof, and not once for each way out.
macro_rules! or_drop {
    ($call:expr; $($value:ident),*) => {
        match $call {
            Ok(value) => value,
            Err(error) => {
                $(drop($value);)*
                return Err(error);
            }
        }
    };
}

mod deferring;
mod ending;
mod held;
mod judgement;
mod judging;
mod laws;
mod logs;
mod notes;
mod obligations;
mod pieces;
mod posing;
mod refused;
mod verifier;
mod verifying;

pub use held::verify_held;
pub use laws::{
    law_accepted_is_safe, law_lines_are_verified, law_one_answer, law_proved_holds,
    law_refuted_breaks, law_valid_verdicts,
};
pub use notes::{LineNote, ResolvedPair};
pub use refused::VerifyRefused;
pub use verifier::Verifier;
pub use verifying::verify_all;
