// The specifications `sample 1` to `sample 12`, which are generated: a chain of relations over one sort, in which each needs
// the one before it, and two operations for each, which take the token of their item.
//
// It stands on `spec_core`, whose types they are built of. specs/Sample.antt has the definition. Checks are measured by them: the
// number of their obligations grows as 10 n^2 - 6 n - 1.
//
// Decisions:
// - That the specification is well formed is a law, so the only other answer than it is want of
//   memory.
#![tactic(auto)]

/// What a call returns, or its error, before which the values named are dropped: a `?` while they are alive would be
/// dear to prove.
macro_rules! or_drop {
    ($call:expr; $($value:ident),*) => {
        match $call {
            Ok(value) => value,
            Err(error) => {
                $(drop($value);)*
                return Err(error);
            }
        }
    };
}

mod declarations;
mod operations;
mod parts;
mod sample;

pub use sample::{law_sample_is_well_formed, sample_spec};
