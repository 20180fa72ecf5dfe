// Specifications with the fewest tokens: the bare one, and those keyed on a parameter of two operations.
//
// It stands on `spec_core`. specs/Takes.antt, specs/Bare.antt and specs/Keyed.antt have the definitions. `copies` copies the parts of a
// specification, `in_use` and `naming` look for the names of the two tokens, and `making` makes the specifications.
//
// Decisions:
// - A `Spec` is made here by writing its record, where that it is well formed is to be proved; no
//   code tests it. Parts are copied here alone.
// - Names in use are those that the bare specification declares, and those of parameters. A token's
//   name is chosen among t0 to t249.
// - For an operation with itself both orders of two parameters are tried.
#![tactic(auto)]

/// What a call returns, or its error, before which the values named are dropped: a `?` while they are alive would be
/// dear to prove.
macro_rules! or_drop {
    ($call:expr; $($value:ident),*) => {
        match $call {
            Ok(value) => value,
            Err(error) => {
                $(drop($value);)*
                return Err(error);
            }
        }
    };
}

mod copies;
mod in_use;
mod laws;
mod making;
mod naming;

pub use laws::law_made_are_well_formed;
pub use making::{bare, keyed};
