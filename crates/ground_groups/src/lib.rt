// The groups of formulas by which a ground problem states an obligation, over numbered atoms: its constants and the calls at them, what is
// true at the entry, that the conclusion fails, and what readings after a call are.
//
// It stands on `ground_problem`, which says what the constants are, on `ground_atoms`, which numbers atoms, and on `stage_defs`, which
// makes formulas at a stage. `gathering` gathers the constants, `assigning` has those that a variable may have, `numbering` gives the whole
// numbers among the arguments their numbers, and `things` lists the relations and the counters. Each group is appended to a `Grounding`, a
// ground problem in the making; it says that there are too many exactly where the list would have more than its limit.
//
// Definitions, in specs/: `Calls` (the constants and the calls, as a program holds them), `Limited` (groundings, up to a limit).
// `Lines`, `Defined` and `Rules` say groups as a program goes over them, and serve the proofs. The groups of equality stand in `instances`.
//
// Decisions:
// - A definition of a reading has at most some hundred formulas, so it is made whole and counted
//   then. All other groups count before they make.
// - A reading after a call that the obligation doesn't have is defined by an operation's first
//   place and no arguments, as in the definition; no list names one.
// - A place whose number is beyond the machine's size for it, which no specification reaches, is
//   want of memory.
#![tactic(auto)]

/// The value of a call; where it fails, lets go of these values and ends with its error. Values that are let go by name are let go
/// once in a proof, and not once for each way out.
macro_rules! or_drop {
    ($call:expr; $($value:ident),*) => {
        match $call {
            Ok(value) => value,
            Err(error) => {
                $(drop($value);)*
                return Err(error);
            }
        }
    };
}

pub mod adding;
mod assigning;
pub mod conflicting;
pub mod defining;
pub mod differing;
pub mod entry;
mod gathering;
pub mod grounding;
pub mod instancing;
mod numbering;
pub mod parts;
pub mod ready;
pub mod refused;
mod things;

pub use assigning::as_number;
pub use gathering::{Named, constants, invariant_line, operations_of, requires_line};
pub use grounding::Grounding;
pub use numbering::number_arguments;
pub use refused::GroundRefused;
pub use things::things_of;
