// The bank as a host: how an engineer embeds the checker's host, with the bank's specification built in.
//
// It stands on `replica_host`, which keeps an application's own code beside the facts about it, on `replay_text` and `simulate_text`,
// which write what comes of a schedule, and on `byte_ports`, which has how the writing ends. `spec` makes the specification as a
// record. `effect` has the bank's own code for a call, which changes one balance of a copy, and `guard` that for its requires lines.
// `hosting` carries a schedule out with this code, in a host or in the nodes of a network, and `words` has what is asked for. `running`
// is the program but for its edge: what it writes is what `replay` and `simulate` of the bank's specification write.
//
// The definitions stand in specs/, in this order: Bank (the specification), Calls (the account, the amount and the lines of a call), Running
// (which words are accepted, and which status and text belong to them). Carried serves the code and its proofs.
//
// Decisions:
// - What the program wrote, whole or a front, belongs to one list of bytes, which is the source's
//   where those are known. Words that aren't accepted are refused before the source is read.
#![tactic(auto)]

/// What a call returns, or its error, before which the values named are dropped: a `?` while they are alive would be
/// dear to prove.
macro_rules! or_drop {
    ($call:expr; $($value:ident),*) => {
        match $call {
            Ok(value) => value,
            Err(error) => {
                $(drop($value);)*
                return Err(error);
            }
        }
    };
}

mod effect;
mod guard;
mod hosting;
mod running;
mod spec;
mod words;

pub use effect::BankCode;
pub use running::run_bank;
pub use spec::bank_spec;
