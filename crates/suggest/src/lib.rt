// The least set of pairs of operations that have to conflict, and the parameters on which a conflict is enough.
//
// A pair is needed where one of its obligations breaks in the bare specification, in which nothing conflicts: then each set of pairs that
// is enough contains it. Where all obligations of the other pairs hold, the needed pairs are enough. So they are the least set.
//
// It stands on `conflict_variants`, which makes the bare and the keyed specifications, and on `check_run`, which decides obligations. Definitions,
// in the order in which a reader needs them: specs/Pairs (pairs, their obligations, and what is enough), specs/Answers (what is answered for
// each pair), specs/Texts (the text of a suggestion), specs/Theorem (what a suggestion says). specs/Writing mirrors the code.
//
// Decisions:
// - What is found of a pair, and of a pair at two parameters, is one type: proved, refuted or
//   undecided. The words of the text are the text's. An answer keeps nothing by its type: that it
//   is good is the clause of `pairs` (`AreAnswers`).
// - Answers are good by the verdicts of obligations in their order: of a refuted one none before it
//   is refuted, and of an undecided one all before it are proved and none is refuted.
// - What is proved of the bare specification counts for a keyed one: what breaks it where some
//   calls conflict breaks it where none do. So it isn't decided anew for each two parameters, and
//   no log lines of the keyed specification are there then.
// - At most 16 values that broke an obligation of a pair are tried on its others. They are tested
//   as any witness.
#![tactic(auto)]

/// What a call returns, or its error, before which the values named are dropped: a `?` while they are alive would be
/// dear to prove.
macro_rules! or_drop {
    ($call:expr; $($value:ident),*) => {
        match $call {
            Ok(value) => value,
            Err(error) => {
                $(drop($value);)*
                return Err(error);
            }
        }
    };
}

mod answer;
mod answering;
mod finding;
mod known;
mod law;
mod listing;
mod question;
mod suggesting;
mod writing;

pub use answer::{Found, Key, KeyAnswer, Pair, PairAnswer, SuggestTally};
pub use answering::pairs;
pub use law::law_least_pairs;
pub use suggesting::suggest_all;
