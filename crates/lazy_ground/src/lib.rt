// The ground problem of an obligation, of which most formulas on equality aren't made.
//
// Where two tuples are equal, a relation holds of both or of neither. There is a formula that says so for every two tuples of each
// relation that any invariant names, and a search needs few of them. Here a relation's tuples stand for all these formulas, and the one
// of two tuples is made when it is asked for (src/pairs.rt). Their readings have numbers; an equality that has none gets the number that
// these formulas would give it, before what stands behind them is made (src/numbering.rt). So the formulas before and behind them have
// the numbers that they have in the whole problem (src/grounding.rt). Where a search needs all
// of them, they are made and put between, and that is the whole problem (src/completing.rt). All formulas on equal tuples are counted
// before any of them is made: a list with too many ends there (src/choosing.rt).
//
// Obligations of a specification mostly share their entry and its readings. What is made of the entry is cut back for another
// obligation, and the pairs are taken over where that one goes on from it and has the same readings (src/keeping.rt). A check and a
// verifier keep the same of the obligations that were decided, for others whose constants are alike (src/cache.rt).
//
// Definitions, in specs/: `Pairs` (what a relation's tuples stand for), `Lazy` (what the lazy ground problem is), `Kept` (what of it
// serves the next obligation), `Cache` (that each thing that is kept serves any obligation). `Equal`, `Named` and `Front` mirror the code: what is tested of constants and of tuples, and what is made
// before the pairs.
//
// In the field's words the instantiation of the axioms of equality is lazy: an instance is made
// when a search asks for it.
//
// Decisions:
// - Only the formulas of relations are left to tuples. Those of counters name rows, which take
//   numbers.
// - The formula of two tuples of one or two places takes no memory. Longer tuples have one that is
//   joined place by place, as in the whole problem, each time that it is asked for.
// - An equality that pairs name has no number only where its sort has two constants and no formula
//   in front names it. Whether all have one is tested place by place, over the constants that stand
//   there; only where the test fails are the pairs gone through.
// - The whole problem is made where there are fewer than three pairs, before any tuple is put in
//   order.
// - Where the list has too many formulas, what was made of the entry is left for the next
//   obligation, which mostly has too many too.
// - What is kept is taken out of the cache and put back by value. Whether something serves an
//   obligation is a hint, and is tested where it is used.
// - `verify` makes the clauses that a log names (`lazy_logs`), and the whole problem where these
//   don't do.
#![tactic(auto)]

/// The value of a call; where it fails, lets go of these values and ends with its error. Values that are let go by name are let go
/// once in a proof, and not once for each way out.
macro_rules! or_drop {
    ($call:expr; $($value:ident),*) => {
        match $call {
            Ok(value) => value,
            Err(error) => {
                $(drop($value);)*
                return Err(error);
            }
        }
    };
}

mod cache;
mod choosing;
mod columns;
mod completing;
mod equal;
mod front;
mod grounding;
mod keeping;
mod naming;
mod numbering;
mod pairs;

pub use cache::KeptCache;
pub use completing::WholeGround;
pub use grounding::{EitherGround, Kept, LazyGround, ground_lazily, ground_lazily_from};
pub use keeping::KeptPairs;
pub use pairs::{ReadingPairs, pair_formula};
