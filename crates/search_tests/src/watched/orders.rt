// A budget suffices where it does for one of the two orders in which atoms are decided.
use crate::summaries::Said;
use crate::watched::asked::said_of;
use std::alloc::Global;

// Four pigeons in three holes: 44 lines by number, and 51 where the most active atoms are decided first.
const PIGEONS: &str =
    "12 0:1 2 3;4 5 6;7 8 9;10 11 12;-1 -4;-1 -7;-1 -10;-4 -7;-4 -10;-7 -10;-2 -5;-2 -8;-2 -11;-5 -8;\
-5 -11;-8 -11;-3 -6;-3 -9;-3 -12;-6 -9;-6 -12;-9 -12";

// Random clauses: 22 lines by number, and 14 where the most active atoms are decided first.
const RANDOM: &str =
    "8 0:3 4 -8;-1 -3 -6;-1 3 6;-3 4 7;3 5 -6;-1 -6 -7;5 6 -8;4 5 6;-3 6 -8;-2 -4 -6;-1 -7 8;-2 -6 -7;1 4 -5;\
4 -6 -7;3 -5 8;4 -5 7;1 -2 -5;-1 -6 -8;3 7 8;-1 5 8;2 7 8;-2 6 -7;-3 5 -6;2 -4 -8;-2 -3 -8;1 6 -7;-1 -5 -8;-3 5 -8;2 -6 8;\
-2 -3 7;-1 7 -8;2 4 6;-1 -3 5;-3 4 5;-3 -7 8;-1 -5 7;-1 -4 7;-1 -2 -7;2 -3 5;-3 6 -8;3 5 8;-2 5 8;-3 4 -6;-2 4 -7";

fn refuted(alloc: Global, text: &str, budget: u32) -> bool {
    said_of(alloc, text, budget) == Said::Unsat
}

#[test]
fn a_budget_suffices_where_it_does_for_one_order(rt: HostRuntime) {
    assert!(rt; !refuted(rt.alloc(), PIGEONS, 43) && refuted(rt.alloc(), PIGEONS, 44));
    assert!(rt; !refuted(rt.alloc(), RANDOM, 13) && refuted(rt.alloc(), RANDOM, 14));
}
