// Problems whose rows contradict each other, or lie beyond the range of a state, though no clause needs them all.
use crate::summaries::Said;
use crate::watched::asked::check;

// The first plain atom makes the first clause true. The second names a row and its opposite, and need not be true.
const NAMED: &str = "4 1:1 <= 0;-1 <= -1;3 4;-4 1;-4 2";

// The second plain atom names what the third does.
const NESTED: &str = "5 1:1 <= 0;-1 <= -1;3 4;-4 5;-5 1;-5 2";

// The first row is needed, the second, which contradicts it, isn't.
const SHARED: &str = "4 1:1 <= 0;-1 <= -1;3 4;-4 2;1";

// The first number is at least 10^9, and the second at least 10^9 times as great.
const FAR: &str = "4 2:-1 <= -1000000000;1000000000 -1 <= 0;3 4;-4 1;-4 2";

// The last plain atom is true in any case, and names a row and its opposite. The third row isn't needed.
const NEEDED: &str = "7 1:1 <= 0;-1 <= -1;1 <= 5;4 5;-5 3;7 6;7 -6;-7 1;-7 2";

#[test]
fn rows_that_no_clause_needs_may_contradict_others(rt: HostRuntime) {
    check(&rt, rt.alloc(), NAMED, 0, Said::Sat);
    check(&rt, rt.alloc(), NESTED, 0, Said::Sat);
    check(&rt, rt.alloc(), SHARED, 0, Said::Sat);
}

#[test]
fn rows_that_no_clause_needs_may_lie_beyond_the_range(rt: HostRuntime) {
    check(&rt, rt.alloc(), FAR, 0, Said::Sat);
}

#[test]
fn rows_that_clauses_need_are_refuted(rt: HostRuntime) {
    check(&rt, rt.alloc(), NEEDED, 0, Said::Nothing);
    check(&rt, rt.alloc(), NEEDED, 16, Said::Unsat);
}
