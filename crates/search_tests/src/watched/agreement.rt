// Both searches say the same of twenty problems.
use crate::summaries::Said;
use crate::watched::asked::both_say;
use std::alloc::Global;

// No interpretation satisfies these.
const REFUTED: &str = "1 0:
1 0:1;-1
2 0:1 2;-1 2;1 -2;-1 -2
3 0:1;-1 2;-2 3;-3 -1
4 0:1 2;1 -2;-1 3;-1 -3 4;-3 -4
6 0:1 2;3 4;5 6;-1 -3;-1 -5;-3 -5;-2 -4;-2 -6;-4 -6
3 0:1 2 3;1 2 -3;1 -2 3;1 -2 -3;-1 2 3;-1 2 -3;-1 -2 3;-1 -2 -3
2 2:1 -1 <= -1;-1 1 <= -1;1;2
3 1:1 <= 0;-1 <= -1;-1 <= -2;1;2 3
2 1:2 <= 1;-2 <= -1;1;2";

// Some interpretation satisfies these.
const SATISFIED: &str = "1 0:1
2 0:1 2;-1 -2
3 0:1;-1 2;-2 3
4 0:1 2;1 -2;-1 3;-1 -3 4;-3 4
6 0:1 2;3 4;5 6;-1 -3;-1 -5;-3 -5
3 0:1 2 3;1 2 -3;1 -2 3;1 -2 -3;-1 2 3;-1 2 -3;-1 -2 3
2 2:1 -1 <= -1;-1 1 <= -1;1 2
3 1:1 <= 0;-1 <= -1;-1 <= -2;1 2;1 3
2 1:2 <= 1;-2 <= 0;1;2
5 0:1 2 3;-1 4;-2 4;-3 4;-4 5;-5 -1;-5 -2";

fn many(alloc: Global, texts: &str, what: Said) -> u32 {
    let mut many = 0u32;
    for text in texts.split('\n') {
        if both_say(alloc, text, what) {
            many = many.saturating_add(1);
        }
    }
    many
}

#[test]
fn both_searches_refute_ten_problems(rt: HostRuntime) {
    assert!(rt; many(rt.alloc(), REFUTED, Said::Unsat) == 10);
}

#[test]
fn both_searches_satisfy_ten_problems(rt: HostRuntime) {
    assert!(rt; many(rt.alloc(), SATISFIED, Said::Sat) == 10);
}
