// What is decided of whole numbers: parities, coins, capacities, coefficients near 10^9, and sums under eight flags; and what meets a limit.
use crate::check::{CHECK, is_checked};
use example_specs::VAST;
use std::alloc::Global;
use std::process::Abort;

// Whether `a` is odd is settled by the invariant, so nothing calls it.
const SIXTHS: &[u8] = b"cise 1
counter a
counter b
counter c
invariant even ( 6 * c = 3 * a + 2 * b )
invariant some ( a >= 0 )
operation f ( n : int )
  requires ( a = 2 * n + 1 )
  add a 1
end
";

// Three equalities of which the last makes `y` odd and the first makes it even.
const CHAIN: &[u8] = b"cise 1
counter w
counter x
counter y
counter z
relation up
initially up true
invariant alive up
operation fall
  requires ( 2 * x = 3 * y )
  requires ( 2 * y = 3 * z )
  requires ( z = 4 * w + 2 )
  remove up
end
";

// The greatest amount that coins of 1009 and 1013 don't make.
const COINS: &[u8] = b"cise 1
counter a
counter b
relation up
initially up true
invariant alive up
operation pay
  requires ( ( a >= 0 ) and ( b >= 0 ) )
  requires ( 1009 * a + 1013 * b = 1020095 )
  remove up
end
";

// Two numbers whose multiples of 997 and 1009 differ by 1.
const SLOPES: &[u8] = b"cise 1
counter x
counter y
relation up
initially up true
invariant alive up
operation meet
  requires ( 997 * x - 1009 * y = 1 )
  remove up
end
";

// Pieces are made into others within one capacity, of which each piece has its part for itself.
const CONVERT: &[u8] = b"cise 1
sort I
counter stock ( I )
counter sold ( I )
counter made ( I )
counter cap
invariant kept forall i : I . ( made ( i ) = stock ( i ) + sold ( i ) )
invariant some forall i : I . ( stock ( i ) >= 0 )
operation convert ( x : I , y : I , n : int )
  requires ( stock ( x ) >= 3 * n )
  requires forall z : I . ( stock ( y ) + 2 * n <= cap )
  add stock ( y ) 2 * n
  add made ( y ) 2 * n
end
";

// A threshold near the end of the range of a state.
const FAR: &[u8] = b"cise 1
counter a
counter b
counter c
relation up
initially up true
invariant alive up
operation fall
  requires ( c >= 1500000 )
  requires ( a + b >= 1000000000 * c )
  remove up
end
";

// A circle of quotients near 1, which nothing changes.
const PRICES: &[u8] = b"cise 1
counter a
counter b
counter c
counter d
counter e
operation look
  requires ( 999999937 * a <= 999999929 * b )
  requires ( 999999893 * b <= 999999883 * c )
  requires ( 999999797 * c <= 999999761 * d )
  requires ( 999999757 * d <= 999999751 * e )
  requires ( 999999739 * e <= 999999733 * a )
end
";

// Under each of eight flags a call adds to one counter.
const FLAGS: &[u8] = b"cise 1
relation p0
relation p1
relation p2
relation p3
relation p4
relation p5
relation p6
relation p7
counter c
operation f
  add c 1 when p0
  add c 2 when p1
  add c 3 when p2
  add c 4 when p3
  add c 5 when p4
  add c 6 when p5
  add c 7 when p6
  add c 8 when p7
end
";

// Five counters and twelve inequalities with small coefficients. Elimination alone holds more and more rows.
const TWELVE: &[u8] = b"cise 1
counter p
counter q
counter r
counter s
counter t
operation f
  requires ( ( p + r + 3 * s <= 3 * q + 3 * t + 17 ) and ( 3 * p + s + 3 * t <= 3 * q + 2 * r + 9 ) )
  requires ( ( 3 * p + q + 2 * s + 2 * t <= 2 * r + 1 ) and ( 2 * r + s + 2 * t <= p + 2 * q - 11 ) )
  requires ( ( r + 2 * s + 2 * t <= 2 * p + 2 * q + 3 ) and ( t <= p + 2 * q + 3 * r + 2 * s + 14 ) )
  requires ( ( p <= q + 3 * r + 3 * s + t + 8 ) and ( 2 * p + q + 2 * t <= 2 * r + s + 16 ) )
  requires ( ( p + 2 * r + s <= 2 * q + 2 * t + 18 ) and ( p + 2 * t <= 3 * q + 3 * r + 3 * s - 15 ) )
  requires ( ( q + r + 3 * t <= 2 * p + s + 15 ) and ( 2 * p + 3 * s + 2 * t <= 2 * q + 3 * r + 16 ) )
  add p 1
  add q 2
  add r 1
  add s 3
  add t 1
end
";

// The circle has no numbers but those of which all are 0 or below, for the least of which the first line asks for more. Each line by
// itself contradicts its own opposite.
const CIRCLE: &[u8] = b"cise 1
counter a
counter b
counter c
counter d
counter e
relation up
initially up true
invariant alive up
operation fall
  requires ( a >= 1000 )
  requires ( 999999937 * a <= 999999929 * b )
  requires ( 999999893 * b <= 999999883 * c )
  requires ( 999999797 * c <= 999999761 * d )
  requires ( 999999757 * d <= 999999751 * e )
  requires ( 999999739 * e <= 999999733 * a )
  remove up
end
";

// Numbers beyond a state beside twelve inequalities in five counters, of which elimination makes too many.
const GROWING: &[u8] = b"cise 1
counter a
counter b
counter p
counter q
counter r
counter s
counter t
relation up
initially up true
invariant alive up
operation fall
  requires ( a >= 1000000000 )
  requires ( b >= 1000000000 * a )
  requires ( ( 7 * q + 25 * r + 22 * s + 19 * t <= 22 * p + 18 ) and ( 2 * r + 19 * s <= 14 * p + 23 * q + 2 * t + 70 ) )
  requires ( ( 12 * p + 21 * r <= 6 * q + 17 * s + 24 * t + 72 ) and ( 28 * q + 24 * r <= 29 * p + 6 * s + 3 * t + 87 ) )
  requires ( ( 19 * p + 20 * q + 15 * s <= 30 * r + 2 * t + 44 ) and ( 17 * p + 22 * q + 8 * s <= 16 * r + 24 * t + 50 ) )
  requires ( ( 12 * s + 5 * t <= 29 * p + 29 * q + 29 * r + 11 ) and ( 27 * p + 14 * r <= 6 * q + 17 * s + 3 * t + 13 ) )
  requires ( ( 4 * p + 19 * r + 2 * t <= 16 * q + 2 * s + 80 ) and ( 14 * s <= 16 * p + 8 * q + 16 * r + 16 * t + 68 ) )
  requires ( ( 30 * q + 24 * t <= 12 * p + 29 * r + 4 * s + 81 ) and ( 30 * p + 12 * q + 11 * t <= 24 * r + 19 * s + 47 ) )
  remove up
end
";

// A coefficient of about 10^27, which elimination makes, times a number of at least 10^12.
const CHAINED: &[u8] = b"cise 1
counter a
counter b
counter c
counter d
counter z
relation up
initially up true
invariant alive up
operation fall
  requires ( 1000 * z <= a )
  requires ( 999999937 * b <= 999999893 * c )
  requires ( 999999757 * a <= 999999733 * b )
  requires ( z >= 1000000000 )
  requires ( d <= 1000 * a )
  requires ( 999999797 * c <= 999999883 * d )
  remove up
end
";

// Under each of ten flags a call adds to one counter: twice 2^10 sets of guards.
const TEN_FLAGS: &[u8] = b"cise 1
relation p0
relation p1
relation p2
relation p3
relation p4
relation p5
relation p6
relation p7
relation p8
relation p9
counter c
operation f
  add c 1 when p0
  add c 2 when p1
  add c 3 when p2
  add c 4 when p3
  add c 5 when p4
  add c 6 when p5
  add c 7 when p6
  add c 8 when p7
  add c 9 when p8
  add c 10 when p9
end
";

// Where the relation holds, nothing is asked of the numbers, which would lie beyond a state.
const EITHER: &[u8] = b"cise 1
sort X
counter c
counter d
relation up ( X )
relation alive
initially alive true
invariant ok alive
operation fall ( x : X )
  requires ( up ( x ) or ( ( c >= 1000000000 ) and ( d >= 1000000000 * c ) ) )
  remove alive
end
";

// A check whose report has these lines, in this order.
#[derive(Clone, Copy)]
struct Case {
    spec: &'static [u8],
    status: u8,
    lines: &'static [&'static [u8]],
}

// Specifications that are accepted.
fn accepted() -> &'static [Case] {
    &[
        Case {
            spec: SIXTHS,
            status: 0,
            lines: &[
                b"safety f even",
                b"proved",
                b"stable f 1 f",
                b"proved",
                b"accepted",
            ],
        },
        Case {
            spec: CHAIN,
            status: 0,
            lines: &[b"safety fall alive", b"proved", b"accepted"],
        },
        Case {
            spec: COINS,
            status: 0,
            lines: &[b"safety pay alive", b"proved", b"accepted"],
        },
        Case {
            spec: PRICES,
            status: 0,
            lines: &[b"stable look 5 look", b"proved", b"accepted"],
        },
        Case {
            spec: FLAGS,
            status: 0,
            lines: &[b"commute f f c", b"proved", b"accepted"],
        },
    ]
}

// Rejected ones.
fn rejected() -> &'static [Case] {
    &[
        Case {
            spec: SLOPES,
            status: 1,
            lines: &[b"safety meet alive", b"refuted", b"rejected"],
        },
        Case {
            spec: CONVERT,
            status: 1,
            lines: &[b"stable convert 2 convert", b"refuted", b"rejected"],
        },
        Case {
            spec: FAR,
            status: 1,
            lines: &[b"safety fall alive", b"refuted", b"rejected"],
        },
        Case {
            spec: TWELVE,
            status: 1,
            lines: &[
                b"stable f 1 f",
                b"refuted",
                b"stable f 2 f",
                b"refuted",
                b"stable f 3 f",
                b"refuted",
                b"stable f 4 f",
                b"refuted",
                b"stable f 6 f",
                b"refuted",
                b"rejected",
            ],
        },
        Case {
            spec: EITHER,
            status: 1,
            lines: &[b"safety fall ok", b"refuted", b"rejected"],
        },
    ]
}

const LIMITS: [Case; 5] = [
    Case {
        spec: GROWING,
        status: 5,
        lines: &[b"safety fall alive", b"undecided rows 0", b"undecided"],
    },
    // The product that is left out decides nothing of the line that contradicts its opposite.
    Case {
        spec: CIRCLE,
        status: 5,
        lines: &[
            b"safety fall alive",
            b"undecided range 0",
            b"product ",
            b"stable fall 2 fall",
            b"proved",
            b"undecided",
        ],
    },
    Case {
        spec: VAST,
        status: 5,
        lines: &[
            b"safety big alive",
            b"undecided range 0",
            b"value ",
            b"undecided",
        ],
    },
    Case {
        spec: CHAINED,
        status: 5,
        lines: &[
            b"safety fall alive",
            b"undecided range 0",
            b"sum ",
            b"undecided",
        ],
    },
    Case {
        spec: TEN_FLAGS,
        status: 5,
        lines: &[b"commute f f c", b"undecided lines 10000", b"undecided"],
    },
];

// Whether a check ends so, and no line of its report begins as another text.
fn ends_so(rt: &impl Abort, alloc: Global, case: &Case, without: &[u8]) -> bool {
    is_checked(
        rt,
        alloc,
        CHECK,
        case.spec,
        case.status,
        case.lines,
        without,
    )
}

#[test]
fn easy_numbers_are_decided(rt: HostRuntime) {
    for cases in [accepted(), rejected()] {
        for case in cases {
            assert!(rt; ends_so(&rt, rt.alloc(), case, b"undecided "));
        }
    }
}

#[test]
fn each_limit_is_met(rt: HostRuntime) {
    for case in &LIMITS {
        assert!(rt; ends_so(&rt, rt.alloc(), case, b"refuted"));
    }
}
