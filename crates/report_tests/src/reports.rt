// The reports of the tests, written by hand.

/// The report of the flag that is up.
pub const UP: &[u8] = b"cise report 1
budget 10000
obligations 1
init alive
proved 0
summary proved 1 refuted 0 undecided 0
accepted
";

/// A witness of the flag, of whatever worth.
pub const REFUTED: &[u8] = b"cise report 1
budget 10000
obligations 1
init alive
refuted
true up
at
summary proved 0 refuted 1 undecided 0
rejected
";

/// The report of the flag that is down.
pub const DOWN: &[u8] = b"cise report 1
budget 10000
obligations 1
init alive
refuted
at
summary proved 0 refuted 1 undecided 0
rejected
";

/// The report of the flag that is up, without its last line.
pub const UP_CUT: &[u8] = b"cise report 1
budget 10000
obligations 1
init alive
proved 0
summary proved 1 refuted 0 undecided 0
";

/// The same without its last line feed.
pub const UP_UNENDED: &[u8] = b"cise report 1
budget 10000
obligations 1
init alive
proved 0
summary proved 1 refuted 0 undecided 0
accepted";

/// The report of the flag that an operation raises.
pub const RAISED: &[u8] = b"cise report 1
budget 10000
obligations 3
init alive
proved 0
safety raise alive
proved 1
r 2 1 1
commute raise raise up
proved 4
r 7 3 2
r 6 4 1
r 1 10 5
r 12 11 6
summary proved 3 refuted 0 undecided 0
accepted
";

/// The same in version 2, whose logs drop what they no longer need.
pub const RAISED_DROPPING: &[u8] = b"cise report 2
budget 10000
obligations 3
init alive
proved 0
safety raise alive
proved 2
r 2 1 1
d 2 1 2
commute raise raise up
proved 8
r 7 3 2
d 2 3 7
r 6 4 1
d 2 4 6
r 1 10 5
d 2 1 10
r 12 11 6
d 2 11 12
summary proved 3 refuted 0 undecided 0
accepted
";

/// The same with a line that names a clause after it was dropped.
pub const NAMES_DROPPED: &[u8] = b"cise report 2
budget 10000
obligations 3
init alive
proved 0
safety raise alive
proved 2
r 2 1 1
d 2 1 2
commute raise raise up
proved 8
r 7 3 2
d 2 3 7
r 7 4 1
d 2 4 6
r 1 10 5
d 2 1 10
r 12 11 6
d 2 11 12
summary proved 3 refuted 0 undecided 0
accepted
";

/// A log of version 2 that drops a clause later than it could, and one that nothing names.
pub const DROPPED_LATE: &[u8] = b"cise report 2
budget 10000
obligations 3
init alive
proved 0
safety raise alive
proved 3
d 1 0
r 2 1 1
d 2 2 1
commute raise raise up
proved 6
r 7 3 2
r 6 4 1
d 3 7 3 6
r 1 10 5
r 12 11 6
d 1 12
summary proved 3 refuted 0 undecided 0
accepted
";

/// The report of the raised flag without its last line.
pub const RAISED_CUT: &[u8] = b"cise report 1
budget 10000
obligations 3
init alive
proved 0
safety raise alive
proved 1
r 2 1 1
commute raise raise up
proved 4
r 7 3 2
r 6 4 1
r 1 10 5
r 12 11 6
summary proved 3 refuted 0 undecided 0
";

/// The same report with another pivot in the line `r 7 3 2`.
pub const OTHER_PIVOT: &[u8] = b"cise report 1
budget 10000
obligations 3
init alive
proved 0
safety raise alive
proved 1
r 2 1 1
commute raise raise up
proved 4
r 7 3 1
r 6 4 1
r 1 10 5
r 12 11 6
summary proved 3 refuted 0 undecided 0
accepted
";

/// The same without its last line: what is wrong with the text comes before what is wrong with a log.
pub const OTHER_PIVOT_CUT: &[u8] = b"cise report 1
budget 10000
obligations 3
init alive
proved 0
safety raise alive
proved 1
r 2 1 1
commute raise raise up
proved 4
r 7 3 1
r 6 4 1
r 1 10 5
r 12 11 6
summary proved 3 refuted 0 undecided 0
";

/// A log that ends before the empty clause.
pub const SHORT_LOG: &[u8] = b"cise report 1
budget 10000
obligations 3
init alive
proved 0
safety raise alive
proved 1
r 2 1 1
commute raise raise up
proved 3
r 7 3 2
r 6 4 1
r 1 10 5
summary proved 3 refuted 0 undecided 0
accepted
";

/// A log that is longer than the budget.
pub const OVER_BUDGET: &[u8] = b"cise report 1
budget 3
obligations 3
init alive
proved 0
safety raise alive
proved 1
r 2 1 1
commute raise raise up
proved 4
r 7 3 2
r 6 4 1
r 1 10 5
r 12 11 6
summary proved 3 refuted 0 undecided 0
accepted
";

/// A spent budget of one line.
pub const SPENT: &[u8] = b"cise report 1
budget 1
obligations 3
init alive
proved 0
safety raise alive
proved 1
r 2 1 1
commute raise raise up
undecided lines 1
r 1 3 5
summary proved 2 refuted 0 undecided 1
undecided
";

/// The same with another budget.
pub const NOT_SPENT: &[u8] = b"cise report 1
budget 2
obligations 3
init alive
proved 0
safety raise alive
proved 1
r 2 1 1
commute raise raise up
undecided lines 1
r 1 3 5
summary proved 2 refuted 0 undecided 1
undecided
";

/// The spent budget upgraded: the log of an undecided verdict stays as it is.
pub const SPENT_UPGRADED: &[u8] = b"cise report 2
budget 1
obligations 3
init alive
proved 0
safety raise alive
proved 2
r 2 1 1
d 2 1 2
commute raise raise up
undecided lines 1
r 1 3 5
summary proved 2 refuted 0 undecided 1
undecided
";

/// The formulas aren't too many.
pub const FEW: &[u8] = b"cise report 1
budget 10000
obligations 3
init alive
undecided instances
safety raise alive
proved 1
r 2 1 1
commute raise raise up
proved 4
r 7 3 2
r 6 4 1
r 1 10 5
r 12 11 6
summary proved 2 refuted 0 undecided 1
undecided
";

/// A log whose rows are combined to a contradiction, and that ends before the empty clause.
pub const COMBINED: &[u8] = b"cise report 1
budget 10000
obligations 4
init alive
proved 0
safety odd alive
proved 1
f 2 +1 +2 1 0 1 1 1
commute odd odd up
proved 0
stable odd 1 odd
proved 0
summary proved 4 refuted 0 undecided 0
accepted
";

/// The same with a negative multiplier.
pub const NEGATIVE: &[u8] = b"cise report 1
budget 10000
obligations 4
init alive
proved 0
safety odd alive
proved 1
f 2 +1 +2 1 0 -1 1 1
commute odd odd up
proved 0
stable odd 1 odd
proved 0
summary proved 4 refuted 0 undecided 0
accepted
";

/// The same with a step that is left out.
pub const UNCOMBINED: &[u8] = b"cise report 1
budget 10000
obligations 4
init alive
proved 0
safety odd alive
proved 1
f 2 +1 +2 0
commute odd odd up
proved 0
stable odd 1 odd
proved 0
summary proved 4 refuted 0 undecided 0
accepted
";

/// Reports of the flag with one verdict each. Between them they have each kind of line that this flag can have.
pub const VERDICTS: &[&[u8]] = &[
    b"cise report 1\nbudget 1\nobligations 1\ninit alive\nproved 3\nr 1 2 3\nf 2 +1 -2 1 1 2 2 3\ns 1 -4 1 +1 0 1 2 2 3 -5\nsummary proved 1 refuted 0 undecided 0\naccepted\n",
    b"cise report 2\nbudget 1\nobligations 1\ninit alive\nproved 4\nr 1 2 3\nd 2 1 2\nf 0 0\ns 1 0 0 0 1 2 0\nsummary proved 1 refuted 0 undecided 0\naccepted\n",
    b"cise report 1\nbudget 7\nobligations 1\ninit alive\nrefuted\ntrue up\nat\nsummary proved 0 refuted 1 undecided 0\nrejected\n",
    b"cise report 2\nbudget 7\nobligations 1\ninit alive\nrefuted\nat\nsummary proved 0 refuted 1 undecided 0\nrejected\n",
    b"cise report 1\nbudget 1000000\nobligations 1\ninit alive\nundecided instances\nsummary proved 0 refuted 0 undecided 1\nundecided\n",
    b"cise report 2\nbudget 2\nobligations 1\ninit alive\nundecided lines 2\nr 1 2 3\nf 0 0\nsummary proved 0 refuted 0 undecided 1\nundecided\n",
    b"cise report 1\nbudget 2\nobligations 1\ninit alive\nundecided rows 1\nr 1 2 3\nrows 1 +1 1 1 2 2 3\nsummary proved 0 refuted 0 undecided 1\nundecided\n",
    b"cise report 1\nbudget 2\nobligations 1\ninit alive\nundecided range 0\nproduct 1 +1 0 1 2 3\nsummary proved 0 refuted 0 undecided 1\nundecided\n",
    b"cise report 2\nbudget 2\nobligations 1\ninit alive\nundecided range 1\nr 1 2 3\nvalue 1 -1 0 1 2 1 -7\nsummary proved 0 refuted 0 undecided 1\nundecided\n",
    b"cise report 1\nbudget 2\nobligations 1\ninit alive\nundecided range 0\nsum 0 1 1 2 3 4 1 2 2 5 6\nsummary proved 0 refuted 0 undecided 1\nundecided\n",
];
