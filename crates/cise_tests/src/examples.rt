// Specifications in the layout of the language, and a report.

/// A call that asks for what no whole numbers give.
pub const ODD: &[u8] = b"cise 1
relation up
initially up true
invariant alive up
operation odd ( x : int , y : int )
  requires ( 2 * x - 2 * y = 1 )
  remove up
end
";

/// A report on a flag that may be raised, with logs that were written by hand.
pub const RAISED_REPORT: &[u8] = b"cise report 1
budget 10000
obligations 3
init alive
proved 0
safety raise alive
proved 1
r 2 1 1
commute raise raise up
proved 4
r 7 3 2
r 6 4 1
r 1 10 5
r 12 11 6
summary proved 3 refuted 0 undecided 0
accepted
";
