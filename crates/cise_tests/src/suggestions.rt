// Suggestions: which pairs of operations must conflict.
use crate::examples::ODD;
use crate::running::{ends_with, run_on};
use example_specs::{FLAG, PURSES, WITHDRAWALS};

/// A specification, with the status and the text of the suggestion for it.
#[derive(Clone, Copy)]
struct Row {
    spec: &'static [u8],
    status: u8,
    text: &'static [u8],
}

/// What is suggested for the bank, whether or not it has tokens.
const OF_WITHDRAWALS: &[u8] = b"cise suggest 1
pairs 3
free deposit deposit
free deposit withdraw
needed withdraw withdraw
stable withdraw 2 withdraw
refuted
size Account 1
count balance 0 1
call withdraw 0 1
call withdraw 0 1
at
by a a
summary needed 1 free 2 unknown 0
complete
";

const ROWS: [Row; 5] = [
    Row {
        spec: FLAG,
        status: 0,
        text: b"cise suggest 1
pairs 0
summary needed 0 free 0 unknown 0
complete
",
    },
    Row {
        spec: ODD,
        status: 0,
        text: b"cise suggest 1
pairs 1
free odd odd
summary needed 0 free 1 unknown 0
complete
",
    },
    Row {
        spec: WITHDRAWALS,
        status: 0,
        text: OF_WITHDRAWALS,
    },
    Row {
        spec: PURSES,
        status: 0,
        text: OF_WITHDRAWALS,
    },
    Row {
        spec: b"relation",
        status: 3,
        text: b"refused specification syntax word 0\n",
    },
];

pub const SUGGEST: &[&str] = &["suggest", "s.cise"];

#[test]
fn suggests_which_pairs_must_conflict(rt: HostRuntime) {
    for row in &ROWS {
        let same = ends_with(
            &rt,
            rt.alloc(),
            SUGGEST,
            row.spec,
            b"",
            row.status,
            row.text,
        );
        assert!(rt; same);
    }
}

/// Calls whose breaking states have values that no state has.
const FAR: &[u8] = b"cise 1
counter c
counter d
relation up
invariant alive up
operation keep
  requires ( d >= 1000000000 * c )
end
operation big
  requires ( c >= 1000000000 )
  set d 0
end
";

#[test]
fn leaves_a_pair_unknown(rt: HostRuntime) {
    let ended = run_on(&rt, rt.alloc(), SUGGEST, FAR, b"");
    let last = b"\nsummary needed 0 free 2 unknown 1\nundecided\n";
    let same = ended.status == 5 && ended.text.as_slice().ends_with(last);
    drop(ended);
    assert!(rt; same);
}
