// The texts of `sample`: n has 10 n^2 - 6 n - 1 obligations, all of which hold.
use crate::running::ends_with;

/// A sample, with its status and its text.
#[derive(Clone, Copy)]
struct Row {
    number: &'static str,
    status: u8,
    text: &'static [u8],
}

const ROWS: [Row; 6] = [
    Row {
        number: "1",
        status: 0,
        text: b"cise sample 1\nobligations 3\nsummary proved 3 refuted 0 undecided 0\naccepted\n",
    },
    Row {
        number: "2",
        status: 0,
        text: b"cise sample 2\nobligations 27\nsummary proved 27 refuted 0 undecided 0\naccepted\n",
    },
    Row {
        number: "4",
        status: 0,
        text: b"cise sample 4\nobligations 135\nsummary proved 135 refuted 0 undecided 0\naccepted\n",
    },
    Row {
        number: "12",
        status: 0,
        text: b"cise sample 12\nobligations 1367\nsummary proved 1367 refuted 0 undecided 0\naccepted\n",
    },
    Row {
        number: "13",
        status: 2,
        text: b"refused words\n",
    },
    Row {
        number: "0",
        status: 2,
        text: b"refused words\n",
    },
];

#[test]
fn counts_the_verdicts(rt: HostRuntime) {
    for it in &ROWS {
        let words = &["sample", it.number];
        let same = ends_with(&rt, rt.alloc(), words, b"", b"", it.status, it.text);
        assert!(rt; same);
    }
}
