// Whole numbers, as they are written outside specifications.
use word_cut::read_whole;

static CASES: [(&[u8], Option<i128>); 12] = [
    (b"0", Some(0)),
    (b"-17", Some(-17)),
    (
        b"170141183460469231731687303715884105727",
        Some(170_141_183_460_469_231_731_687_303_715_884_105_727),
    ),
    (
        b"-170141183460469231731687303715884105727",
        Some(-170_141_183_460_469_231_731_687_303_715_884_105_727),
    ),
    (b"170141183460469231731687303715884105728", None),
    (b"007", None),
    (b"-0", None),
    (b"-", None),
    (b"", None),
    (b"+1", None),
    (b"1 ", None),
    (b"1_000", None),
];

#[test]
fn whole_numbers_are_written_without_zeros_in_front(rt: HostRuntime) {
    for (text, number) in &CASES {
        assert!(rt; read_whole(text) == *number);
    }
}
