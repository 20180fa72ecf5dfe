// What is no specification, and why both commands refuse it.
use crate::printing::refuses;

/// The bytes, and what the refusal says of them. A proof looks into a table wherever it stands, at a cost that grows with the square of its
/// length, so each stands in a function of its own.
type Row = (&'static [u8], &'static [u8]);

/// No words.
fn of_words() -> &'static [Row] {
    &[
        (b"cise 1 relation $", b"letter at 16"),
        (
            b"cise 1 sort aaaaaaaaaaaaaaaaaaaaaaaaaaaaaaaaa",
            b"name at 12",
        ),
        (
            b"cise 111111111111111111111111111111111111111",
            b"number at 5",
        ),
    ]
}

/// No reading of the words.
fn of_syntax() -> &'static [Row] {
    &[
        (b"cise 1 operation f (", b"syntax word 5"),
        (b"cise 1 sort 5", b"syntax word 3"),
        (b"", b"syntax word 0"),
        (b"cise", b"syntax word 1"),
        (b"cise 3", b"syntax word 1"),
        (b"cise 1 invariant i a and b", b"syntax word 5"),
        (b"cise 1 invariant i ( a )", b"syntax word 6"),
        (b"cise 1 invariant i ( not a < b )", b"syntax word 7"),
        (b"cise 1 invariant i ( a + 1 and b )", b"syntax word 8"),
        (b"cise 1 operation f requires 1 = 1 end", b"syntax word 5"),
        (b"cise 2 sort shared", b"syntax word 3"),
        (b"cise 1 operation f observes", b"syntax word 4"),
    ]
}

/// Names that stand for nothing, or for two things.
fn of_names() -> &'static [Row] {
    &[
        (b"cise 1 relation r ( A )", b"unknown A word 5"),
        (b"cise 1 invariant i r relation r", b"unknown r word 4"),
        (b"cise 1 sort A sort A", b"twice A word 5"),
        (
            b"cise 1 relation r initially r true initially r 1",
            b"twice r word 8",
        ),
        (
            b"cise 1 sort A operation f ( f : A ) end",
            b"twice f word 7",
        ),
        (
            b"cise 1 sort A sort A counter c initially c 1000000001",
            b"twice A word 5",
        ),
    ]
}

/// Names that stand for another kind of thing.
fn of_kinds() -> &'static [Row] {
    &[
        (b"cise 1 sort A relation r ( r )", b"kind r word 7"),
        (b"cise 1 sort A const x : x", b"kind x word 7"),
        (
            b"cise 1 sort A invariant i exists a : A . true",
            b"kind exists word 6",
        ),
        (b"cise 1 counter c initially c true", b"kind c word 5"),
        (
            b"cise 1 sort A counter d ( A ) invariant i ( d < 1 )",
            b"kind d word 12",
        ),
        (
            b"cise 1 sort A const a : A invariant i ( a = zzz )",
            b"kind a word 11",
        ),
        (
            b"cise 1 sort A sort B const a : A const b : B invariant i ( a = b )",
            b"kind b word 19",
        ),
        (
            b"cise 1 sort A sort B token t ( A , B ) conflict t ( x , x ) t ( y , z )",
            b"kind x word 18",
        ),
        (b"cise 1 token t relation r conflict t r", b"kind r word 8"),
        (
            b"cise 1 counter c operation f insert c end",
            b"kind c word 7",
        ),
        (
            b"cise 1 relation r operation f add r 1 end",
            b"kind r word 7",
        ),
    ]
}

/// Too many places or too few, and numbers that are too great.
fn of_counts() -> &'static [Row] {
    &[
        (
            b"cise 1 sort A relation r ( A ) invariant i r",
            b"count r word 11",
        ),
        (
            b"cise 1 relation r operation f insert r ( * ) end",
            b"count r word 7",
        ),
        (
            b"cise 1 token t operation f ( n : int ) takes t ( n ) end",
            b"count t word 12",
        ),
        (
            b"cise 1 counter c initially c 1000000001",
            b"limit literal 1000000001 word 6",
        ),
    ]
}

#[test]
fn refuses_what_is_no_specification(rt: HostRuntime) {
    for rows in [of_words(), of_syntax(), of_names(), of_kinds(), of_counts()] {
        for (bytes, reason) in rows {
            assert!(rt; refuses(&rt, rt.alloc(), bytes, reason));
        }
    }
}
