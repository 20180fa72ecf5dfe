// The limits of the language: the largest text within each, and one that goes past it.
use crate::printing::{is_read_so, is_spelled, refuses};
use crate::running::{add, bytes_of};
use std::alloc::Global;
use std::process::Abort;

/// A limit of the language: a text with so many pieces is within it, and with one more it is refused. Each piece is ended by its
/// number in a comment or a name.
#[derive(Clone, Copy)]
struct Limit {
    front: &'static [u8],
    piece: &'static [u8],
    after: &'static [u8],
    behind: &'static [u8],
    most: u32,
    reason: &'static [u8],
}

/// The items of a specification.
fn of_items() -> &'static [Limit] {
    &[
        Limit {
            front: b"cise 1 ",
            piece: b"sort s",
            after: b" ",
            behind: b"",
            most: 8,
            reason: b"limit sorts 9 word 19",
        },
        Limit {
            front: b"cise 1 sort A ",
            piece: b"const c",
            after: b" : A ",
            behind: b"",
            most: 4,
            reason: b"limit constants 5 word 21",
        },
        Limit {
            front: b"cise 1 ",
            piece: b"relation r",
            after: b" ",
            behind: b"",
            most: 16,
            reason: b"limit relations 17 word 35",
        },
        Limit {
            front: b"cise 1 ",
            piece: b"counter c",
            after: b" ",
            behind: b"",
            most: 8,
            reason: b"limit counters 9 word 19",
        },
    ]
}

/// Its other items.
fn of_more_items() -> &'static [Limit] {
    &[
        Limit {
            front: b"cise 1 ",
            piece: b"token t",
            after: b" ",
            behind: b"",
            most: 16,
            reason: b"limit tokens 17 word 35",
        },
        Limit {
            front: b"cise 1 token t ",
            piece: b"conflict t t #",
            after: b"\n",
            behind: b"",
            most: 32,
            reason: b"limit conflicts 33 word 100",
        },
        Limit {
            front: b"cise 1 ",
            piece: b"invariant i",
            after: b" true ",
            behind: b"",
            most: 16,
            reason: b"limit invariants 17 word 51",
        },
        Limit {
            front: b"cise 1 ",
            piece: b"operation o",
            after: b" end ",
            behind: b"",
            most: 24,
            reason: b"limit operations 25 word 75",
        },
    ]
}

/// The lines of an operation.
fn of_lines() -> &'static [Limit] {
    &[
        Limit {
            front: b"cise 1 operation f ( p : int",
            piece: b", q",
            after: b" : int",
            behind: b") end",
            most: 5,
            reason: b"limit parameters 7 word 29",
        },
        Limit {
            front: b"cise 1 operation f ",
            piece: b"requires true #",
            after: b"\n",
            behind: b"end",
            most: 8,
            reason: b"limit requires 9 word 20",
        },
        Limit {
            front: b"cise 1 relation r operation f ",
            piece: b"insert r #",
            after: b"\n",
            behind: b"end",
            most: 16,
            reason: b"limit updates 17 word 38",
        },
        Limit {
            front: b"cise 1 token t operation f ",
            piece: b"takes t #",
            after: b"\n",
            behind: b"end",
            most: 4,
            reason: b"limit takes 5 word 14",
        },
        Limit {
            front: b"cise 2 operation f ",
            piece: b"observes true #",
            after: b"\n",
            behind: b"end",
            most: 8,
            reason: b"limit observes 9 word 20",
        },
    ]
}

/// What stands in brackets, in formulas and in terms.
fn of_parts() -> &'static [Limit] {
    &[
        Limit {
            front: b"cise 1 sort A invariant i forall v : A",
            piece: b", w",
            after: b" : A",
            behind: b" . true",
            most: 2,
            reason: b"limit variables 4 word 19",
        },
        Limit {
            front: b"cise 1 sort A relation r ( A",
            piece: b", A #",
            after: b"\n",
            behind: b")",
            most: 2,
            reason: b"limit places 4 word 13",
        },
        Limit {
            front: b"cise 1 sort A counter c ( A",
            piece: b", A #",
            after: b"\n",
            behind: b")",
            most: 1,
            reason: b"limit places 3 word 11",
        },
        Limit {
            front: b"cise 1 counter c invariant i ( c",
            piece: b"+ c #",
            after: b"\n",
            behind: b"<= 1 )",
            most: 15,
            reason: b"limit summands 17 word 38",
        },
        Limit {
            front: b"cise 1 sort A token t ( A",
            piece: b", A #",
            after: b"\n",
            behind: b")",
            most: 2,
            reason: b"limit places 4 word 13",
        },
    ]
}

/// The text of a limit with so many pieces.
fn repeated(rt: &impl Abort, alloc: Global, limit: &Limit, count: u32) -> Vec<u8> {
    let mut text = bytes_of(rt, alloc, limit.front);
    for number in 0..count {
        add_piece(rt, alloc, &mut text, limit, number);
    }
    add(rt, &mut text, limit.behind);
    text
}

/// Adds one piece.
fn add_piece(rt: &impl Abort, alloc: Global, text: &mut Vec<u8>, limit: &Limit, number: u32) {
    add(rt, text, limit.piece);
    let digits = number.to_string(alloc).expect(rt, "memory");
    add(rt, text, digits.as_bytes());
    drop(digits);
    add(rt, text, limit.after);
}

/// Whether the text with the most pieces is a specification.
fn keeps(rt: &impl Abort, alloc: Global, limit: &Limit) -> bool {
    let most = repeated(rt, alloc, limit, limit.most);
    let within = is_spelled(rt, alloc, most.as_slice());
    drop(most);
    within
}

/// Whether the text with one piece more is refused for that reason.
fn ends(rt: &impl Abort, alloc: Global, limit: &Limit) -> bool {
    let more = repeated(rt, alloc, limit, limit.most.wrapping_add(1));
    let beyond = refuses(rt, alloc, more.as_slice(), limit.reason);
    drop(more);
    beyond
}

#[test]
fn keeps_the_limits(rt: HostRuntime) {
    for limits in [of_items(), of_more_items(), of_lines(), of_parts()] {
        for limit in limits {
            assert!(rt; keeps(&rt, rt.alloc(), limit) && ends(&rt, rt.alloc(), limit));
        }
    }
}

/// A formula between so many words in front of it and behind it: a specification, or refused for a reason.
#[derive(Clone, Copy)]
struct Nested {
    before: &'static [u8],
    after: &'static [u8],
    count: u32,
    refused: Option<&'static [u8]>,
}

/// Formulas with 200 nodes and 200 deep, and one past that.
const NESTED: [Nested; 4] = [
    Nested {
        before: b"not ",
        after: b"",
        count: 199,
        refused: None,
    },
    Nested {
        before: b"not ",
        after: b"",
        count: 200,
        refused: Some(b"syntax word 203"),
    },
    Nested {
        before: b"( true and ",
        after: b" )",
        count: 99,
        refused: None,
    },
    Nested {
        before: b"( true and ",
        after: b" )",
        count: 100,
        refused: Some(b"limit nodes 201 word 4"),
    },
];

/// The invariant with that formula.
fn text_of(rt: &impl Abort, alloc: Global, form: &Nested) -> Vec<u8> {
    let mut text = bytes_of(rt, alloc, b"cise 1 invariant i ");
    for _ in 0..form.count {
        add(rt, &mut text, form.before);
    }
    add(rt, &mut text, b"true");
    for _ in 0..form.count {
        add(rt, &mut text, form.after);
    }
    text
}

/// Whether the formula is read or refused as it is to be.
fn is_kept(rt: &impl Abort, alloc: Global, form: &Nested) -> bool {
    let text = text_of(rt, alloc, form);
    let kept = is_read_so(rt, alloc, text.as_slice(), form.refused);
    drop(text);
    kept
}

#[test]
fn keeps_formulas_small(rt: HostRuntime) {
    for form in &NESTED {
        assert!(rt; is_kept(&rt, rt.alloc(), form));
    }
}

/// Texts with the largest literals and the longest name.
const LARGEST: [&[u8]; 3] = [
    b"cise 1 counter c initially c 1000000000",
    b"cise 1 counter c initially c - 1000000000",
    b"cise 1 sort aaaaaaaaaaaaaaaaaaaaaaaaaaaaaaaa",
];

#[test]
fn takes_the_largest(rt: HostRuntime) {
    for bytes in &LARGEST {
        assert!(rt; is_spelled(&rt, rt.alloc(), bytes));
    }
}

/// A text of so many bytes, all spaces but for its front: a specification, or refused for a reason.
#[derive(Clone, Copy)]
struct Spaced {
    front: &'static [u8],
    bytes: usize,
    refused: Option<&'static [u8]>,
}

/// Texts of 65,536 bytes, and of one more. Spaces alone have no word, so they are refused at the first one that is missing.
const SPACED: [Spaced; 4] = [
    Spaced {
        front: b"",
        bytes: 65_536,
        refused: Some(b"syntax word 0"),
    },
    Spaced {
        front: b"",
        bytes: 65_537,
        refused: Some(b"long"),
    },
    Spaced {
        front: b"cise 1",
        bytes: 65_536,
        refused: None,
    },
    Spaced {
        front: b"cise 1",
        bytes: 65_537,
        refused: Some(b"long"),
    },
];

/// The front and the spaces behind it.
fn with_spaces(rt: &impl Abort, alloc: Global, form: &Spaced) -> Vec<u8> {
    let mut text = bytes_of(rt, alloc, form.front);
    for _ in form.front.len()..form.bytes {
        text.push(b' ').expect(rt, "memory");
    }
    text
}

/// Whether the text is read or refused as it is to be.
fn is_kept_so(rt: &impl Abort, alloc: Global, form: &Spaced) -> bool {
    let text = with_spaces(rt, alloc, form);
    let kept = is_read_so(rt, alloc, text.as_slice(), form.refused);
    drop(text);
    kept
}

#[test]
fn keeps_texts_short(rt: HostRuntime) {
    for form in &SPACED {
        assert!(rt; is_kept_so(&rt, rt.alloc(), form));
    }
}
