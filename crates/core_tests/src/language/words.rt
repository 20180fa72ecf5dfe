// The words of some bytes: where each stands, and where there are none.
use std::alloc::Global;
use word_cut::{CutRefused, Word, WordKind, cut};

macro_rules! word {
    ($kind:ident, $at:expr, $len:expr, $line:expr) => {
        Word {
            kind: WordKind::$kind,
            at: $at,
            len: $len,
            line: $line,
        }
    };
}

// Why some bytes have no words; None where they have some.
fn refusal(alloc: Global, bytes: &[u8]) -> Option<CutRefused> {
    if bytes.len() > 65536 {
        return None;
    }
    cut(alloc, bytes).err()
}

// Whether the words of some bytes are these.
fn cuts(alloc: Global, bytes: &[u8], words: &[Word]) -> bool {
    if bytes.len() > 65536 {
        return false;
    }
    match cut(alloc, bytes) {
        Ok(found) => {
            let same = found.as_slice() == words;
            drop(found);
            same
        }
        Err(_) => false,
    }
}

// Some bytes, and their words.
static CASES: [(&[u8], &[Word]); 3] = [
    (
        b"\tcise 01# a $\n<=x_1\r\n-",
        &[
            word!(Reserved, 1, 4, 1),
            word!(Number, 6, 1, 1),
            word!(Number, 7, 1, 1),
            word!(Sign, 14, 2, 2),
            word!(Name, 16, 3, 2),
            word!(Sign, 21, 1, 3),
        ],
    ),
    (
        b"<=<!==10sort_",
        &[
            word!(Sign, 0, 2, 1),
            word!(Sign, 2, 1, 1),
            word!(Sign, 3, 2, 1),
            word!(Sign, 5, 1, 1),
            word!(Number, 6, 2, 1),
            word!(Name, 8, 5, 1),
        ],
    ),
    (b" # nothing", &[]),
];

#[test]
fn words_stand_at_their_places(rt: HostRuntime) {
    for (bytes, words) in &CASES {
        assert!(rt; cuts(rt.alloc(), bytes, words));
    }
}

static REFUSALS: [(&[u8], CutRefused); 8] = [
    (b"cise 1 relation $", CutRefused::Letter { at: 16 }),
    (b"_up", CutRefused::Letter { at: 0 }),
    (b"a ! = b", CutRefused::Letter { at: 2 }),
    (b"a # $\n\xc3", CutRefused::Letter { at: 6 }),
    (b"cise 01 # a $\n<=!=_up x_1", CutRefused::Letter { at: 18 }),
    (b"cise 01 # a $\n<=! =", CutRefused::Letter { at: 16 }),
    (
        b"cise 1 sort aaaaaaaaaaaaaaaaaaaaaaaaaaaaaaaaa",
        CutRefused::TooLongName { at: 12 },
    ),
    (
        b"cise 111111111111111111111111111111111111111",
        CutRefused::TooLongNumber { at: 5 },
    ),
];

#[test]
fn what_is_no_word_is_refused_at_its_place(rt: HostRuntime) {
    for (bytes, why) in &REFUSALS {
        assert!(rt; refusal(rt.alloc(), bytes) == Some(*why));
    }
}
