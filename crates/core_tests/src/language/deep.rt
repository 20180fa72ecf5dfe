// Formulas nested as deep as the language allows, and one level deeper.
use crate::language::reading::{Outcome, is_spelled, nested, read};
use std::alloc::Global;

// What reading an atom comes to with so many fronts and backs round it.
fn read_nested(alloc: Global, count: usize, front: &[u8], back: &[u8]) -> Outcome {
    let Ok(text) = nested(alloc, count, front, back) else {
        return Outcome::Unread;
    };
    read(alloc, text.as_slice())
}

// Whether such a text, which is in the layout, is spelled as it stands.
fn stays(alloc: Global, count: usize, front: &[u8], back: &[u8]) -> bool {
    let Ok(text) = nested(alloc, count, front, back) else {
        return false;
    };
    is_spelled(alloc, text.as_slice(), text.as_slice())
}

// A front and a back, how many of them are read, and the word at which one more is refused.
static CASES: [(&[u8], &[u8], usize, usize); 5] = [
    (b"not ", b"", 199, 203),
    (b"( ", b" and b )", 199, 205),
    (b"( b or ", b" )", 199, 603),
    (b"not ( b implies ", b" )", 99, 403),
    (b"( not ", b" and b )", 99, 203),
];

// Whether such a text is read and stays, and what one front and back more come to.
fn deepest(alloc: Global, count: usize, front: &[u8], back: &[u8]) -> (bool, Outcome) {
    let read = read_nested(alloc, count, front, back) == Outcome::Read;
    let more = if count < 200 {
        read_nested(alloc, count + 1, front, back)
    } else {
        Outcome::Unread
    };
    (read && stays(alloc, count, front, back), more)
}

#[test]
fn formulas_nest_200_deep(rt: HostRuntime) {
    for (front, back, count, word) in &CASES {
        let (stays, more) = deepest(rt.alloc(), *count, front, back);
        assert!(rt; stays && more == Outcome::Stop(*word));
    }
}
