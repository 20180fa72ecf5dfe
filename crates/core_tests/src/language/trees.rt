// What is read, and the word at which reading stops where a text is refused.
use crate::language::reading::{Outcome, read};

static ITEMS: [(&[u8], Outcome); 16] = [
    (b"", Outcome::Stop(0)),
    (b"cise", Outcome::Stop(1)),
    (b"cise 3", Outcome::Stop(1)),
    (b"cise 01", Outcome::Stop(1)),
    (b"cise 1", Outcome::Read),
    (b"cise 1 a", Outcome::Stop(2)),
    (b"cise 1 sort 5", Outcome::Stop(3)),
    (b"cise 1 sort sort", Outcome::Stop(3)),
    (b"cise 1 sort shared", Outcome::Read),
    (b"cise 2 sort shared", Outcome::Stop(3)),
    (b"cise 1 const a : 5", Outcome::Stop(5)),
    (b"cise 1 relation r ( )", Outcome::Stop(5)),
    (b"cise 1 relation r ( A B )", Outcome::Stop(6)),
    (
        b"cise 1 initially c - 3 initially d - true",
        Outcome::Stop(9),
    ),
    (b"cise 1 conflict t ( x ) u", Outcome::Read),
    (b"cise 1 conflict t ( x )", Outcome::Stop(7)),
];

#[test]
fn items_are_read_or_refused_at_their_word(rt: HostRuntime) {
    for (text, outcome) in &ITEMS {
        assert!(rt; read(rt.alloc(), text) == *outcome);
    }
}

static FORMULAS: [(&[u8], Outcome); 14] = [
    (b"cise 1 invariant i a and b", Outcome::Stop(5)),
    (b"cise 1 invariant i ( a )", Outcome::Stop(6)),
    (b"cise 1 invariant i ( a and b and c )", Outcome::Stop(8)),
    (b"cise 1 invariant i ( a and b ) or c", Outcome::Stop(9)),
    (b"cise 1 invariant i ( not a < b )", Outcome::Stop(7)),
    (b"cise 1 invariant i ( a + 1 and b )", Outcome::Stop(8)),
    (b"cise 1 invariant i ( a < b < c )", Outcome::Stop(8)),
    (
        b"cise 1 invariant i ( a implies ( b or c ) )",
        Outcome::Read,
    ),
    (b"cise 1 invariant i ( ( a ) = 1 )", Outcome::Stop(7)),
    (b"cise 1 invariant i ( - 2 * c + 1 >= d )", Outcome::Read),
    (b"cise 1 invariant i ( - - 2 >= d )", Outcome::Stop(6)),
    (
        b"cise 1 invariant i exists x : A , y : B . r ( x , y )",
        Outcome::Read,
    ),
    (b"cise 1 invariant i forall . r", Outcome::Stop(5)),
    (b"cise 1 invariant i not forall x : A . r", Outcome::Stop(5)),
];

#[test]
fn formulas_are_read_or_refused_at_their_word(rt: HostRuntime) {
    for (text, outcome) in &FORMULAS {
        assert!(rt; read(rt.alloc(), text) == *outcome);
    }
}

static OPERATIONS: [(&[u8], Outcome); 12] = [
    (b"cise 1 operation f (", Outcome::Stop(5)),
    (b"cise 1 operation f end", Outcome::Read),
    (b"cise 1 operation f", Outcome::Stop(4)),
    (b"cise 1 operation f requires 1 = 1 end", Outcome::Stop(5)),
    (
        b"cise 1 operation f ( n : int ) add c ( * , a ) - 2 * c when r end",
        Outcome::Read,
    ),
    (b"cise 1 operation f insert r ( * ) 1 end", Outcome::Stop(9)),
    (b"cise 1 operation f set c end", Outcome::Stop(6)),
    (b"cise 2 operation f observes", Outcome::Stop(5)),
    (b"cise 1 operation f observes", Outcome::Stop(4)),
    (
        b"cise 2 operation f observes r takes t ( a ) shared end",
        Outcome::Read,
    ),
    (
        b"cise 1 operation f takes t ( a ) shared end",
        Outcome::Stop(9),
    ),
    (b"cise 1 operation f takes t", Outcome::Stop(6)),
];

#[test]
fn operations_are_read_or_refused_at_their_word(rt: HostRuntime) {
    for (text, outcome) in &OPERATIONS {
        assert!(rt; read(rt.alloc(), text) == *outcome);
    }
}
