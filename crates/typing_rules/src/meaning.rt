// What a name that is declared for the whole specification means.

/// What a name means, with its place among those of its kind.
#[derive(Clone, Copy, PartialEq, Eq, Debug)]
pub enum Meaning {
    Sort(u8),
    Const(u8),
    Relation(u8),
    Counter(u8),
    Token(u8),
    Invariant,
    Operation,
}
