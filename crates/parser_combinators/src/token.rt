// Tokens: words with their places, as the grammar sees them.

use items::Items;

/// A reserved name or a sign.
#[derive(Clone, Copy, PartialEq, Eq, Debug)]
pub enum Key {
    Open,
    Close,
    Comma,
    Colon,
    Dot,
    Star,
    Plus,
    Minus,
    Equal,
    Unequal,
    Less,
    AtMost,
    Greater,
    AtLeast,
    Cise,
    Sort,
    Const,
    Relation,
    Counter,
    Initially,
    Token,
    Conflict,
    Invariant,
    Operation,
    End,
    Requires,
    Insert,
    Remove,
    Add,
    Set,
    Takes,
    When,
    Forall,
    Exists,
    True,
    False,
    Not,
    And,
    Or,
    Implies,
    Int,
}

/// A word by itself: what it says, without where it stands.
#[derive(Drop)]
pub enum Symbol {
    /// A name that isn't reserved, by its bytes.
    Name(Items<u8>),
    /// A number by its value.
    Number(u128),
    /// A reserved name or a sign.
    Key(Key),
}

/// A word and its place among the words, counted from 0.
#[derive(Drop)]
pub struct Token {
    pub symbol: Symbol,
    pub word: u32,
}

/// What the next word is, as far as a grammar chooses by it.
#[derive(Clone, Copy, PartialEq, Eq, Debug)]
pub enum Kind {
    /// There is no further word.
    Nothing,
    /// A name that is free in each version.
    Name,
    /// The name `shared`, which the second version keeps for itself.
    Shared,
    /// The name `exclusive`, which the second version keeps for itself.
    Exclusive,
    /// The name `observes`, which the second version keeps for itself.
    Observes,
    /// A text that is no name: it is empty or has more than 32 bytes.
    Unnamed,
    /// The number 1.
    One,
    /// The number 2.
    Two,
    /// Any other number.
    Number,
    /// A reserved name or a sign.
    Key(Key),
}

/// The version of the language that a specification is written in.
#[derive(Clone, Copy, PartialEq, Eq, Debug)]
pub enum Version {
    First,
    Second,
}
