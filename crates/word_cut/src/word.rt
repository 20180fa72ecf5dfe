// What a word is.

/// What kind of word it is. Reserved words are spelled like names, and the language keeps them for itself.
#[derive(Clone, Copy, PartialEq, Eq, Debug)]
pub enum WordKind {
    Name,
    Reserved,
    Number,
    Sign,
}

/// A word where it stands: its first byte, counted from 0, its length in bytes, and its line, counted from 1.
#[derive(Clone, Copy, PartialEq, Eq, Debug)]
pub struct Word {
    pub kind: WordKind,
    pub at: u32,
    pub len: u32,
    pub line: u32,
}
