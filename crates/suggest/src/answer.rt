// What is answered for each pair of operations.

use items::Items;
use obligation_list::{Obligation, Witness};
use proof_report::Cause;

/// Two operations by their places, of which the first isn't the later one. They may be one.
#[derive(Clone, Copy)]
pub struct Pair {
    pub first: u8,
    pub second: u8,
}

/// A parameter of each operation of a pair, by their places.
#[derive(Clone, Copy)]
pub struct Key {
    pub p: u8,
    pub q: u8,
}

/// What the obligations of a pair come to in a specification.
#[derive(Drop)]
pub enum Found {
    /// All of them are proved.
    Proved,
    /// This is the first one that is refuted, by the witness.
    Refuted(Obligation, Witness),
    /// None is refuted, and this is the first one that is undecided.
    Undecided(Obligation, Cause),
}

/// What a pair comes to where calls of the two operations conflict at equal arguments for these parameters: where it is proved, such a
/// conflict is enough.
#[derive(Drop)]
pub struct KeyAnswer {
    pub key: Key,
    pub found: Found,
}

/// What a pair comes to where nothing conflicts: it is free where it is proved, needed where an obligation is refuted, else unknown. A
/// needed pair has an answer for each two parameters of one sort.
#[derive(Drop)]
pub struct PairAnswer {
    pub pair: Pair,
    pub found: Found,
    pub keys: Items<KeyAnswer>,
}

/// How many pairs are needed, free and unknown.
#[derive(Clone, Copy, PartialEq, Eq, Debug)]
pub struct SuggestTally {
    pub needed: u32,
    pub free: u32,
    pub unknown: u32,
}
