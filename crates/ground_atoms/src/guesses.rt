// Guesses of the numbers of atoms. Nothing is promised of them: who takes one tests it.
//
// A guess stands in a slot, which atoms share: it is the number of the atom that was looked up last for that slot. An obligation names
// a few hundred atoms, and asks for most of them many times, so that nearly all guesses are right.

use crate::atom::Atom;
use std::alloc::Global;

// The number of slots.
const SLOTS: usize = 512;

/// A guess for each slot.
#[derive(Drop)]
pub struct Guesses {
    numbers: Vec<u32>,
}

impl Guesses {
    /// No guesses. Memory is taken with the first one that is kept.
    pub(crate) fn new(alloc: Global) -> Guesses {
        Guesses {
            numbers: Vec::new(alloc),
        }
    }

    /// The guess of a slot.
    pub(crate) fn at(&self, slot: usize) -> u32 {
        match self.numbers.as_slice().get(slot) {
            Some(number) => *number,
            None => 0,
        }
    }

    /// Keeps a number as the guess of a slot, unless there is no memory for it.
    pub(crate) fn keep(&mut self, slot: usize, number: u32) {
        if self.numbers.is_empty() && self.numbers.resize(SLOTS, 0).is_err() {
            return;
        }
        if let Some(guess) = self.numbers.as_mut_slice().get_mut(slot) {
            *guess = number;
        }
    }
}

// The slot of three numbers: the first bits of a product, in which all bits of the numbers have a part.
fn slot_of_numbers(kind: u32, first: u32, second: u32, third: u32) -> usize {
    let low = first
        .wrapping_mul(64)
        .wrapping_add(second)
        .wrapping_mul(64)
        .wrapping_add(third);
    let mixed = low
        .wrapping_add(kind.wrapping_mul(7919))
        .wrapping_mul(0x9e37_79b1);
    (mixed >> 23) as usize
}

/// The slot of an atom. Rows have one slot.
pub(crate) fn slot_of(atom: &Atom) -> usize {
    match atom {
        Atom::Same(left, right) => slot_of_numbers(0, 0, *left, *right),
        Atom::Has {
            stage,
            relation,
            tuple,
        } => {
            let kind = 1 + (*stage as u32) * 32 + *relation as u32;
            match tuple.consts() {
                [] => slot_of_numbers(kind, 0, 0, 0),
                [a] => slot_of_numbers(kind, 0, 0, *a),
                [a, b] => slot_of_numbers(kind, 0, *a, *b),
                [a, b, c] => slot_of_numbers(kind, *a, *b, *c),
                _ => 0,
            }
        }
        Atom::Row(_) => 0,
    }
}
