// The numbering: which atoms and integer names have numbers, and which readings they name.
ghost use Rattle.std.specs.Prelude.{◌≡◌, ◌++◌, true, IfOk, IfSome, IsTrue, OnOk, length, take};
ghost use Rattle.std.specs.Prelude.{slice_get, option_copied, map};
ghost use Rattle.std.specs.Option.{option_map};
ghost use Rattle.ground_numbers.specs.Numbers as numbers;
ghost use Rattle.ground_atoms.specs.Symbols.{atom_of, integer_of, reading_of};
ghost use Rattle.ground_atoms.specs.Known.{Known, nothing, know_atom, know_integer};
ghost use Rattle.ground_atoms.specs.Known.{reading_of_atom};
ghost use Rattle.ground_atoms.specs.{Sizes.{size_of, cut_back}, Staying.{NumbersStay}};
ghost use Rattle.ground_problem.specs.Definitions.{reading_of_integer};

use crate::atom::{Atom, IntName, NamedReading, same_arguments};
use crate::guesses::{Guesses, slot_of};
use indexmap::IndexSet;
use items::Items;
use spec_core::Thing;
use std::alloc::{AllocError, Global};
use std::marker::Model;

/// The atoms and the integer names so far, in the order of their numbers, and the readings that they name, in the order in which
/// they were first named. Equal ones have one number, and a number stays. A number is guessed first, and the guess is tested; that is
/// cheaper than to look the atom up, and most atoms are asked for again soon.
#[derive(Drop)]
pub struct Atoms {
    atoms: IndexSet<Atom>,
    ints: IndexSet<IntName>,
    named: Items<NamedReading>,
    guesses: Guesses,
    alloc: Global,
}

impl Model for Atoms {
    ghost use Rattle.std.specs.Prelude.{map};
    ghost use Rattle.ground_atoms.specs.Known.{Known};

    ghost Value = { Known };

    ghost use Rattle.ground_atoms.specs.Symbols.{atom_of, integer_of, reading_of};

    ghost view = { λ a. record { table = record { atoms = map atom_of a.atoms.keys; ints = map integer_of a.ints.keys }; named = map reading_of a.named } };
}

/// How many atoms and integer names have numbers, and how many readings they name.
#[derive(Clone, Copy)]
pub struct KnownSize {
    pub atoms: usize,
    pub ints: usize,
    pub named: usize,
}

impl Atoms {
    /// A numbering of nothing.
    pub fn new(alloc: Global) -> Atoms
        ensures { result ≡ nothing }
    {
        Atoms {
            atoms: IndexSet::new(alloc),
            ints: IndexSet::new(alloc),
            named: Items::new(alloc),
            guesses: Guesses::new(alloc),
            alloc,
        }
    }

    // The number that is guessed for an atom, where an equal one has it.
    fn guessed(&self, slot: usize, atom: &Atom) -> Option<u32>
        ensures known { IfSome result (λ n. self.now ≡ know_atom self.now (atom_of atom.now)) }
        ensures number { IfSome result (λ n. n
            ≡ numbers.number_of self.now.table (atom_of atom.now)) }
    {
        let number = self.guesses.at(slot);
        if number as usize >= self.atoms.len() {
            return None;
        }
        match self.atoms.get_index(number as usize) {
            Some(other) if *atom == *other => Some(number),
            _ => None,
        }
    }

    /// The number of an atom: the place of an equal one, else the next number. After a refusal others keep their numbers.
    pub fn number_of(&mut self, atom: Atom) -> Result<u32, AllocError>
        ensures known { OnOk result (self.new ≡ know_atom self.old (atom_of atom)) }
        ensures number { IfOk result (λ n. n ≡ numbers.number_of self.old.table (atom_of atom)) }
        ensures stay { NumbersStay self.old self.new }
    {
        let slot = slot_of(&atom);
        if let Some(number) = self.guessed(slot, &atom) {
            return Ok(number);
        }
        let number = self.looked_up(atom)?;
        self.guesses.keep(slot, number);
        Ok(number)
    }

    #[tactic(auto, using(crate::proofs::Same::atoms_known, crate::proofs::Same::atom_place, crate::proofs::Same::atom_among))]
    // The same, without a guess.
    fn looked_up(&mut self, atom: Atom) -> Result<u32, AllocError>
        ensures known { OnOk result (self.new ≡ know_atom self.old (atom_of atom)) }
        ensures number { IfOk result (λ n. n ≡ numbers.number_of self.old.table (atom_of atom)) }
        ensures stay { NumbersStay self.old self.new }
    {
        if let Some(index) = self.atoms.get_index_of(&atom) {
            return as_number(index);
        }
        note_atom(self.alloc, &atom, &mut self.named)?;
        let Ok((index, _)) = self.atoms.insert_full(atom) else {
            return Err(AllocError);
        };
        as_number(index)
    }

    #[tactic(auto, using(crate::proofs::Same::atom_among))]
    /// Whether an atom has a number.
    pub fn is_known(&self, atom: &Atom) -> bool
        ensures { result ≡ numbers.has_number self.now.table (atom_of atom.now) }
    {
        self.atoms.get_index_of(atom).is_some()
    }

    #[tactic(auto, using(crate::proofs::Same::atom_place, crate::proofs::Same::atom_among))]
    /// The number of an atom that has one. An atom without a number gets none by this.
    pub fn known_number(&self, atom: &Atom) -> Option<u32>
        ensures known { IfSome result
            (λ n. numbers.has_number self.now.table (atom_of atom.now) ≡ true) }
        ensures number { IfSome result (λ n. n
            ≡ numbers.number_of self.now.table (atom_of atom.now)) }
    {
        match self.atoms.get_index_of(atom) {
            Some(index) => small_number(index),
            None => None,
        }
    }

    #[tactic(auto, using(crate::proofs::Same::integers_known, crate::proofs::Same::integer_place, crate::proofs::Same::integer_among))]
    /// The number of an integer name: the place of an equal one, else the next number. After a refusal others keep their numbers.
    pub fn int_of(&mut self, name: IntName) -> Result<u32, AllocError>
        ensures known { OnOk result (self.new ≡ know_integer self.old (integer_of name)) }
        ensures number { IfOk result (λ n. n ≡ numbers.integer_of self.old.table
            (integer_of name)) }
        ensures stay { NumbersStay self.old self.new }
    {
        if let Some(index) = self.ints.get_index_of(&name) {
            return as_number(index);
        }
        note_integer(self.alloc, &name, &mut self.named)?;
        let Ok((index, _)) = self.ints.insert_full(name) else {
            return Err(AllocError);
        };
        as_number(index)
    }

    /// The atom of a number; none where the number isn't below the number of atoms.
    pub fn atom(&self, n: u32) -> Option<&Atom>
        ensures { option_map atom_of (option_copied result) ≡ slice_get self.now.table.atoms n }
    {
        self.atoms.get_index(n as usize)
    }

    /// The integer name of a number; none where the number isn't below the number of names.
    pub fn int(&self, n: u32) -> Option<&IntName>
        ensures { option_map integer_of (option_copied result) ≡ slice_get self.now.table.ints n }
    {
        self.ints.get_index(n as usize)
    }

    /// Whether an atom has this number, by a look at the one that has it. A table is not searched for this.
    pub fn is_number_of(&self, number: u32, atom: &Atom) -> bool
        ensures known { IsTrue result
            → numbers.has_number self.now.table (atom_of atom.now) ≡ true }
        ensures number { IsTrue result
            → number ≡ numbers.number_of self.now.table (atom_of atom.now) }
    {
        if number as usize >= self.atoms.len() {
            return false;
        }
        match self.atoms.get_index(number as usize) {
            Some(other) if *atom == *other => true,
            _ => false,
        }
    }

    /// How much is known.
    pub fn size(&self) -> KnownSize
        ensures { result ≡ size_of self.now }
    {
        KnownSize {
            atoms: self.atoms.len(),
            ints: self.ints.len(),
            named: self.named.len(),
        }
    }

    /// The numbering cut back to an earlier size: the first of each stay, and keep their numbers.
    pub fn cut_back(self, size: KnownSize) -> Atoms
        ensures { result ≡ cut_back size self }
    {
        let Atoms {
            mut atoms,
            mut ints,
            named,
            guesses,
            alloc,
        } = self;
        atoms.truncate(size.atoms);
        ints.truncate(size.ints);
        let mut readings = named.into_vec();
        readings.truncate(size.named);
        Atoms {
            atoms,
            ints,
            named: Items::from_vec(readings),
            guesses,
            alloc,
        }
    }

    /// Whether the first integer names are those of the other numbering, all of which name parameters of calls.
    pub fn begins_with_arguments(&self, other: &Atoms) -> bool
        ensures { IsTrue result → take (length other.now.table.ints) self.now.table.ints
            ≡ other.now.table.ints }
    {
        same_arguments(other.ints.as_slice(), self.ints.as_slice())
    }

    /// The readings that atoms and integer names name, in the order in which they were first named.
    pub fn named(&self) -> &[NamedReading]
        ensures { map reading_of result.now ≡ self.now.named }
    {
        self.named.as_slice()
    }
}

// A place as a number, where it is one.
fn small_number(place: usize) -> Option<u32>
    ensures { IfSome result (λ n. n ≡ place) }
{
    match u32::try_from(place) {
        Ok(number) => Some(number),
        Err(_) => None,
    }
}

// A place as a number.
fn as_number(place: usize) -> Result<u32, AllocError>
    ensures { IfOk result (λ n. n ≡ place) }
{
    match u32::try_from(place) {
        Ok(number) => Ok(number),
        Err(_) => Err(AllocError),
    }
}

// Appends the reading that an atom names, if any.
fn note_atom(alloc: Global, atom: &Atom, named: &mut Items<NamedReading>) -> Result<(), AllocError>
    ensures { OnOk result
        (map reading_of named.new ≡ map reading_of named.old ++ reading_of_atom (atom_of atom.now)) }
{
    match atom {
        Atom::Has {
            stage,
            relation,
            tuple,
        } => named.push(NamedReading {
            stage: *stage,
            thing: Thing::Relation(*relation),
            tuple: tuple.copy(alloc)?,
        }),
        _ => Ok(()),
    }
}

// Appends the reading that an integer name names, if any.
fn note_integer(
    alloc: Global,
    name: &IntName,
    named: &mut Items<NamedReading>,
) -> Result<(), AllocError>
    ensures { OnOk result
        (map reading_of named.new ≡ map reading_of named.old ++ reading_of_integer (integer_of name.now)) }
{
    match name {
        IntName::Count {
            stage,
            part: 0,
            counter,
            key,
        } => named.push(NamedReading {
            stage: *stage,
            thing: Thing::Counter(*counter),
            tuple: key.copy(alloc)?,
        }),
        _ => Ok(()),
    }
}
