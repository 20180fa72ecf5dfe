// Atoms, integer names and readings, as a program numbers them.
ghost use Rattle.std.specs.Prelude.{◌≡◌, IfOk, IsTrue, length, take};
ghost use Rattle.ground_atoms.specs.Symbols.{atom_of, integer_of, reading_of};

use crate::keyed_row::KeyedRow;
use crate::tuple::Tuple;
use spec_core::Thing;
use std::alloc::{AllocError, Global};

/// What a literal says: that two constants are equal, the lesser first; that a relation holds of a tuple at a stage; a row over
/// integer names.
#[derive(PartialEq, Eq, Hash, Drop)]
pub enum Atom {
    Same(u32, u32),
    Has {
        stage: u8,
        relation: u8,
        tuple: Tuple,
    },
    Row(KeyedRow),
}

/// What names a whole number: a counter's reading at a stage, or the value that the first `part` updates of the stage's call
/// leave of it where `part` isn't 0; a parameter of a call.
#[derive(PartialEq, Eq, Hash, Drop)]
pub enum IntName {
    Count {
        stage: u8,
        part: u8,
        counter: u8,
        key: Tuple,
    },
    Arg {
        call: u8,
        param: u8,
    },
}

impl IntName {
    /// A name equal to this one.
    pub fn copy(&self, alloc: Global) -> Result<IntName, AllocError>
        ensures { IfOk result (λ x. x ≡ self.now) }
    {
        match self {
            IntName::Count {
                stage,
                part,
                counter,
                key,
            } => Ok(IntName::Count {
                stage: *stage,
                part: *part,
                counter: *counter,
                key: key.copy(alloc)?,
            }),
            IntName::Arg { call, param } => Ok(IntName::Arg {
                call: *call,
                param: *param,
            }),
        }
    }
}

// Whether two names name one parameter of a call.
fn is_same_argument(one: &IntName, other: &IntName) -> bool
    ensures { IsTrue result → other.now ≡ one.now }
{
    match one {
        IntName::Arg { call, param } => match other {
            IntName::Arg {
                call: another,
                param: place,
            } => *call == *another && *param == *place,
            IntName::Count { .. } => false,
        },
        IntName::Count { .. } => false,
    }
}

/// Whether some names, all of which name parameters of calls, are the first of others.
pub(crate) fn same_arguments(few: &[IntName], names: &[IntName]) -> bool
    ensures { IsTrue result → take (length few.now) names.now ≡ few.now }
{
    for place in 0..few.len() {
        if place >= names.len() || !is_same_argument(&few[place], &names[place]) {
            return false;
        }
    }
    true
}

/// A reading of a relation or a counter at a stage and a tuple of constants.
#[derive(Drop)]
pub struct NamedReading {
    pub stage: u8,
    pub thing: Thing,
    pub tuple: Tuple,
}

impl NamedReading {
    /// A reading equal to this one.
    pub fn copy(&self, alloc: Global) -> Result<NamedReading, AllocError>
        ensures { IfOk result (λ r. r ≡ self.now) }
    {
        let tuple = self.tuple.copy(alloc)?;
        Ok(NamedReading {
            stage: self.stage,
            thing: self.thing,
            tuple,
        })
    }
}
