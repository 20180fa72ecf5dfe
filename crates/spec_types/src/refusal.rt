// Why a tree isn't typed.

ghost use Rattle.std.specs.Prelude.{◌≡◌, Err, IfOk};
ghost use Rattle.spec_core.specs.Specification.{Specification};
ghost use Rattle.spec_types.specs.{Refusals.{IsTypeRefusal}, faults.Views.{fault_of}};
ghost use Rattle.spec_types.specs.declared.refusal.Stop.TheVariants as stop;

use crate::faults::Fault;
use spec_core::Name;
use std::alloc::{AllocError, Global};
use typing_rules::Which;

/// What is wrong with a tree. Of a tree that stands in a text, as each tree that is read, it is the fault with the least word, and at
/// one word the first in the order of the variants; of another tree it is the first that is met.
#[derive(Drop)]
pub enum TypeRefused {
    /// A name is used that isn't in scope.
    Unknown {
        name: Name,
        word: u32,
    },
    /// A name is declared while it is in scope, or a second initial value is stated for it.
    Twice {
        name: Name,
        word: u32,
    },
    /// A name is in scope and isn't what its place needs; or an invariant begins with `exists`, which then is the name.
    Kind {
        name: Name,
        word: u32,
    },
    /// A relation, counter or token has a wrong number of arguments.
    Count {
        name: Name,
        word: u32,
    },
    /// A limit is passed; `number` is the number that is reached.
    Limit {
        which: Which,
        number: u128,
        word: u32,
    },
    Memory,
}

/// Why the reading of a tree stopped.
#[derive(Clone, Copy)]
pub enum Stop<'t> {
    Fault(Fault<'t>),
    Memory,
}

impl<'t> From<AllocError> for Stop<'t> {
    ghost from_gives = { λ _ e. e ≡ stop.Memory };

    fn from(_e: AllocError) -> Stop<'t> {
        Stop::Memory
    }
}

/// The refusal that tells a fault, with a copy of the name.
pub fn refused(alloc: Global, fault: Fault<'_>) -> TypeRefused
    ensures { IsTypeRefusal {A = Specification} (Err (fault_of fault.entry)) result }
{
    match refusal_of(alloc, fault) {
        Ok(refusal) => refusal,
        Err(_) => TypeRefused::Memory,
    }
}

fn refusal_of(alloc: Global, fault: Fault<'_>) -> Result<TypeRefused, AllocError>
    ensures { IfOk result (IsTypeRefusal {A = Specification} (Err (fault_of fault.entry))) }
{
    Ok(match fault {
        Fault::Unknown(mark) => TypeRefused::Unknown {
            name: Name::new(alloc, mark.text.bytes())?,
            word: mark.word,
        },
        Fault::Twice(mark) => TypeRefused::Twice {
            name: Name::new(alloc, mark.text.bytes())?,
            word: mark.word,
        },
        Fault::Kind(mark) => TypeRefused::Kind {
            name: Name::new(alloc, mark.text.bytes())?,
            word: mark.word,
        },
        Fault::Exists(word) => TypeRefused::Kind {
            name: Name::new(alloc, b"exists")?,
            word,
        },
        Fault::Count(mark) => TypeRefused::Count {
            name: Name::new(alloc, mark.text.bytes())?,
            word: mark.word,
        },
        Fault::Limit(which, number, word) => TypeRefused::Limit {
            which,
            number,
            word,
        },
    })
}
