// Copies of what is declared for the whole specification.

ghost use Rattle.std.specs.Prelude.{◌≡◌, IfOk};

use crate::copies::formulas::copy_line;
use items::Items;
use spec_core::{Const, Counter, Invariant, Name, Relation};
use std::alloc::{AllocError, Global};

/// A copy of a name.
pub fn copy_name(alloc: Global, name: &Name) -> Result<Name, AllocError>
    ensures { IfOk result (λ copy. copy ≡ name.now) }
{
    Name::new(alloc, name.bytes())
}

fn copy_const(alloc: Global, constant: &Const) -> Result<Const, AllocError>
    ensures { IfOk result (λ copy. copy ≡ constant.now) }
{
    let name = copy_name(alloc, &constant.name)?;
    Ok(Const {
        name,
        sort: constant.sort,
    })
}

fn copy_relation(alloc: Global, relation: &Relation) -> Result<Relation, AllocError>
    ensures { IfOk result (λ copy. copy ≡ relation.now) }
{
    let name = copy_name(alloc, &relation.name)?;
    let places = or_drop!(Items::from_slice(alloc, relation.places.as_slice()); name);
    Ok(Relation {
        name,
        places,
        initial: relation.initial,
    })
}

fn copy_counter(alloc: Global, counter: &Counter) -> Result<Counter, AllocError>
    ensures { IfOk result (λ copy. copy ≡ counter.now) }
{
    let name = copy_name(alloc, &counter.name)?;
    let keys = or_drop!(Items::from_slice(alloc, counter.keys.as_slice()); name);
    Ok(Counter {
        name,
        keys,
        initial: counter.initial,
    })
}

fn copy_invariant(alloc: Global, invariant: &Invariant) -> Result<Invariant, AllocError>
    ensures { IfOk result (λ copy. copy ≡ invariant.now) }
{
    let name = copy_name(alloc, &invariant.name)?;
    let line = or_drop!(copy_line(alloc, &invariant.line); name);
    Ok(Invariant { name, line })
}

/// A copy of some names.
pub fn copy_names(alloc: Global, names: &[Name]) -> Result<Items<Name>, AllocError>
    ensures { IfOk result (λ copies. copies ≡ names.now) }
{
    let mut copies = Items::new(alloc);
    for name in names {
        let copy = or_drop!(copy_name(alloc, name); copies);
        or_drop!(copies.push(copy); copies);
    }
    Ok(copies)
}

/// A copy of some constants.
pub fn copy_consts(alloc: Global, constants: &[Const]) -> Result<Items<Const>, AllocError>
    ensures { IfOk result (λ copies. copies ≡ constants.now) }
{
    let mut copies = Items::new(alloc);
    for constant in constants {
        let copy = or_drop!(copy_const(alloc, constant); copies);
        or_drop!(copies.push(copy); copies);
    }
    Ok(copies)
}

/// A copy of some relations.
pub fn copy_relations(alloc: Global, relations: &[Relation]) -> Result<Items<Relation>, AllocError>
    ensures { IfOk result (λ copies. copies ≡ relations.now) }
{
    let mut copies = Items::new(alloc);
    for relation in relations {
        let copy = or_drop!(copy_relation(alloc, relation); copies);
        or_drop!(copies.push(copy); copies);
    }
    Ok(copies)
}

/// A copy of some counters.
pub fn copy_counters(alloc: Global, counters: &[Counter]) -> Result<Items<Counter>, AllocError>
    ensures { IfOk result (λ copies. copies ≡ counters.now) }
{
    let mut copies = Items::new(alloc);
    for counter in counters {
        let copy = or_drop!(copy_counter(alloc, counter); copies);
        or_drop!(copies.push(copy); copies);
    }
    Ok(copies)
}

/// A copy of some invariants.
pub fn copy_invariants(
    alloc: Global,
    invariants: &[Invariant],
) -> Result<Items<Invariant>, AllocError>
    ensures { IfOk result (λ copies. copies ≡ invariants.now) }
{
    let mut copies = Items::new(alloc);
    for invariant in invariants {
        let copy = or_drop!(copy_invariant(alloc, invariant); copies);
        or_drop!(copies.push(copy); copies);
    }
    Ok(copies)
}
