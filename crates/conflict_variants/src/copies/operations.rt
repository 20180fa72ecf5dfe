// Copies of updates, and of what an operation has beside its takes lines.

ghost use Rattle.std.specs.Prelude.{◌≡◌, [], IfOk};
ghost use Rattle.spec_core.specs.declared.operation.Operation.{Operation as OperationForm};
ghost use Rattle.conflict_variants.specs.Takes.{with_takes};

use crate::copies::declarations::copy_name;
use crate::copies::formulas::{copy_formula, copy_lines, copy_term};
use items::Items;
use spec_core::{Change, Operation, Param, Take, Update};
use std::alloc::{AllocError, Global};

fn copy_change(alloc: Global, change: &Change) -> Result<Change, AllocError>
    ensures { IfOk result (λ copy. copy ≡ change.now) }
{
    match change {
        Change::Insert => Ok(Change::Insert),
        Change::Remove => Ok(Change::Remove),
        Change::Add(term) => Ok(Change::Add(copy_term(alloc, term)?)),
        Change::Set(term) => Ok(Change::Set(copy_term(alloc, term)?)),
    }
}

fn copy_update(alloc: Global, update: &Update) -> Result<Update, AllocError>
    ensures { IfOk result (λ copy. copy ≡ update.now) }
{
    let at = Items::from_slice(alloc, update.at.as_slice())?;
    let change = or_drop!(copy_change(alloc, &update.change); at);
    let guard = or_drop!(copy_formula(alloc, &update.guard); at, change);
    Ok(Update {
        thing: update.thing,
        at,
        change,
        guard,
    })
}

fn copy_updates(alloc: Global, updates: &[Update]) -> Result<Items<Update>, AllocError>
    ensures { IfOk result (λ copies. copies ≡ updates.now) }
{
    let mut copies = Items::new(alloc);
    for update in updates {
        let copy = or_drop!(copy_update(alloc, update); copies);
        or_drop!(copies.push(copy); copies);
    }
    Ok(copies)
}

fn copy_param(alloc: Global, param: &Param) -> Result<Param, AllocError>
    ensures { IfOk result (λ copy. copy ≡ param.now) }
{
    let name = copy_name(alloc, &param.name)?;
    Ok(Param {
        name,
        kind: param.kind,
    })
}

fn copy_params(alloc: Global, params: &[Param]) -> Result<Items<Param>, AllocError>
    ensures { IfOk result (λ copies. copies ≡ params.now) }
{
    let mut copies = Items::new(alloc);
    for param in params {
        let copy = or_drop!(copy_param(alloc, param); copies);
        or_drop!(copies.push(copy); copies);
    }
    Ok(copies)
}

/// A copy of an operation, but with these takes lines.
pub fn copy_with_takes(
    alloc: Global,
    operation: &Operation,
    takes: Items<Take>,
) -> Result<Operation, AllocError>
    ensures { IfOk result (λ copy. copy ≡ with_takes operation.now takes) }
{
    let name = or_drop!(copy_name(alloc, &operation.name); takes);
    let params = or_drop!(copy_params(alloc, operation.params.as_slice()); takes, name);
    let requires_ =
        or_drop!(copy_lines(alloc, operation.requires_.as_slice()); takes, name, params);
    let updates =
        or_drop!(copy_updates(alloc, operation.updates.as_slice()); takes, name, params, requires_);
    let observes = or_drop!(
        copy_lines(alloc, operation.observes.as_slice());
        takes, name, params, requires_, updates
    );
    Ok(Operation {
        name,
        params,
        requires_,
        updates,
        takes,
        observes,
    })
}
