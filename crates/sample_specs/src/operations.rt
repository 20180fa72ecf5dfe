// The operations of a generated specification: each puts its item into a relation, or takes it out.

ghost use Rattle.std.specs.{Prelude.{◌≡◌, ◌≤◌, [], ◌∷◌, IfOk}, List.{flat_map}};
ghost use Rattle.spec_core.specs.{Form.{form_of, not_form}, World.{below}};
ghost use Rattle.sample_specs.specs.Sample.{an_item as an_item_of, has_item as has_item_of};
ghost use Rattle.sample_specs.specs.Sample.{requires_line as requires_line_of, update_of};
ghost use Rattle.sample_specs.specs.Sample.{takes_item as takes_item_of, on_item as on_item_of};
ghost use Rattle.sample_specs.specs.Sample.{adding as adding_of, deleting as deleting_of};

use crate::parts::{numbered, one, relation_holds};
use items::Items;
use spec_core::{
    Change, Elem, Formula, Kind, Name, Operation, Param, Prefix, Prefixed, Spot, Take, Thing,
    Update,
};
use std::alloc::{AllocError, Global};

/// `( x : Item )`.
fn an_item(alloc: Global) -> Result<Items<Param>, AllocError>
    ensures { IfOk result (λ params. params ≡ an_item_of) }
{
    let name = Name::new(alloc, b"x")?;
    one(
        alloc,
        Param {
            name,
            kind: Kind::Sort(0),
        },
    )
}

/// `r(i) ( x )`.
fn has_item(alloc: Global, i: u8) -> Result<Formula, AllocError>
    ensures { IfOk result (λ formula. form_of formula ≡ has_item_of i) }
{
    relation_holds(alloc, i, Elem::Param(0))
}

/// `not r(i) ( x )`.
fn lacks_item(alloc: Global, i: u8) -> Result<Formula, AllocError>
    ensures { IfOk result (λ formula. form_of formula ≡ not_form (has_item_of i)) }
{
    let formula = has_item(alloc, i)?;
    Ok(Formula::Not(Box::new(alloc, formula)?))
}

/// One line `requires`, without variables.
fn requires_line(alloc: Global, body: Formula) -> Result<Items<Prefixed>, AllocError>
    ensures { IfOk result (λ lines. lines ≡ requires_line_of (form_of body) ∷ []) }
{
    one(
        alloc,
        Prefixed {
            prefix: Prefix::Plain,
            vars: Items::new(alloc),
            body,
        },
    )
}

/// An update of `r(i) ( x )`.
fn update(alloc: Global, change: Change, i: u8) -> Result<Update, AllocError>
    ensures { IfOk result (λ update. update ≡ update_of change i) }
{
    let at = one(alloc, Spot::One(Elem::Param(0)))?;
    Ok(Update {
        thing: Thing::Relation(i),
        at,
        change,
        guard: Formula::True,
    })
}

/// `takes t ( x )`.
fn takes_item(alloc: Global) -> Result<Items<Take>, AllocError>
    ensures { IfOk result (λ takes. takes ≡ takes_item_of ∷ []) }
{
    let args = one(alloc, Elem::Param(0))?;
    one(
        alloc,
        Take {
            token: 0,
            args,
            shared: false,
        },
    )
}

// ---- the two operations of a relation

/// The precondition of `add(i)`: the item is in the relation before.
fn adding_requires(alloc: Global, i: u8) -> Result<Items<Prefixed>, AllocError>
    ensures { IfOk result (λ lines. lines ≡ (adding_of i).requires_) }
{
    if 0 < i {
        requires_line(alloc, has_item(alloc, i - 1)?)
    } else {
        Ok(Items::new(alloc))
    }
}

/// The precondition of `del(i)`: the item isn't in the next relation.
fn deleting_requires(alloc: Global, n: u8, i: u8) -> Result<Items<Prefixed>, AllocError>
    requires small { i ≤ 12 }
    ensures { IfOk result (λ lines. lines ≡ (deleting_of n i).requires_) }
{
    if i + 1 < n {
        requires_line(alloc, lacks_item(alloc, i + 1)?)
    } else {
        Ok(Items::new(alloc))
    }
}

/// An operation on one item, which takes the item's token.
fn on_item(
    alloc: Global,
    name: Name,
    requires_: Items<Prefixed>,
    update: Update,
) -> Result<Operation, AllocError>
    ensures { IfOk result (λ operation. operation ≡ on_item_of name requires_ update) }
{
    let updates = or_drop!(one(alloc, update); name, requires_);
    let params = or_drop!(an_item(alloc); name, requires_, updates);
    let takes = or_drop!(takes_item(alloc); name, requires_, updates, params);
    Ok(Operation {
        name,
        params,
        requires_,
        updates,
        takes,
        observes: Items::new(alloc),
    })
}

/// `operation add(i)`.
fn adding(alloc: Global, i: u8) -> Result<Operation, AllocError>
    ensures { IfOk result (λ operation. operation ≡ adding_of i) }
{
    let name = numbered(alloc, b"add", i)?;
    let requires_ = or_drop!(adding_requires(alloc, i); name);
    let update = or_drop!(update(alloc, Change::Insert, i); name, requires_);
    on_item(alloc, name, requires_, update)
}

/// `operation del(i)`.
fn deleting(alloc: Global, n: u8, i: u8) -> Result<Operation, AllocError>
    requires small { i ≤ 12 }
    ensures { IfOk result (λ operation. operation ≡ deleting_of n i) }
{
    let name = numbered(alloc, b"del", i)?;
    let requires_ = or_drop!(deleting_requires(alloc, n, i); name);
    let update = or_drop!(update(alloc, Change::Remove, i); name, requires_);
    on_item(alloc, name, requires_, update)
}

/// `add0`, `del0`, `add1`, `del1` and so on.
pub fn operations(alloc: Global, n: u8) -> Result<Items<Operation>, AllocError>
    requires few { n ≤ 12 }
    ensures { IfOk result (λ operations. operations
        ≡ flat_map (λ i. adding_of i ∷ deleting_of n i ∷ []) (below n)) }
{
    let mut list = Items::new(alloc);
    for i in 0..n {
        list.push(adding(alloc, i)?)?;
        list.push(deleting(alloc, n, i)?)?;
    }
    Ok(list)
}
