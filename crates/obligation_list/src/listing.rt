// The list of a specification's obligations.

ghost use Rattle.std.specs.Prelude.{◌≡◌, ◌<◌, ◌≤◌, ◌++◌, ◌∷◌, [], ℕ, true, cond, map, length, IfOk};
ghost use Rattle.std.specs.{Prelude.{OnOk}, List.{filter, flat_map, Contains}};
ghost use Rattle.spec_core.specs.{World.{below}, Specification.{Specification, op_of}};
ghost use Rattle.obligation_list.specs.Obligations.{writes, either_writes, things};
ghost use Rattle.obligation_list.specs.Obligations.{init_obligations, safety_of, commute_of};
ghost use Rattle.obligation_list.specs.Obligations.{commute_from, stable_of, stable_from};
ghost use Rattle.obligation_list.specs.Obligations.{obligations_of, IsObligation};
ghost use Rattle.obligation_list.specs.Breaking.{Holds, Safe};
ghost use Rattle.obligation_list.specs.declared.obligation.Obligation.{Obligation};

use crate::obligation::Obligation;
use effectors::is_thing;
use items::Items;
use spec_core::{Spec, Thing, Update};
use std::alloc::{AllocError, Global};

/// How many members the lists of a specification have.
#[derive(Clone, Copy)]
pub struct Sizes {
    pub relations: u8,
    pub counters: u8,
    pub invariants: u8,
    pub operations: u8,
}

/// How many relations, counters, invariants and operations a specification has.
pub fn sizes_of(spec: &Spec) -> Sizes
    ensures relations { result.relations ≡ length spec.now.relations }
    ensures counters { result.counters ≡ length spec.now.counters }
    ensures invariants { result.invariants ≡ length spec.now.invariants }
    ensures operations { result.operations ≡ length spec.now.operations }
{
    spec.well_formed();
    Sizes {
        relations: spec.relations.len() as u8,
        counters: spec.counters.len() as u8,
        invariants: spec.invariants.len() as u8,
        operations: spec.operations.len() as u8,
    }
}

fn writes(updates: &[Update], thing: Thing) -> bool
    ensures { result ≡ writes updates.now thing }
{
    updates.iter().any(|update| is_thing(update.thing, thing))
}

fn either_writes(spec: &Spec, first: u8, second: u8, thing: Thing) -> bool
    ensures { result ≡ either_writes spec.now first second thing }
{
    writes(spec.updates_of(first), thing) || writes(spec.updates_of(second), thing)
}

fn add_init(list: &mut Items<Obligation>, invariants: u8) -> Result<(), AllocError>
    ensures { OnOk result (list.new ≡ list.old ++ map (λ i. Obligation.Init i) (below invariants)) }
{
    for inv in 0..invariants {
        list.push(Obligation::Init { inv })?;
    }
    Ok(())
}

fn add_safety(list: &mut Items<Obligation>, op: u8, invariants: u8) -> Result<(), AllocError>
    ensures { OnOk result (list.new ≡ list.old
        ++ map (λ i. Obligation.Safety op i) (below invariants)) }
{
    for inv in 0..invariants {
        list.push(Obligation::Safety { op, inv })?;
    }
    Ok(())
}

fn add_stable(
    list: &mut Items<Obligation>,
    op: u8,
    line: u8,
    operations: u8,
) -> Result<(), AllocError>
    ensures { OnOk result (list.new ≡ list.old
        ++ map (λ p. Obligation.Stable op line p) (below operations)) }
{
    for other in 0..operations {
        list.push(Obligation::Stable { op, line, other })?;
    }
    Ok(())
}

// The obligation that two operations commute on a thing, where either writes it.
fn add_if_written(
    list: &mut Items<Obligation>,
    spec: &Spec,
    first: u8,
    second: u8,
    thing: Thing,
) -> Result<(), AllocError>
    ensures { OnOk result (list.new ≡ list.old
        ++ cond (either_writes spec.now first second thing)
        (Obligation.Commute first second thing ∷ []) []) }
{
    if either_writes(spec, first, second, thing) {
        list.push(Obligation::Commute {
            first,
            second,
            thing,
        })?;
    }
    Ok(())
}

fn add_on_relations(
    list: &mut Items<Obligation>,
    spec: &Spec,
    first: u8,
    second: u8,
    relations: u8,
) -> Result<(), AllocError>
    ensures { OnOk result (list.new ≡ list.old
        ++ map (λ x. Obligation.Commute first second x)
        (filter (either_writes spec.now first second)
        (map (λ k. Thing.Relation k) (below relations)))) }
{
    for k in 0..relations {
        add_if_written(list, spec, first, second, Thing::Relation(k))?;
    }
    Ok(())
}

fn add_on_counters(
    list: &mut Items<Obligation>,
    spec: &Spec,
    first: u8,
    second: u8,
    counters: u8,
) -> Result<(), AllocError>
    ensures { OnOk result (list.new ≡ list.old
        ++ map (λ x. Obligation.Commute first second x)
        (filter (either_writes spec.now first second)
        (map (λ k. Thing.Counter k) (below counters)))) }
{
    for k in 0..counters {
        add_if_written(list, spec, first, second, Thing::Counter(k))?;
    }
    Ok(())
}

fn add_commute(
    list: &mut Items<Obligation>,
    spec: &Spec,
    first: u8,
    second: u8,
) -> Result<(), AllocError>
    ensures { OnOk result (list.new ≡ list.old ++ commute_of spec.now first second) }
{
    let sizes = sizes_of(spec);
    add_on_relations(list, spec, first, second, sizes.relations)?;
    add_on_counters(list, spec, first, second, sizes.counters)
}

fn add_commute_from(list: &mut Items<Obligation>, spec: &Spec, first: u8) -> Result<(), AllocError>
    requires { first < length spec.now.operations }
    ensures { OnOk result (list.new ≡ list.old ++ commute_from spec.now first) }
{
    let operations = sizes_of(spec).operations;
    for second in first..operations {
        add_commute(list, spec, first, second)?;
    }
    Ok(())
}

// How many requires lines an operation has.
fn lines_of(spec: &Spec, op: u8) -> u8
    ensures { result ≡ length (op_of spec.now op).requires_ }
{
    spec.well_formed();
    spec.requires_of(op).len() as u8
}

fn add_stable_from(list: &mut Items<Obligation>, spec: &Spec, op: u8) -> Result<(), AllocError>
    ensures { OnOk result (list.new ≡ list.old ++ stable_from spec.now op) }
{
    let operations = sizes_of(spec).operations;
    for line in 0..lines_of(spec, op) {
        add_stable(list, op, line, operations)?;
    }
    Ok(())
}

fn add_all_safety(list: &mut Items<Obligation>, spec: &Spec) -> Result<(), AllocError>
    ensures { OnOk result (list.new ≡ list.old
        ++ flat_map (safety_of spec.now) (below (length spec.now.operations))) }
{
    let sizes = sizes_of(spec);
    for op in 0..sizes.operations {
        add_safety(list, op, sizes.invariants)?;
    }
    Ok(())
}

fn add_all_commute(list: &mut Items<Obligation>, spec: &Spec) -> Result<(), AllocError>
    ensures { OnOk result (list.new ≡ list.old
        ++ flat_map (commute_from spec.now) (below (length spec.now.operations))) }
{
    for first in 0..sizes_of(spec).operations {
        add_commute_from(list, spec, first)?;
    }
    Ok(())
}

fn add_all_stable(list: &mut Items<Obligation>, spec: &Spec) -> Result<(), AllocError>
    ensures { OnOk result (list.new ≡ list.old
        ++ flat_map (stable_from spec.now) (below (length spec.now.operations))) }
{
    for op in 0..sizes_of(spec).operations {
        add_stable_from(list, spec, op)?;
    }
    Ok(())
}

// All obligations, in their order.
fn all_obligations(alloc: Global, spec: &Spec) -> Result<Items<Obligation>, AllocError>
    ensures { IfOk result (λ list. list ≡ obligations_of spec.now) }
{
    let mut list = Items::new(alloc);
    add_init(&mut list, sizes_of(spec).invariants)?;
    add_all_safety(&mut list, spec)?;
    add_all_commute(&mut list, spec)?;
    add_all_stable(&mut list, spec)?;
    Ok(list)
}

/// The obligations of a specification: for each invariant that it is true initially; for each operation and invariant that the
/// operation keeps it; for each two operations, equal ones too, that they commute on each thing that either writes; for each
/// requires line of an operation that each operation keeps it.
pub fn list(alloc: Global, spec: &Spec) -> Result<Items<Obligation>, AllocError>
    ensures list { IfOk result (λ list. list ≡ obligations_of spec.now) }
    ensures few { IfOk result (λ list. length list ≤ 12208) }
    ensures obligations { IfOk result (λ list. (ob : Obligation) → Contains list ob
        → IsObligation spec.now ob) }
{
    spec.well_formed();
    let list = all_obligations(alloc, spec)?;
    Ok(list)
}

/// The members of the list are the obligations by their parts, so a specification is safe where each member of the list holds.
pub fn law_obligations()
    ensures listed { (d : Specification) (ob : Obligation) → Contains (obligations_of d) ob
        → IsObligation d ob }
    ensures all { (d : Specification) (ob : Obligation) → IsObligation d ob
        → Contains (obligations_of d) ob }
    ensures safe { (d : Specification) → ((ob : Obligation) → Contains (obligations_of d) ob
        → Holds d ob) → Safe d }
{}
