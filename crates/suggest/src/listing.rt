// The lists of pairs, of their obligations, and of their parameters of one sort.

ghost use Rattle.std.specs.Prelude.{◌≡◌, ◌++◌, ◌∷◌, [], nat_le, if◌then◌else◌, length, OnOk, IfOk};
ghost use Rattle.std.specs.List.{filter, Contains};
ghost use Rattle.spec_core.specs.Specification.{op_of};
ghost use Rattle.spec_core.specs.Typed.{sort_of_kind as sort_of_kind_of, same_sort as same_sort_of};
ghost use Rattle.obligation_list.specs.declared.obligation.Obligation.{Obligation};
ghost use Rattle.obligation_list.specs.Obligations.{IsObligation};
ghost use Rattle.conflict_variants.specs.Keyed.{sort_of_parameter as sort_of_parameter_of};
ghost use Rattle.conflict_variants.specs.Keyed.{CanBeKeyed};
ghost use Rattle.suggest.specs.Pairs.{is_of_pair as is_of_pair_in, obligations_of_pair, IsPair};
ghost use Rattle.suggest.specs.Pairs.{pair_at, key_at, pairs_from, pairs_of as pairs_in, keys_from};
ghost use Rattle.suggest.specs.{Pairs.{keys_of as keys_in}, declared.answer.Pair.{Pair}};
ghost use Rattle.suggest.specs.declared.answer.Key.{Key};

use crate::answer::{Key, Pair};
use items::Items;
use obligation_list::{Obligation, list};
use spec_core::{Kind, Spec};
use std::alloc::{AllocError, Global};

// ---- obligations

fn is_of_pair(ob: &Obligation, pair: Pair) -> bool
    ensures { result ≡ is_of_pair_in pair.first pair.second ob.now }
{
    match ob {
        Obligation::Init { inv: _ } => false,
        Obligation::Safety { op: _, inv: _ } => false,
        Obligation::Commute {
            first,
            second,
            thing: _,
        } => *first == pair.first && *second == pair.second,
        Obligation::Stable { op, line: _, other } => {
            (*op == pair.first && *other == pair.second)
                || (*op == pair.second && *other == pair.first)
        }
    }
}

// Adds an obligation at the end, where it is one of the pair.
fn add_obligation(
    listed: &mut Items<Obligation>,
    ob: &Obligation,
    pair: Pair,
) -> Result<(), AllocError>
    ensures { OnOk result
        (listed.new ≡ listed.old ++ filter (is_of_pair_in pair.first pair.second) (ob.now ∷ [])) }
{
    if is_of_pair(ob, pair) {
        listed.push(*ob)?;
    }
    Ok(())
}

fn those_of_pair(
    alloc: Global,
    obligations: &[Obligation],
    pair: Pair,
) -> Result<Items<Obligation>, AllocError>
    ensures { IfOk result
        (λ listed. listed ≡ filter (is_of_pair_in pair.first pair.second) obligations.now) }
{
    let mut listed = Items::new(alloc);
    for ob in obligations {
        add_obligation(&mut listed, ob, pair)?;
    }
    Ok(listed)
}

/// The obligations of a pair, in their order.
pub fn list_pair(alloc: Global, spec: &Spec, pair: Pair) -> Result<Items<Obligation>, AllocError>
    ensures list { IfOk result
        (λ listed. listed ≡ obligations_of_pair spec.now pair.first pair.second) }
    ensures members { IfOk result
        (λ listed. (ob : Obligation) → Contains listed ob → IsObligation spec.now ob) }
{
    let obligations = list(alloc, spec)?;
    let listed = or_drop!(those_of_pair(alloc, obligations.as_slice(), pair); obligations);
    drop(obligations);
    Ok(listed)
}

// ---- pairs

fn add_pair(pairs: &mut Items<Pair>, first: u8, second: u8) -> Result<(), AllocError>
    ensures { OnOk result
        (pairs.new ≡ pairs.old ++ (if nat_le first second then pair_at first second ∷ [] else [])) }
{
    if first <= second {
        pairs.push(Pair { first, second })?;
    }
    Ok(())
}

fn add_pairs_from(pairs: &mut Items<Pair>, first: u8, operations: u8) -> Result<(), AllocError>
    ensures { OnOk result (pairs.new ≡ pairs.old ++ pairs_from operations first) }
{
    for second in 0..operations {
        add_pair(pairs, first, second)?;
    }
    Ok(())
}

fn count_operations(spec: &Spec) -> u8
    ensures { result ≡ length spec.now.operations }
{
    spec.well_formed();
    spec.operations.len() as u8
}

fn listed_pairs(alloc: Global, spec: &Spec) -> Result<Items<Pair>, AllocError>
    ensures { IfOk result (λ pairs. pairs ≡ pairs_in spec.now) }
{
    let operations = count_operations(spec);
    let mut pairs = Items::new(alloc);
    for first in 0..operations {
        add_pairs_from(&mut pairs, first, operations)?;
    }
    Ok(pairs)
}

/// All pairs of operations of a specification, by the first one, and then by the second from the first on.
pub fn list_pairs(alloc: Global, spec: &Spec) -> Result<Items<Pair>, AllocError>
    ensures list { IfOk result (λ pairs. pairs ≡ pairs_in spec.now) }
    ensures members { IfOk result
        (λ pairs. (x : Pair) → Contains pairs x → IsPair spec.now x.first x.second) }
{
    let pairs = listed_pairs(alloc, spec)?;
    Ok(pairs)
}

// ---- parameters

fn sort_of_kind(kind: Kind) -> Option<u8>
    ensures { result ≡ sort_of_kind_of kind }
{
    match kind {
        Kind::Sort(sort) => Some(sort),
        Kind::Int => None,
    }
}

fn sort_of_parameter(spec: &Spec, op: u8, param: u8) -> Option<u8>
    ensures { result ≡ sort_of_parameter_of spec.now op param }
{
    match spec.operations.as_slice().get(op as usize) {
        Some(operation) => match operation.params.as_slice().get(param as usize) {
            Some(found) => sort_of_kind(found.kind),
            None => None,
        },
        None => None,
    }
}

fn same_sort(one: Option<u8>, other: Option<u8>) -> bool
    ensures { result ≡ same_sort_of one other }
{
    match one {
        Some(sort) => match other {
            Some(found) => found == sort,
            None => false,
        },
        None => false,
    }
}

fn add_key(keys: &mut Items<Key>, spec: &Spec, pair: Pair, p: u8, q: u8) -> Result<(), AllocError>
    ensures { OnOk result
        (keys.new
        ≡ keys.old
        ++ (if same_sort_of (sort_of_parameter_of spec.now pair.first p)
        (sort_of_parameter_of spec.now pair.second q) then key_at p q ∷ [] else [])) }
{
    if same_sort(
        sort_of_parameter(spec, pair.first, p),
        sort_of_parameter(spec, pair.second, q),
    ) {
        keys.push(Key { p, q })?;
    }
    Ok(())
}

// How many parameters an operation has.
fn params_of(spec: &Spec, op: u8) -> u8
    ensures { result ≡ length (op_of spec.now op).params }
{
    spec.well_formed();
    match spec.operations.as_slice().get(op as usize) {
        Some(operation) => operation.params.len() as u8,
        None => 0,
    }
}

fn add_keys_from(keys: &mut Items<Key>, spec: &Spec, pair: Pair, p: u8) -> Result<(), AllocError>
    ensures { OnOk result (keys.new ≡ keys.old ++ keys_from spec.now pair.first pair.second p) }
{
    for q in 0..params_of(spec, pair.second) {
        add_key(keys, spec, pair, p, q)?;
    }
    Ok(())
}

fn listed_keys(alloc: Global, spec: &Spec, pair: Pair) -> Result<Items<Key>, AllocError>
    ensures { IfOk result (λ keys. keys ≡ keys_in spec.now pair.first pair.second) }
{
    let mut keys = Items::new(alloc);
    for p in 0..params_of(spec, pair.first) {
        add_keys_from(&mut keys, spec, pair, p)?;
    }
    Ok(keys)
}

/// A parameter of each operation of a pair, where both have one sort.
pub fn list_keys(alloc: Global, spec: &Spec, pair: Pair) -> Result<Items<Key>, AllocError>
    requires { IsPair spec.now pair.first pair.second }
    ensures list { IfOk result (λ keys. keys ≡ keys_in spec.now pair.first pair.second) }
    ensures members { IfOk result
        (λ keys. (k : Key) → Contains keys k → CanBeKeyed spec.now pair.first k.p pair.second k.q) }
{
    let keys = listed_keys(alloc, spec, pair)?;
    Ok(keys)
}
