// Whether a name is in use.

ghost use Rattle.std.specs.{Prelude.{◌≡◌, ◌||◌}, List.{list_any}, Str.{bytes_eq}};
ghost use Rattle.spec_core.specs.State.{is_in};
ghost use Rattle.conflict_variants.specs.Keyed.{names_in_use};

use spec_core::{Param, Spec};

fn names_a_sort(spec: &Spec, name: &[u8]) -> bool
    ensures { result ≡ list_any (λ n. bytes_eq name.now n) spec.now.sorts }
{
    spec.sorts
        .as_slice()
        .iter()
        .any(|sort| name == sort.bytes())
}

fn names_a_const(spec: &Spec, name: &[u8]) -> bool
    ensures { result ≡ list_any (λ c. bytes_eq name.now c.name) spec.now.consts }
{
    spec.consts
        .as_slice()
        .iter()
        .any(|constant| name == constant.name.bytes())
}

fn names_a_relation(spec: &Spec, name: &[u8]) -> bool
    ensures { result ≡ list_any (λ r. bytes_eq name.now r.name) spec.now.relations }
{
    spec.relations
        .as_slice()
        .iter()
        .any(|relation| name == relation.name.bytes())
}

fn names_a_counter(spec: &Spec, name: &[u8]) -> bool
    ensures { result ≡ list_any (λ c. bytes_eq name.now c.name) spec.now.counters }
{
    spec.counters
        .as_slice()
        .iter()
        .any(|counter| name == counter.name.bytes())
}

fn names_an_invariant(spec: &Spec, name: &[u8]) -> bool
    ensures { result ≡ list_any (λ i. bytes_eq name.now i.name) spec.now.invariants }
{
    spec.invariants
        .as_slice()
        .iter()
        .any(|invariant| name == invariant.name.bytes())
}

fn names_an_operation(spec: &Spec, name: &[u8]) -> bool
    ensures { result ≡ list_any (λ o. bytes_eq name.now o.name) spec.now.operations }
{
    spec.operations
        .as_slice()
        .iter()
        .any(|operation| name == operation.name.bytes())
}

fn names_a_param(params: &[Param], name: &[u8]) -> bool
    ensures { result ≡ list_any (λ p. bytes_eq name.now p.name) params.now }
{
    params.iter().any(|param| name == param.name.bytes())
}

fn names_any_param(spec: &Spec, name: &[u8]) -> bool
    ensures { result ≡ list_any (λ o. list_any
        (λ p. bytes_eq name.now p.name) o.params) spec.now.operations }
{
    spec.operations.as_slice().iter().any(|operation| names_a_param(
        operation.params.as_slice(),
        name,
    ))
}

fn any_of(one: bool, other: bool, third: bool) -> bool
    ensures { result ≡ (one || other || third) }
{
    one || other || third
}

fn names_a_thing(spec: &Spec, name: &[u8]) -> bool
    ensures { result
        ≡ (list_any (λ n. bytes_eq name.now n) spec.now.sorts
        || list_any (λ c. bytes_eq name.now c.name) spec.now.consts
        || list_any (λ r. bytes_eq name.now r.name) spec.now.relations) }
{
    any_of(
        names_a_sort(spec, name),
        names_a_const(spec, name),
        names_a_relation(spec, name),
    )
}

fn names_a_part(spec: &Spec, name: &[u8]) -> bool
    ensures { result
        ≡ (list_any (λ c. bytes_eq name.now c.name) spec.now.counters
        || list_any (λ i. bytes_eq name.now i.name) spec.now.invariants
        || list_any (λ o. bytes_eq name.now o.name) spec.now.operations) }
{
    any_of(
        names_a_counter(spec, name),
        names_an_invariant(spec, name),
        names_an_operation(spec, name),
    )
}

/// Whether the bare specification declares a name, or a parameter has it.
pub fn is_in_use(spec: &Spec, name: &[u8]) -> bool
    ensures { result ≡ is_in name.now (names_in_use spec.now) }
{
    any_of(
        names_a_thing(spec, name),
        names_a_part(spec, name),
        names_any_param(spec, name),
    )
}
