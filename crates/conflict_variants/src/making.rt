// Making the bare specification and the keyed ones.

ghost use Rattle.std.specs.Prelude.{◌≡◌, [], ◌∷◌, map, get_or, slice_get, unwrap_or, IfOk, true};
ghost use Rattle.spec_core.specs.Typed.{is_specification, sort_of_param};
ghost use Rattle.conflict_variants.specs.{Takes.{with_takes}, Bare.{with_tokens, bare as bare_of}};
ghost use Rattle.conflict_variants.specs.Keyed.{CanBeKeyed, first_name, second_name};
ghost use Rattle.conflict_variants.specs.Keyed.{keyed_token as token_of};
ghost use Rattle.conflict_variants.specs.Keyed.{keyed_pattern as pattern_of, keyed_rule as rule_of};
ghost use Rattle.conflict_variants.specs.Keyed.{keyed_take as take_of, keyed_takes as takes_of};
ghost use Rattle.conflict_variants.specs.Keyed.{keyed_from, key_sort as key_sort_of};
ghost use Rattle.conflict_variants.specs.Keyed.{keyed as keyed_of};

use crate::copies::declarations::{
    copy_consts, copy_counters, copy_invariants, copy_name, copy_names, copy_relations,
};
use crate::copies::operations::copy_with_takes;
use crate::naming::unused_names;
use items::Items;
use spec_core::{Elem, Kind, Name, Operation, Param, Pattern, Rule, Spec, Take, Token};
use std::alloc::{AllocError, Global};

// A copy of a specification, but with these tokens, rules and operations.
fn made(
    alloc: Global,
    spec: &Spec,
    tokens: Items<Token>,
    rules: Items<Rule>,
    operations: Items<Operation>,
) -> Result<Spec, AllocError>
    requires { is_specification (with_tokens spec.now tokens rules operations) ≡ true }
    ensures { IfOk result (λ made. made ≡ with_tokens spec.now tokens rules operations) }
{
    let sorts = or_drop!(copy_names(alloc, spec.sorts.as_slice()); tokens, rules, operations);
    let consts =
        or_drop!(copy_consts(alloc, spec.consts.as_slice()); tokens, rules, operations, sorts);
    let relations = or_drop!(
        copy_relations(alloc, spec.relations.as_slice());
        tokens, rules, operations, sorts, consts
    );
    let counters = or_drop!(
        copy_counters(alloc, spec.counters.as_slice());
        tokens, rules, operations, sorts, consts, relations
    );
    let invariants = or_drop!(
        copy_invariants(alloc, spec.invariants.as_slice());
        tokens, rules, operations, sorts, consts, relations, counters
    );
    Ok(Spec {
        version: spec.version,
        sorts,
        consts,
        relations,
        counters,
        tokens,
        rules,
        invariants,
        operations,
    })
}

fn bare_operations(alloc: Global, operations: &[Operation]) -> Result<Items<Operation>, AllocError>
    ensures { IfOk result (λ copies. copies ≡ map (λ o. with_takes o []) operations.now) }
{
    let mut copies = Items::new(alloc);
    for operation in operations {
        let copy = or_drop!(copy_with_takes(alloc, operation, Items::new(alloc)); copies);
        or_drop!(copies.push(copy); copies);
    }
    Ok(copies)
}

/// The bare specification: without tokens, conflict rules and takes lines.
pub fn bare(alloc: Global, spec: &Spec) -> Result<Spec, AllocError>
    ensures { IfOk result (λ bare. bare ≡ bare_of spec.now) }
{
    let operations = bare_operations(alloc, spec.operations.as_slice())?;
    made(
        alloc,
        spec,
        Items::new(alloc),
        Items::new(alloc),
        operations,
    )
}

// ---- keyed ones

fn keyed_token(alloc: Global, name: &Name, sort: u8) -> Result<Token, AllocError>
    ensures { IfOk result (λ token. token ≡ token_of name.now sort) }
{
    let name = copy_name(alloc, name)?;
    let places = or_drop!(Items::from_slice(alloc, &[sort]); name);
    Ok(Token { name, places })
}

fn two_tokens(
    alloc: Global,
    first: &Name,
    second: &Name,
    sort: u8,
) -> Result<Items<Token>, AllocError>
    ensures { IfOk result (λ tokens. tokens ≡ token_of first.now sort ∷ token_of second.now sort
        ∷ []) }
{
    let mut tokens = Items::new(alloc);
    let first = or_drop!(keyed_token(alloc, first, sort); tokens);
    or_drop!(tokens.push(first); tokens);
    let second = or_drop!(keyed_token(alloc, second, sort); tokens);
    or_drop!(tokens.push(second); tokens);
    Ok(tokens)
}

// A token for each of the first two names.
fn first_tokens(alloc: Global, names: &[Name], sort: u8) -> Result<Items<Token>, AllocError>
    ensures { IfOk result
        (λ tokens. tokens
        ≡ token_of (get_or names.now 0 []) sort ∷ token_of (get_or names.now 1 []) sort ∷ []) }
{
    match names {
        [first, second, ..] => two_tokens(alloc, first, second, sort),
        _ => Err(AllocError),
    }
}

fn keyed_tokens(alloc: Global, spec: &Spec, sort: u8) -> Result<Items<Token>, AllocError>
    ensures { IfOk result (λ tokens. tokens ≡ token_of (first_name spec.now) sort
        ∷ token_of (second_name spec.now) sort ∷ []) }
{
    let names = unused_names(alloc, spec)?;
    let tokens = or_drop!(first_tokens(alloc, names.as_slice(), sort); names);
    drop(names);
    Ok(tokens)
}

fn keyed_pattern(alloc: Global, token: u8) -> Result<Pattern, AllocError>
    ensures { IfOk result (λ pattern. pattern ≡ pattern_of token) }
{
    let vars = Items::from_slice(alloc, &[0])?;
    Ok(Pattern { token, vars })
}

fn keyed_rules(alloc: Global) -> Result<Items<Rule>, AllocError>
    ensures { IfOk result (λ rules. rules ≡ rule_of ∷ []) }
{
    let left = keyed_pattern(alloc, 0)?;
    let right = or_drop!(keyed_pattern(alloc, 1); left);
    let mut rules = Items::new(alloc);
    or_drop!(rules.push(Rule { left, right }); rules);
    Ok(rules)
}

fn keyed_take(alloc: Global, token: u8, param: u8) -> Result<Take, AllocError>
    ensures { IfOk result (λ take. take ≡ take_of token param) }
{
    let args = Items::from_slice(alloc, &[Elem::Param(param)])?;
    Ok(Take {
        token,
        args,
        shared: false,
    })
}

/// Two operations, each with a parameter of one sort.
#[derive(Clone, Copy)]
pub struct Key {
    pub first: u8,
    pub p: u8,
    pub second: u8,
    pub q: u8,
}

fn keyed_takes(alloc: Global, key: Key, number: usize) -> Result<Items<Take>, AllocError>
    ensures { IfOk result (λ takes. takes ≡ takes_of key.first key.p key.second key.q number) }
{
    let mut takes = Items::new(alloc);
    if number == key.first as usize {
        let take = or_drop!(keyed_take(alloc, 0, key.p); takes);
        or_drop!(takes.push(take); takes);
    }
    if number == key.second as usize {
        let take = or_drop!(keyed_take(alloc, 1, key.q); takes);
        or_drop!(takes.push(take); takes);
    }
    Ok(takes)
}

fn keyed_operation(
    alloc: Global,
    operation: &Operation,
    key: Key,
    number: usize,
) -> Result<Operation, AllocError>
    ensures { IfOk result (λ copy. copy ≡ with_takes operation.now
        (takes_of key.first key.p key.second key.q number)) }
{
    let takes = keyed_takes(alloc, key, number)?;
    copy_with_takes(alloc, operation, takes)
}

fn keyed_operations(alloc: Global, spec: &Spec, key: Key) -> Result<Items<Operation>, AllocError>
    ensures { IfOk result
        (λ copies. copies ≡ keyed_from key.first key.p key.second key.q 0 spec.now.operations) }
{
    let mut copies = Items::new(alloc);
    for (number, operation) in spec.operations.as_slice().iter().enumerate() {
        let copy = or_drop!(keyed_operation(alloc, operation, key, number); copies);
        or_drop!(copies.push(copy); copies);
    }
    Ok(copies)
}

// The sort of a parameter among these; 0 where there is none.
fn sort_at(params: &[Param], param: u8) -> u8
    ensures { result ≡ unwrap_or (sort_of_param (slice_get params.now param)) 0 }
{
    match params.get(param as usize) {
        Some(found) => match found.kind {
            Kind::Sort(sort) => sort,
            Kind::Int => 0,
        },
        None => 0,
    }
}

// The sort of a parameter of an operation; 0 where there is none.
fn key_sort(spec: &Spec, op: u8, param: u8) -> u8
    ensures { result ≡ key_sort_of spec.now op param }
{
    match spec.operations.as_slice().get(op as usize) {
        Some(operation) => sort_at(operation.params.as_slice(), param),
        None => 0,
    }
}

/// The keyed specification of two operations at a parameter of each: calls of the two conflict where their arguments at these
/// parameters are equal, and no others do.
pub fn keyed(
    alloc: Global,
    spec: &Spec,
    first: u8,
    p: u8,
    second: u8,
    q: u8,
) -> Result<Spec, AllocError>
    requires { CanBeKeyed spec.now first p second q }
    ensures { IfOk result (λ keyed. keyed ≡ keyed_of spec.now first p second q) }
{
    let key = Key {
        first,
        p,
        second,
        q,
    };
    spec.well_formed();
    let sort = key_sort(spec, first, p);
    let tokens = keyed_tokens(alloc, spec, sort)?;
    let rules = or_drop!(keyed_rules(alloc); tokens);
    let operations = or_drop!(keyed_operations(alloc, spec, key); tokens, rules);
    let keyed = made(alloc, spec, tokens, rules, operations)?;
    Ok(keyed)
}
