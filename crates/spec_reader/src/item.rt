// Reading the items of a specification.

ghost use Rattle.std.specs.Prelude.{◌≡◌, length, map};
ghost use Rattle.parser_combinators.specs.{Gives.{Gives}, Read.{one_more, listed_at}};
ghost use Rattle.spec_trees.specs.Form.{item_of};
ghost use Rattle.spec_reader.specs.Reading.{value_at, param_kind_at, param_at, params_at};
ghost use Rattle.spec_reader.specs.Reading.{places_at, sort_item_at, const_item_at};
ghost use Rattle.spec_reader.specs.Reading.{relation_item_at, counter_item_at, initially_item_at};
ghost use Rattle.spec_reader.specs.Reading.{token_item_at, conflict_item_at, invariant_item_at};
ghost use Rattle.spec_reader.specs.Reading.{operation_item_at, item_at, items_at};
ghost use Rattle.spec_reader.specs.Reading.{starts_item as item_test};

use crate::lines::lines;
use crate::sentences::sentence;
use crate::terms::{args, minus, reading};
use crate::words::{figure, name};
use items::{Items, or_drop};
use parser_combinators::{Key, Kind, ReadError, Token, Version, is_key, key, next_kind, sign};
use spec_trees::{Item, Mark, Param, ParamKind, Value};
use std::alloc::Global;

#[tactic(auto, unfolding(crate::specs::Reading::value_at))]
fn value(tokens: &[Token]) -> Result<(Value, &[Token]), ReadError>
    ensures { Gives (λ x. (x.0, x.1.now)) result (value_at tokens.now) }
{
    let kind = next_kind(tokens);
    if is_key(kind, Key::True) {
        let rest = sign(tokens, Key::True)?;
        return Ok((Value::True, rest));
    }
    if is_key(kind, Key::False) {
        let rest = sign(tokens, Key::False)?;
        return Ok((Value::False, rest));
    }
    let (minus, rest) = minus(tokens)?;
    let (figure, rest) = figure(rest)?;
    Ok((Value::Number(minus, figure), rest))
}

#[tactic(auto, unfolding(crate::specs::Reading::param_kind_at))]
fn param_kind(
    alloc: Global,
    version: Version,
    tokens: &[Token],
) -> Result<(ParamKind, &[Token]), ReadError>
    ensures { Gives (λ x. (x.0, x.1.now)) result (param_kind_at version tokens.now) }
{
    if is_key(next_kind(tokens), Key::Int) {
        let rest = sign(tokens, Key::Int)?;
        return Ok((ParamKind::Int, rest));
    }
    let (sort, rest) = name(alloc, version, tokens)?;
    Ok((ParamKind::Sort(sort), rest))
}

#[tactic(auto, unfolding(crate::specs::Reading::param_at))]
fn param(alloc: Global, version: Version, tokens: &[Token]) -> Result<(Param, &[Token]), ReadError>
    ensures { Gives (λ x. (x.0, x.1.now)) result (param_at version tokens.now) }
{
    let (name, rest) = name(alloc, version, tokens)?;
    let rest = or_drop!(sign(rest, Key::Colon); name);
    let (kind, rest) = or_drop!(param_kind(alloc, version, rest); name);
    Ok((Param { name, kind }, rest))
}

fn next_param(
    alloc: Global,
    version: Version,
    tokens: &[Token],
) -> Result<(Param, &[Token]), ReadError>
    ensures { Gives (λ x. (x.0, x.1.now)) result (one_more (param_at version) tokens.now) }
{
    let rest = sign(tokens, Key::Comma)?;
    let (param, rest) = param(alloc, version, rest)?;
    Ok((param, rest))
}

fn param_list(
    alloc: Global,
    version: Version,
    tokens: &[Token],
) -> Result<(Items<Param>, &[Token]), ReadError>
    ensures { Gives (λ x. (x.0, x.1.now)) result (listed_at (param_at version) tokens.now) }
{
    let (first, after_first) = param(alloc, version, tokens)?;
    let mut list = Items::new(alloc);
    list.push(first)?;
    let mut rest = after_first;
    'params: while is_key(next_kind(rest), Key::Comma) {
        let (param, after) = next_param(alloc, version, rest)?;
        list.push(param)?;
        rest = after;
    }
    Ok((list, rest))
}

/// Parameters in brackets, or none.
#[tactic(auto, unfolding(crate::specs::Reading::params_at))]
fn params(
    alloc: Global,
    version: Version,
    tokens: &[Token],
) -> Result<(Items<Param>, &[Token]), ReadError>
    ensures { Gives (λ x. (x.0, x.1.now)) result (params_at version tokens.now) }
{
    if !is_key(next_kind(tokens), Key::Open) {
        return Ok((Items::new(alloc), tokens));
    }
    let rest = sign(tokens, Key::Open)?;
    let (list, rest) = param_list(alloc, version, rest)?;
    let rest = or_drop!(sign(rest, Key::Close); list);
    Ok((list, rest))
}

#[tactic(auto, unfolding(crate::specs::Reading::sort_at))]
fn sort(alloc: Global, version: Version, tokens: &[Token]) -> Result<(Item, &[Token]), ReadError>
    ensures { Gives (λ x. (item_of x.0, x.1.now)) result (sort_item_at version tokens.now) }
{
    let (word, rest) = key(tokens, Key::Sort)?;
    let (name, rest) = name(alloc, version, rest)?;
    Ok((Item::Sort(word, name), rest))
}

#[tactic(auto, unfolding(crate::specs::Reading::const_at))]
fn constant(
    alloc: Global,
    version: Version,
    tokens: &[Token],
) -> Result<(Item, &[Token]), ReadError>
    ensures { Gives (λ x. (item_of x.0, x.1.now)) result (const_item_at version tokens.now) }
{
    let (word, rest) = key(tokens, Key::Const)?;
    let (name_mark, rest) = name(alloc, version, rest)?;
    let rest = or_drop!(sign(rest, Key::Colon); name_mark);
    let (sort, rest) = or_drop!(name(alloc, version, rest); name_mark);
    Ok((Item::Const(word, name_mark, sort), rest))
}

/// A name with the sorts of its places, behind a reserved name.
#[tactic(auto, unfolding(crate::specs::Reading::places_at))]
fn places(
    alloc: Global,
    kind: Key,
    version: Version,
    tokens: &[Token],
) -> Result<(u32, Mark, Items<Mark>, &[Token]), ReadError>
    ensures { Gives (λ x. ((x.0, (x.1, x.2)), x.3.now)) result (places_at kind version tokens.now) }
{
    let (word, rest) = key(tokens, kind)?;
    let (name, rest) = name(alloc, version, rest)?;
    let (places, rest) = or_drop!(args(alloc, version, rest); name);
    Ok((word, name, places, rest))
}

fn relation(
    alloc: Global,
    version: Version,
    tokens: &[Token],
) -> Result<(Item, &[Token]), ReadError>
    ensures { Gives (λ x. (item_of x.0, x.1.now)) result (relation_item_at version tokens.now) }
{
    let (word, name, places, rest) = places(alloc, Key::Relation, version, tokens)?;
    Ok((Item::Relation(word, name, places), rest))
}

fn counter(alloc: Global, version: Version, tokens: &[Token]) -> Result<(Item, &[Token]), ReadError>
    ensures { Gives (λ x. (item_of x.0, x.1.now)) result (counter_item_at version tokens.now) }
{
    let (word, name, places, rest) = places(alloc, Key::Counter, version, tokens)?;
    Ok((Item::Counter(word, name, places), rest))
}

fn token(alloc: Global, version: Version, tokens: &[Token]) -> Result<(Item, &[Token]), ReadError>
    ensures { Gives (λ x. (item_of x.0, x.1.now)) result (token_item_at version tokens.now) }
{
    let (word, name, places, rest) = places(alloc, Key::Token, version, tokens)?;
    Ok((Item::Token(word, name, places), rest))
}

#[tactic(auto, unfolding(crate::specs::Reading::initially_at))]
fn initially(
    alloc: Global,
    version: Version,
    tokens: &[Token],
) -> Result<(Item, &[Token]), ReadError>
    ensures { Gives (λ x. (item_of x.0, x.1.now)) result (initially_item_at version tokens.now) }
{
    let (word, rest) = key(tokens, Key::Initially)?;
    let (name, rest) = name(alloc, version, rest)?;
    let (value, rest) = or_drop!(value(rest); name);
    Ok((Item::Initially(word, name, value), rest))
}

#[tactic(auto, unfolding(crate::specs::Reading::conflict_at))]
fn conflict(
    alloc: Global,
    version: Version,
    tokens: &[Token],
) -> Result<(Item, &[Token]), ReadError>
    ensures { Gives (λ x. (item_of x.0, x.1.now)) result (conflict_item_at version tokens.now) }
{
    let (word, rest) = key(tokens, Key::Conflict)?;
    let (left, rest) = reading(alloc, version, rest)?;
    let (right, rest) = or_drop!(reading(alloc, version, rest); left);
    Ok((Item::Conflict(word, left, right), rest))
}

#[tactic(auto, unfolding(crate::specs::Reading::invariant_at))]
fn invariant(
    alloc: Global,
    version: Version,
    depth: u32,
    tokens: &[Token],
) -> Result<(Item, &[Token]), ReadError>
    ensures { Gives (λ x. (item_of x.0, x.1.now)) result
        (invariant_item_at version depth tokens.now) }
{
    let (word, rest) = key(tokens, Key::Invariant)?;
    let (name, rest) = name(alloc, version, rest)?;
    let (sentence, rest) = or_drop!(sentence(alloc, version, depth, rest); name);
    Ok((Item::Invariant(word, name, sentence), rest))
}

#[tactic(auto, unfolding(crate::specs::Reading::operation_at))]
fn operation(
    alloc: Global,
    version: Version,
    depth: u32,
    tokens: &[Token],
) -> Result<(Item, &[Token]), ReadError>
    ensures { Gives (λ x. (item_of x.0, x.1.now)) result
        (operation_item_at version depth tokens.now) }
{
    let (word, rest) = key(tokens, Key::Operation)?;
    let (name, rest) = name(alloc, version, rest)?;
    let (params, rest) = or_drop!(params(alloc, version, rest); name);
    let (lines, rest) = or_drop!(lines(alloc, version, depth, rest); name, params);
    let rest = or_drop!(sign(rest, Key::End); name, params, lines);
    Ok((Item::Operation(word, name, params, lines), rest))
}

#[tactic(auto, unfolding(crate::specs::Reading::item_at))]
fn item(
    alloc: Global,
    version: Version,
    depth: u32,
    tokens: &[Token],
) -> Result<(Item, &[Token]), ReadError>
    ensures { Gives (λ x. (item_of x.0, x.1.now)) result (item_at version depth tokens.now) }
{
    let kind = next_kind(tokens);
    if is_key(kind, Key::Sort) {
        return sort(alloc, version, tokens);
    }
    if is_key(kind, Key::Const) {
        return constant(alloc, version, tokens);
    }
    if is_key(kind, Key::Relation) {
        return relation(alloc, version, tokens);
    }
    if is_key(kind, Key::Counter) {
        return counter(alloc, version, tokens);
    }
    if is_key(kind, Key::Initially) {
        return initially(alloc, version, tokens);
    }
    if is_key(kind, Key::Token) {
        return token(alloc, version, tokens);
    }
    if is_key(kind, Key::Conflict) {
        return conflict(alloc, version, tokens);
    }
    if is_key(kind, Key::Invariant) {
        return invariant(alloc, version, depth, tokens);
    }
    operation(alloc, version, depth, tokens)
}

fn starts_item(kind: Kind) -> bool
    ensures { result ≡ item_test kind }
{
    is_key(kind, Key::Sort)
        || is_key(kind, Key::Const)
        || is_key(kind, Key::Relation)
        || is_key(kind, Key::Counter)
        || is_key(kind, Key::Initially)
        || is_key(kind, Key::Token)
        || is_key(kind, Key::Conflict)
        || is_key(kind, Key::Invariant)
        || is_key(kind, Key::Operation)
}

/// As many items as there are.
pub fn items(
    alloc: Global,
    version: Version,
    depth: u32,
    tokens: &[Token],
) -> Result<(Items<Item>, &[Token]), ReadError>
    ensures { Gives (λ x. (map item_of x.0, x.1.now)) result (items_at version depth tokens.now) }
{
    let mut items = Items::new(alloc);
    let mut rest = tokens;
    'items: while starts_item(next_kind(rest)) {
        let (item, after) = item(alloc, version, depth, rest)?;
        items.push(item)?;
        rest = after;
    }
    Ok((items, rest))
}
