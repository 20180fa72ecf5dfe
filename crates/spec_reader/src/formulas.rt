// Reading formulas. Behind a bracket a comparison or a connective may stand: the next word says
// which, and behind a name what follows the reading does, so nothing is read twice.

ghost use Rattle.std.specs.Prelude.{◌≡◌, ◌<◌, ◌-◌, length};
ghost use Rattle.parser_combinators.specs.Gives.{Gives};
ghost use Rattle.spec_trees.specs.Form.{form_of};
ghost use Rattle.spec_reader.specs.Bracket.{bracket_of};
ghost use Rattle.spec_reader.specs.Reading.{true_at, false_at, has_at, closed_by, compared_with_at};
ghost use Rattle.spec_reader.specs.Reading.{compared_at, connected_with_at, connected_at};
ghost use Rattle.spec_reader.specs.Reading.{behind_at, named_at, negation_at, inside_at, inner_at};
ghost use Rattle.spec_reader.specs.Reading.{plain_at, form_at, starts_term as term_test};

use crate::terms::{atom, more, term};
use crate::words::{comparison, connective, is_connective};
use items::or_drop;
use parser_combinators::{
    Key, Kind, ReadError, Token, Version, closing, is_key, is_name, is_number, is_opening, key,
    next_kind, opening,
};
use spec_trees::{Comparison, Connective, Formula, Product, Reading, Summand, Term};
use std::alloc::Global;

/// What stands in brackets. Its parts are in boxes, so that a level of brackets takes little stack.
#[derive(Drop)]
pub enum Bracket {
    Compared(Box<Term>, Comparison, Box<Term>),
    Connected(Box<Formula>, Connective, Box<Formula>),
}

/// A comparison and its right side.
fn compared_with(
    alloc: Global,
    version: Version,
    tokens: &[Token],
) -> Result<(Comparison, Box<Term>, &[Token]), ReadError>
    ensures { Gives (λ x. ((x.0, x.1.value), x.2.now)) result
        (compared_with_at version tokens.now) }
{
    let (sign, rest) = comparison(tokens)?;
    let (right, rest) = term(alloc, version, rest)?;
    Ok((sign, Box::new(alloc, right)?, rest))
}

#[tactic(auto, unfolding(crate::specs::Reading::compared_at))]
fn compared(
    alloc: Global,
    version: Version,
    tokens: &[Token],
) -> Result<(Bracket, &[Token]), ReadError>
    ensures { Gives (λ x. (bracket_of x.0, x.1.now)) result (compared_at version tokens.now) }
{
    let (left, rest) = term(alloc, version, tokens)?;
    let left = Box::new(alloc, left)?;
    let (sign, right, rest) = or_drop!(compared_with(alloc, version, rest); left);
    Ok((Bracket::Compared(left, sign, right), rest))
}

/// A connective and its right side.
#[cycle(formula)]
fn connected_with(
    alloc: Global,
    version: Version,
    depth: u32,
    tokens: &[Token],
) -> Result<(Connective, Box<Formula>, &[Token]), ReadError>
    ensures { Gives (λ x. ((x.0, form_of x.1.value), x.2.now)) result
        (connected_with_at (form_at version depth) tokens.now) }
{
    let (sign, rest) = connective(tokens)?;
    let (right, rest) = formula(alloc, version, depth, rest)?;
    Ok((sign, Box::new(alloc, right)?, rest))
}

/// What follows a reading behind a bracket.
#[cycle(formula)]
fn after(
    alloc: Global,
    version: Version,
    depth: u32,
    word: u32,
    reading: Reading,
    tokens: &[Token],
) -> Result<(Bracket, &[Token]), ReadError>
    ensures { Gives (λ x. (bracket_of x.0, x.1.now)) result
        (behind_at version (form_at version depth) (word, reading) tokens.now) }
{
    if is_connective(next_kind(tokens)) {
        let left = Box::new(alloc, Formula::Has(word, reading))?;
        let (sign, right, rest) = or_drop!(connected_with(alloc, version, depth, tokens); left);
        return Ok((Bracket::Connected(left, sign, right), rest));
    }
    let (more, rest) = or_drop!(more(alloc, version, tokens); reading);
    let product = Product::Reading(reading);
    let first = Summand { word, product };
    let minus = false;
    let left = Box::new(alloc, Term { minus, first, more })?;
    let (sign, right, rest) = or_drop!(compared_with(alloc, version, rest); left);
    Ok((Bracket::Compared(left, sign, right), rest))
}

#[cycle(formula)]
fn named(
    alloc: Global,
    version: Version,
    depth: u32,
    tokens: &[Token],
) -> Result<(Bracket, &[Token]), ReadError>
    ensures { Gives (λ x. (bracket_of x.0, x.1.now)) result
        (named_at version (form_at version depth) tokens.now) }
{
    let (word, reading, rest) = atom(alloc, version, tokens)?;
    after(alloc, version, depth, word, reading, rest)
}

fn starts_term(kind: Kind) -> bool
    ensures { result ≡ term_test kind }
{
    is_number(kind) || is_key(kind, Key::Minus)
}

/// Two formulas with a connective between.
#[cycle(formula)]
fn connected(
    alloc: Global,
    version: Version,
    depth: u32,
    tokens: &[Token],
) -> Result<(Bracket, &[Token]), ReadError>
    ensures { Gives (λ x. (bracket_of x.0, x.1.now)) result
        (connected_at (form_at version depth) tokens.now) }
{
    let (left, rest) = formula(alloc, version, depth, tokens)?;
    let left = Box::new(alloc, left)?;
    let (sign, right, rest) = or_drop!(connected_with(alloc, version, depth, rest); left);
    Ok((Bracket::Connected(left, sign, right), rest))
}

#[cycle(formula)]
#[tactic(auto, unfolding(crate::specs::Reading::inside_at))]
fn inside(
    alloc: Global,
    version: Version,
    depth: u32,
    tokens: &[Token],
) -> Result<(Bracket, &[Token]), ReadError>
    ensures { Gives (λ x. (bracket_of x.0, x.1.now)) result
        (inside_at version (form_at version depth) tokens.now) }
{
    let kind = next_kind(tokens);
    if starts_term(kind) {
        return compared(alloc, version, tokens);
    }
    if is_name(version, kind) {
        return named(alloc, version, depth, tokens);
    }
    connected(alloc, version, depth, tokens)
}

#[cycle(formula)]
fn inner(
    alloc: Global,
    version: Version,
    depth: u32,
    tokens: &[Token],
) -> Result<(Bracket, &[Token]), ReadError>
    ensures { Gives (λ x. (bracket_of x.0, x.1.now)) result (inner_at version depth tokens.now) }
{
    if depth == 0 {
        return compared(alloc, version, tokens);
    }
    inside(alloc, version, depth - 1, tokens)
}

fn true_formula(tokens: &[Token]) -> Result<(Formula, &[Token]), ReadError>
    ensures { Gives (λ x. (form_of x.0, x.1.now)) result (true_at tokens.now) }
{
    let (word, rest) = key(tokens, Key::True)?;
    Ok((Formula::True(word), rest))
}

fn false_formula(tokens: &[Token]) -> Result<(Formula, &[Token]), ReadError>
    ensures { Gives (λ x. (form_of x.0, x.1.now)) result (false_at tokens.now) }
{
    let (word, rest) = key(tokens, Key::False)?;
    Ok((Formula::False(word), rest))
}

/// A reading, as a formula.
fn has(alloc: Global, version: Version, tokens: &[Token]) -> Result<(Formula, &[Token]), ReadError>
    ensures { Gives (λ x. (form_of x.0, x.1.now)) result (has_at version tokens.now) }
{
    let (word, reading, rest) = atom(alloc, version, tokens)?;
    Ok((Formula::Has(word, reading), rest))
}

/// The formula that what stands in brackets is, where `word` is the place of the first bracket.
fn closed(word: u32, bracket: Bracket) -> Formula
    ensures { form_of result ≡ closed_by word (bracket_of bracket) }
{
    match bracket {
        Bracket::Compared(left, sign, right) => Formula::Compare(word, left, sign, right),
        Bracket::Connected(left, sign, right) => Formula::Connect(word, left, sign, right),
    }
}

#[cycle(formula)]
fn plain(
    alloc: Global,
    version: Version,
    depth: u32,
    tokens: &[Token],
) -> Result<(Formula, &[Token]), ReadError>
    ensures { Gives (λ x. (form_of x.0, x.1.now)) result
        (plain_at version (inner_at version depth) tokens.now) }
{
    let kind = next_kind(tokens);
    if is_key(kind, Key::True) {
        return true_formula(tokens);
    }
    if is_key(kind, Key::False) {
        return false_formula(tokens);
    }
    if !is_opening(kind) {
        return has(alloc, version, tokens);
    }
    let (word, rest) = opening(tokens)?;
    let (bracket, rest) = inner(alloc, version, depth, rest)?;
    let rest = or_drop!(closing(rest); bracket);
    Ok((closed(word, bracket), rest))
}

/// A formula, with at most `depth` levels below its uppermost.
#[cycle(formula)]
pub fn formula(
    alloc: Global,
    version: Version,
    depth: u32,
    tokens: &[Token],
) -> Result<(Formula, &[Token]), ReadError>
    ensures { Gives (λ x. (form_of x.0, x.1.now)) result (form_at version depth tokens.now) }
{
    if depth == 0 {
        return plain(alloc, version, depth, tokens);
    }
    if !is_key(next_kind(tokens), Key::Not) {
        return plain(alloc, version, depth, tokens);
    }
    negation(alloc, version, depth, tokens)
}

#[cycle(formula)]
fn negation(
    alloc: Global,
    version: Version,
    depth: u32,
    tokens: &[Token],
) -> Result<(Formula, &[Token]), ReadError>
    requires { 0 < depth }
    ensures { Gives (λ x. (form_of x.0, x.1.now)) result
        (negation_at (form_at version (depth - 1)) tokens.now) }
{
    let (word, rest) = key(tokens, Key::Not)?;
    let (inner, rest) = formula(alloc, version, depth - 1, rest)?;
    Ok((Formula::Not(word, Box::new(alloc, inner)?), rest))
}
