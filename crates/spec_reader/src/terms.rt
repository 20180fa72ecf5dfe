// Reading names with arguments, and sums.

ghost use Rattle.std.specs.Prelude.{◌≡◌, length};
ghost use Rattle.parser_combinators.specs.Gives.{Gives};
ghost use Rattle.parser_combinators.specs.Read.{mapped, one_more, listed_at, place_of};
ghost use Rattle.spec_reader.specs.Reading.{name_at, args_at, reading_at, atom_at, product_at};
ghost use Rattle.spec_reader.specs.Reading.{summand_at, signed_at, minus_at, more_at, term_at};

use crate::words::{figure, is_sign, name, plus};
use items::{Items, or_drop};
use parser_combinators::{Key, ReadError, Token, Version, is_key, is_number, next_kind, sign};
use spec_trees::{Mark, Product, Reading, Signed, Summand, Term};
use std::alloc::Global;

/// The place of the next word.
pub fn place(tokens: &[Token]) -> u32
    ensures { result ≡ place_of tokens.now }
{
    match tokens {
        [] => 0,
        [token, ..] => token.word,
    }
}

fn next_name(
    alloc: Global,
    version: Version,
    tokens: &[Token],
) -> Result<(Mark, &[Token]), ReadError>
    ensures { Gives (λ x. (x.0, x.1.now)) result (one_more (name_at version) tokens.now) }
{
    let rest = sign(tokens, Key::Comma)?;
    let (mark, rest) = name(alloc, version, rest)?;
    Ok((mark, rest))
}

/// Names with commas between.
fn names(
    alloc: Global,
    version: Version,
    tokens: &[Token],
) -> Result<(Items<Mark>, &[Token]), ReadError>
    ensures { Gives (λ x. (x.0, x.1.now)) result (listed_at (name_at version) tokens.now) }
{
    let (first, after_first) = name(alloc, version, tokens)?;
    let mut marks = Items::new(alloc);
    marks.push(first)?;
    let mut rest = after_first;
    'names: while is_key(next_kind(rest), Key::Comma) {
        let (mark, after) = next_name(alloc, version, rest)?;
        marks.push(mark)?;
        rest = after;
    }
    Ok((marks, rest))
}

/// Names in brackets, or none.
#[tactic(auto, unfolding(crate::specs::Reading::args_at))]
pub fn args(
    alloc: Global,
    version: Version,
    tokens: &[Token],
) -> Result<(Items<Mark>, &[Token]), ReadError>
    ensures { Gives (λ x. (x.0, x.1.now)) result (args_at version tokens.now) }
{
    if !is_key(next_kind(tokens), Key::Open) {
        return Ok((Items::new(alloc), tokens));
    }
    let rest = sign(tokens, Key::Open)?;
    let (args, rest) = names(alloc, version, rest)?;
    let rest = or_drop!(sign(rest, Key::Close); args);
    Ok((args, rest))
}

/// A name with its arguments.
#[tactic(auto, unfolding(crate::specs::Reading::reading_at))]
pub fn reading(
    alloc: Global,
    version: Version,
    tokens: &[Token],
) -> Result<(Reading, &[Token]), ReadError>
    ensures { Gives (λ x. (x.0, x.1.now)) result (reading_at version tokens.now) }
{
    let (name, rest) = name(alloc, version, tokens)?;
    let (args, rest) = or_drop!(args(alloc, version, rest); name);
    Ok((Reading { name, args }, rest))
}

/// A name with its arguments, and its place.
#[tactic(auto, unfolding(crate::specs::Reading::atom_at))]
pub fn atom(
    alloc: Global,
    version: Version,
    tokens: &[Token],
) -> Result<(u32, Reading, &[Token]), ReadError>
    ensures { Gives (λ x. ((x.0, x.1), x.2.now)) result (atom_at version tokens.now) }
{
    let (reading, rest) = reading(alloc, version, tokens)?;
    Ok((place(tokens), reading, rest))
}

#[tactic(auto, unfolding(crate::specs::Reading::product_at))]
fn product(
    alloc: Global,
    version: Version,
    tokens: &[Token],
) -> Result<(Product, &[Token]), ReadError>
    ensures { Gives (λ x. (x.0, x.1.now)) result (product_at version tokens.now) }
{
    if !is_number(next_kind(tokens)) {
        let (reading, rest) = reading(alloc, version, tokens)?;
        return Ok((Product::Reading(reading), rest));
    }
    let (figure, rest) = figure(tokens)?;
    if !is_key(next_kind(rest), Key::Star) {
        return Ok((Product::Number(figure), rest));
    }
    let rest = sign(rest, Key::Star)?;
    let (reading, rest) = reading(alloc, version, rest)?;
    Ok((Product::Times(figure, reading), rest))
}

#[tactic(auto, unfolding(crate::specs::Reading::summand_at))]
fn summand(
    alloc: Global,
    version: Version,
    tokens: &[Token],
) -> Result<(Summand, &[Token]), ReadError>
    ensures { Gives (λ x. (x.0, x.1.now)) result (summand_at version tokens.now) }
{
    let word = place(tokens);
    let (product, rest) = product(alloc, version, tokens)?;
    Ok((Summand { word, product }, rest))
}

#[tactic(auto, unfolding(crate::specs::Reading::signed_at))]
fn signed(
    alloc: Global,
    version: Version,
    tokens: &[Token],
) -> Result<(Signed, &[Token]), ReadError>
    ensures { Gives (λ x. (x.0, x.1.now)) result (signed_at version tokens.now) }
{
    let (sign, word, rest) = plus(tokens)?;
    let (product, rest) = product(alloc, version, rest)?;
    let summand = Summand { word, product };
    Ok((Signed { sign, summand }, rest))
}

/// The summands behind the first one.
pub fn more(
    alloc: Global,
    version: Version,
    tokens: &[Token],
) -> Result<(Items<Signed>, &[Token]), ReadError>
    ensures { Gives (λ x. (x.0, x.1.now)) result (more_at version tokens.now) }
{
    let mut more = Items::new(alloc);
    let mut rest = tokens;
    'more: while is_sign(next_kind(rest)) {
        let (summand, after) = signed(alloc, version, rest)?;
        more.push(summand)?;
        rest = after;
    }
    Ok((more, rest))
}

/// Whether a `-` stands here, which is read.
pub fn minus(tokens: &[Token]) -> Result<(bool, &[Token]), ReadError>
    ensures { Gives (λ x. (x.0, x.1.now)) result (minus_at tokens.now) }
{
    if !is_key(next_kind(tokens), Key::Minus) {
        return Ok((false, tokens));
    }
    let rest = sign(tokens, Key::Minus)?;
    Ok((true, rest))
}

/// A sum.
#[tactic(auto, unfolding(crate::specs::Reading::term_at))]
pub fn term(
    alloc: Global,
    version: Version,
    tokens: &[Token],
) -> Result<(Term, &[Token]), ReadError>
    ensures { Gives (λ x. (x.0, x.1.now)) result (term_at version tokens.now) }
{
    let (minus, rest) = minus(tokens)?;
    let (first, rest) = summand(alloc, version, rest)?;
    let (more, rest) = or_drop!(more(alloc, version, rest); first);
    Ok((Term { minus, first, more }, rest))
}
