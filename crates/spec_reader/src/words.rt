// Reading single words: names, numbers, and the signs that stand between.

ghost use Rattle.std.specs.Prelude.{◌≡◌, ◌≤◌, length, Ok};
ghost use Rattle.parser_combinators.specs.{Gives.{Gives}, Words.{name_of, value_of}};
ghost use Rattle.spec_reader.specs.Reading.{name_at, figure_at, is_sign as sign_test};
ghost use Rattle.spec_reader.specs.Reading.{sign_of as sign_for, plus_at};
ghost use Rattle.spec_reader.specs.Reading.{is_comparison as comparison_test};
ghost use Rattle.spec_reader.specs.Reading.{comparison_of as comparison_for, comparison_at};
ghost use Rattle.spec_reader.specs.Reading.{is_connective as connective_test};
ghost use Rattle.spec_reader.specs.Reading.{connective_of as connective_for, connective_at};
ghost use Rattle.spec_reader.specs.Reading.{is_quantifier as quantifier_test};
ghost use Rattle.spec_reader.specs.Reading.{quantifier_of as quantifier_for, quantifier_at};

use parser_combinators::{
    Key, Kind, ReadError, Symbol, Token, Version, is_key, is_name, is_number, kind_of_symbol,
};
use spec_core::Name;
use spec_trees::{Comparison, Connective, Figure, Mark, Quantifier, Sign};
use std::alloc::Global;

/// The name that a word is.
fn name_in(alloc: Global, symbol: &Symbol) -> Result<Name, ReadError>
    requires some { 1 ≤ length (name_of symbol.now) }
    requires few { length (name_of symbol.now) ≤ 32 }
    ensures { Gives (λ x. x) result (Ok (name_of symbol.now)) }
{
    match symbol {
        Symbol::Name(text) => Ok(Name::new(alloc, text.as_slice())?),
        _ => Err(ReadError::Memory),
    }
}

/// A name that the version leaves free.
pub fn name(
    alloc: Global,
    version: Version,
    tokens: &[Token],
) -> Result<(Mark, &[Token]), ReadError>
    ensures { Gives (λ x. (x.0, x.1.now)) result (name_at version tokens.now) }
{
    match tokens {
        [] => Err(ReadError::Syntax(0)),
        [token, rest @ ..] => {
            if !is_name(version, kind_of_symbol(&token.symbol)) {
                return Err(ReadError::Syntax(tokens.len()));
            }
            let text = name_in(alloc, &token.symbol)?;
            Ok((
                Mark {
                    text,
                    word: token.word,
                },
                rest,
            ))
        }
    }
}

/// A number.
pub fn figure(tokens: &[Token]) -> Result<(Figure, &[Token]), ReadError>
    ensures { Gives (λ x. (x.0, x.1.now)) result (figure_at tokens.now) }
{
    match tokens {
        [] => Err(ReadError::Syntax(0)),
        [token, rest @ ..] => {
            if !is_number(kind_of_symbol(&token.symbol)) {
                return Err(ReadError::Syntax(tokens.len()));
            }
            let value = match &token.symbol {
                Symbol::Number(n) => *n,
                _ => 0,
            };
            Ok((
                Figure {
                    value,
                    word: token.word,
                },
                rest,
            ))
        }
    }
}

/// Whether a word is `+` or `-`.
pub fn is_sign(kind: Kind) -> bool
    ensures { result ≡ sign_test kind }
{
    is_key(kind, Key::Plus) || is_key(kind, Key::Minus)
}

fn sign_of(kind: Kind) -> Sign
    ensures { result ≡ sign_for kind }
{
    if is_key(kind, Key::Plus) {
        Sign::Plus
    } else {
        Sign::Minus
    }
}

/// Plus or minus, with its place.
pub fn plus(tokens: &[Token]) -> Result<(Sign, u32, &[Token]), ReadError>
    ensures { Gives (λ x. ((x.0, x.1), x.2.now)) result (plus_at tokens.now) }
{
    match tokens {
        [] => Err(ReadError::Syntax(0)),
        [token, rest @ ..] => {
            let kind = kind_of_symbol(&token.symbol);
            if !is_sign(kind) {
                return Err(ReadError::Syntax(tokens.len()));
            }
            Ok((sign_of(kind), token.word, rest))
        }
    }
}

fn is_comparison(kind: Kind) -> bool
    ensures { result ≡ comparison_test kind }
{
    is_key(kind, Key::Equal)
        || is_key(kind, Key::Unequal)
        || is_key(kind, Key::Less)
        || is_key(kind, Key::AtMost)
        || is_key(kind, Key::Greater)
        || is_key(kind, Key::AtLeast)
}

fn comparison_of(kind: Kind) -> Comparison
    ensures { result ≡ comparison_for kind }
{
    if is_key(kind, Key::Equal) {
        Comparison::Equal
    } else if is_key(kind, Key::Unequal) {
        Comparison::Unequal
    } else if is_key(kind, Key::Less) {
        Comparison::Less
    } else if is_key(kind, Key::AtMost) {
        Comparison::AtMost
    } else if is_key(kind, Key::Greater) {
        Comparison::Greater
    } else {
        Comparison::AtLeast
    }
}

/// The sign that compares two sums.
pub fn comparison(tokens: &[Token]) -> Result<(Comparison, &[Token]), ReadError>
    ensures { Gives (λ x. (x.0, x.1.now)) result (comparison_at tokens.now) }
{
    match tokens {
        [] => Err(ReadError::Syntax(0)),
        [token, rest @ ..] => {
            let kind = kind_of_symbol(&token.symbol);
            if !is_comparison(kind) {
                return Err(ReadError::Syntax(tokens.len()));
            }
            Ok((comparison_of(kind), rest))
        }
    }
}

/// Whether a word is `and`, `or` or `implies`.
pub fn is_connective(kind: Kind) -> bool
    ensures { result ≡ connective_test kind }
{
    is_key(kind, Key::And) || is_key(kind, Key::Or) || is_key(kind, Key::Implies)
}

fn connective_of(kind: Kind) -> Connective
    ensures { result ≡ connective_for kind }
{
    if is_key(kind, Key::And) {
        Connective::And
    } else if is_key(kind, Key::Or) {
        Connective::Or
    } else {
        Connective::Implies
    }
}

/// The word that joins two formulas.
pub fn connective(tokens: &[Token]) -> Result<(Connective, &[Token]), ReadError>
    ensures { Gives (λ x. (x.0, x.1.now)) result (connective_at tokens.now) }
{
    match tokens {
        [] => Err(ReadError::Syntax(0)),
        [token, rest @ ..] => {
            let kind = kind_of_symbol(&token.symbol);
            if !is_connective(kind) {
                return Err(ReadError::Syntax(tokens.len()));
            }
            Ok((connective_of(kind), rest))
        }
    }
}

/// Whether a word is `forall` or `exists`.
pub fn is_quantifier(kind: Kind) -> bool
    ensures { result ≡ quantifier_test kind }
{
    is_key(kind, Key::Forall) || is_key(kind, Key::Exists)
}

fn quantifier_of(kind: Kind) -> Quantifier
    ensures { result ≡ quantifier_for kind }
{
    if is_key(kind, Key::Forall) {
        Quantifier::Forall
    } else {
        Quantifier::Exists
    }
}

/// A quantifier, with its place.
pub fn quantifier(tokens: &[Token]) -> Result<(Quantifier, u32, &[Token]), ReadError>
    ensures { Gives (λ x. ((x.0, x.1), x.2.now)) result (quantifier_at tokens.now) }
{
    match tokens {
        [] => Err(ReadError::Syntax(0)),
        [token, rest @ ..] => {
            let kind = kind_of_symbol(&token.symbol);
            if !is_quantifier(kind) {
                return Err(ReadError::Syntax(tokens.len()));
            }
            Ok((quantifier_of(kind), token.word, rest))
        }
    }
}
