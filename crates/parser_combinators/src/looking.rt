// Looking at the next word, and reading a single reserved name or sign.

ghost use Rattle.std.specs.Prelude.{◌≡◌};
ghost use Rattle.parser_combinators.specs.Gives.{Gives};
ghost use Rattle.parser_combinators.specs.Words.{kind_of, next, seen, is_key as key_test};
ghost use Rattle.parser_combinators.specs.Words.{is_name as name_test, is_number as number_test};
ghost use Rattle.parser_combinators.specs.{Words.{name_kind}, Read.{key_at, sign_at}};

use crate::fault::ReadError;
use crate::token::{Key, Kind, Symbol, Token, Version};
use word_cut::LONGEST_NAME;

fn kind_of_name(text: &[u8]) -> Kind
    ensures { result ≡ name_kind text.now }
{
    if text == b"shared".as_slice() {
        return Kind::Shared;
    }
    if text == b"exclusive".as_slice() {
        return Kind::Exclusive;
    }
    if text == b"observes".as_slice() {
        return Kind::Observes;
    }
    if text.is_empty() || text.len() > LONGEST_NAME {
        return Kind::Unnamed;
    }
    Kind::Name
}

/// What a word is, as far as a grammar chooses by it.
pub fn kind_of_symbol(symbol: &Symbol) -> Kind
    ensures { result ≡ kind_of symbol.now }
{
    match symbol {
        Symbol::Name(text) => kind_of_name(text.as_slice()),
        Symbol::Number(n) => {
            if *n == 1 {
                Kind::One
            } else if *n == 2 {
                Kind::Two
            } else {
                Kind::Number
            }
        }
        Symbol::Key(key) => Kind::Key(*key),
    }
}

/// What the next word is.
pub fn next_kind(tokens: &[Token]) -> Kind
    ensures { result ≡ next (seen tokens.now) }
{
    match tokens {
        [] => Kind::Nothing,
        [token, ..] => kind_of_symbol(&token.symbol),
    }
}

/// Whether a word is this reserved name or sign.
pub fn is_key(kind: Kind, key: Key) -> bool
    ensures { result ≡ key_test key kind }
{
    match kind {
        Kind::Key(found) => found == key,
        _ => false,
    }
}

/// Whether a word is a name that the version leaves free.
pub fn is_name(version: Version, kind: Kind) -> bool
    ensures { result ≡ name_test version kind }
{
    match kind {
        Kind::Name => true,
        Kind::Shared | Kind::Exclusive | Kind::Observes => version == Version::First,
        _ => false,
    }
}

/// Whether a word is a number.
pub fn is_number(kind: Kind) -> bool
    ensures { result ≡ number_test kind }
{
    match kind {
        Kind::One | Kind::Two | Kind::Number => true,
        _ => false,
    }
}

/// The place of the reserved name or sign, and the words after it.
pub fn key(tokens: &[Token], key: Key) -> Result<(u32, &[Token]), ReadError>
    ensures { Gives (λ x. (x.0, x.1.now)) result (key_at key tokens.now) }
{
    match tokens {
        [] => Err(ReadError::Syntax(0)),
        [token, rest @ ..] => {
            if !is_key(kind_of_symbol(&token.symbol), key) {
                return Err(ReadError::Syntax(tokens.len()));
            }
            Ok((token.word, rest))
        }
    }
}

/// The words after the reserved name or sign.
pub fn sign(tokens: &[Token], key: Key) -> Result<&[Token], ReadError>
    ensures { Gives (λ x. (tt, x.now)) result (sign_at key tokens.now) }
{
    match tokens {
        [] => Err(ReadError::Syntax(0)),
        [token, rest @ ..] => {
            if !is_key(kind_of_symbol(&token.symbol), key) {
                return Err(ReadError::Syntax(tokens.len()));
            }
            Ok(rest)
        }
    }
}
