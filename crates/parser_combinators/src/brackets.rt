// Round brackets: whether one opens, and what stands behind one.

ghost use Rattle.std.specs.Prelude.{◌≡◌};
ghost use Rattle.parser_combinators.specs.declared.token.Key.TheVariants as keys;
ghost use Rattle.parser_combinators.specs.{Gives.{Gives}, Words.{is_key as key_test}};
ghost use Rattle.parser_combinators.specs.Read.{key_at, sign_at};

use crate::fault::ReadError;
use crate::looking::{is_key, key, sign};
use crate::token::{Key, Kind, Token};

/// Whether a word opens a bracket.
pub fn is_opening(kind: Kind) -> bool
    ensures { result ≡ key_test keys.Open kind }
{
    is_key(kind, Key::Open)
}

/// The place of the opening bracket, and the words after it.
pub fn opening(tokens: &[Token]) -> Result<(u32, &[Token]), ReadError>
    ensures { Gives (λ x. (x.0, x.1.now)) result (key_at keys.Open tokens.now) }
{
    key(tokens, Key::Open)
}

/// The words after the closing bracket.
pub fn closing(tokens: &[Token]) -> Result<&[Token], ReadError>
    ensures { Gives (λ x. (tt, x.now)) result (sign_at keys.Close tokens.now) }
{
    sign(tokens, Key::Close)
}
