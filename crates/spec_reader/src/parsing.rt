// Reading the whole of a specification.

ghost use Rattle.std.specs.Prelude.{◌≡◌, ◌≤◌, ◌<◌, length, IfOk, IfErr};
ghost use Rattle.word_cut.specs.Words.{IsCut};
ghost use Rattle.parser_combinators.specs.Gives.{Gives};
ghost use Rattle.spec_trees.specs.{Form.{TreeForm, tree_of}, Spelling.{spelling}};
ghost use Rattle.spec_trees.specs.{Trees.{IsTree, SameTree}, Place.{texts_of, IsRead}};
ghost use Rattle.spec_reader.specs.Refused.{IsRefusedAt, IsReadUnlessMemory};
ghost use Rattle.spec_reader.specs.Reading.{version_at, tree_by, whole_by};

use crate::item::items;
use parser_combinators::{Key, Kind, ReadError, Token, Version, kind_of_symbol, sign, tokens};
use spec_trees::Tree;
use std::alloc::Global;
use word_cut::Word;

/// The number of the version, and the words after it.
fn version(tokens: &[Token]) -> Result<(Version, &[Token]), ReadError>
    ensures { Gives (λ x. (x.0, x.1.now)) result (version_at tokens.now) }
{
    match tokens {
        [] => Err(ReadError::Syntax(0)),
        [token, rest @ ..] => match kind_of_symbol(&token.symbol) {
            Kind::One => Ok((Version::First, rest)),
            Kind::Two => Ok((Version::Second, rest)),
            _ => Err(ReadError::Syntax(tokens.len())),
        },
    }
}

fn tree(alloc: Global, depth: u32, tokens: &[Token]) -> Result<(Tree, &[Token]), ReadError>
    ensures { Gives (λ x. (tree_of x.0, x.1.now)) result (tree_by depth tokens.now) }
{
    let rest = sign(tokens, Key::Cise)?;
    let (version, rest) = version(rest)?;
    let (items, rest) = items(alloc, version, depth, rest)?;
    Ok((Tree { version, items }, rest))
}

fn whole(alloc: Global, depth: u32, tokens: &[Token]) -> Result<Tree, ReadError>
    ensures { Gives (λ x. tree_of x) result (whole_by depth tokens.now) }
{
    let (tree, rest) = tree(alloc, depth, tokens)?;
    if !rest.is_empty() {
        return Err(ReadError::Syntax(rest.len()));
    }
    Ok(tree)
}

/// Why words were not read.
#[derive(Debug, Drop)]
pub enum SyntaxRefused {
    /// No spelling goes on with this word, counted from 0; it is the number of words where one more
    /// is missing.
    Syntax { word: usize },
    Memory,
}

/// The levels below the uppermost that a formula may have: it is at most 200 deep.
const BELOW: u32 = 199;

/// The tree that the words of some bytes spell, all of the words.
pub fn parse(alloc: Global, bytes: &[u8], words: &[Word]) -> Result<Tree, SyntaxRefused>
    requires { IsCut bytes.now words.now }
    ensures found { IfOk result (λ t. IsRead bytes.now words.now (tree_of t)) }
    ensures only { (t : TreeForm) → IsTree t → spelling t ≡ texts_of bytes.now words.now
        → IsReadUnlessMemory result }
    ensures place { IfErr result (IsRefusedAt (texts_of bytes.now words.now)) }
{
    let Ok(tokens) = tokens(alloc, bytes, words) else {
        return Err(SyntaxRefused::Memory);
    };
    match whole(alloc, BELOW, tokens.as_slice()) {
        Ok(tree) => Ok(tree),
        Err(ReadError::Memory) => Err(SyntaxRefused::Memory),
        Err(ReadError::Syntax(left)) => Err(SyntaxRefused::Syntax {
            word: tokens.len() - left,
        }),
    }
}

/// Trees with one spelling differ in the places of their words alone.
pub fn law_one_spelling()
    ensures { (s t : TreeForm) → IsTree s → IsTree t → spelling s ≡ spelling t → SameTree s t }
{}
