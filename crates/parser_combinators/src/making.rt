// From bytes and their words to tokens.

ghost use Rattle.std.specs.Prelude.{◌≡◌, ◌+◌, ◌≤◌, length, true, false, IfOk};
ghost use Rattle.word_cut.specs.{Texts.{is_word, is_long_number}, Words.{IsCut, Stands}};
ghost use Rattle.parser_combinators.specs.Texts.{key_text as text_for, is_sign};
ghost use Rattle.parser_combinators.specs.Texts.{key_from, key_of as key_for};
ghost use Rattle.parser_combinators.specs.Texts.{symbol_of as symbol_for};
ghost use Rattle.parser_combinators.specs.Tokens.{token_of as token_for, tokens_of};

use crate::token::{Key, Symbol, Token};
use items::Items;
use std::alloc::{AllocError, Global};
use word_cut::{Word, read_number};

const KEYS: [Key; 41] = [
    Key::Open,
    Key::Close,
    Key::Comma,
    Key::Colon,
    Key::Dot,
    Key::Star,
    Key::Plus,
    Key::Minus,
    Key::Equal,
    Key::Unequal,
    Key::Less,
    Key::AtMost,
    Key::Greater,
    Key::AtLeast,
    Key::Cise,
    Key::Sort,
    Key::Const,
    Key::Relation,
    Key::Counter,
    Key::Initially,
    Key::Token,
    Key::Conflict,
    Key::Invariant,
    Key::Operation,
    Key::End,
    Key::Requires,
    Key::Insert,
    Key::Remove,
    Key::Add,
    Key::Set,
    Key::Takes,
    Key::When,
    Key::Forall,
    Key::Exists,
    Key::True,
    Key::False,
    Key::Not,
    Key::And,
    Key::Or,
    Key::Implies,
    Key::Int,
];

/// The text of a reserved name or a sign.
pub fn key_text(key: Key) -> &'static [u8]
    ensures { result.now ≡ text_for key }
{
    match key {
        Key::Open => b"(".as_slice(),
        Key::Close => b")".as_slice(),
        Key::Comma => b",".as_slice(),
        Key::Colon => b":".as_slice(),
        Key::Dot => b".".as_slice(),
        Key::Star => b"*".as_slice(),
        Key::Plus => b"+".as_slice(),
        Key::Minus => b"-".as_slice(),
        Key::Equal => b"=".as_slice(),
        Key::Unequal => b"!=".as_slice(),
        Key::Less => b"<".as_slice(),
        Key::AtMost => b"<=".as_slice(),
        Key::Greater => b">".as_slice(),
        Key::AtLeast => b">=".as_slice(),
        _ => word_text(key),
    }
}

// The text of a reserved name.
fn word_text(key: Key) -> &'static [u8]
    requires { is_sign key ≡ false }
    ensures { result.now ≡ text_for key }
{
    match key {
        Key::Cise => b"cise".as_slice(),
        Key::Sort => b"sort".as_slice(),
        Key::Const => b"const".as_slice(),
        Key::Relation => b"relation".as_slice(),
        Key::Counter => b"counter".as_slice(),
        Key::Initially => b"initially".as_slice(),
        Key::Token => b"token".as_slice(),
        Key::Conflict => b"conflict".as_slice(),
        Key::Invariant => b"invariant".as_slice(),
        Key::Operation => b"operation".as_slice(),
        Key::End => b"end".as_slice(),
        Key::Requires => b"requires".as_slice(),
        Key::Insert => b"insert".as_slice(),
        Key::Remove => b"remove".as_slice(),
        Key::Add => b"add".as_slice(),
        Key::Set => b"set".as_slice(),
        Key::Takes => b"takes".as_slice(),
        Key::When => b"when".as_slice(),
        Key::Forall => b"forall".as_slice(),
        Key::Exists => b"exists".as_slice(),
        Key::True => b"true".as_slice(),
        Key::False => b"false".as_slice(),
        Key::Not => b"not".as_slice(),
        Key::And => b"and".as_slice(),
        Key::Or => b"or".as_slice(),
        Key::Implies => b"implies".as_slice(),
        Key::Int => b"int".as_slice(),
        _ => unreachable!(),
    }
}

/// The first of the keys with this text.
fn key_among(keys: &[Key], text: &[u8]) -> Option<Key>
    ensures { result ≡ key_from keys.now text.now }
{
    'keys: for key in keys {
        if text == key_text(*key) {
            return Some(*key);
        }
    }
    None
}

fn key_of(text: &[u8]) -> Option<Key>
    ensures { result ≡ key_for text.now }
{
    key_among(KEYS.as_slice(), text)
}

/// What a word says by its text.
fn symbol_of(alloc: Global, text: &[u8]) -> Result<Symbol, AllocError>
    requires word { is_word text.now ≡ true }
    requires short { is_long_number text.now ≡ false }
    ensures { IfOk result (λ symbol. symbol ≡ symbol_for text.now) }
{
    if let Some(key) = key_of(text) {
        return Ok(Symbol::Key(key));
    }
    match read_number(text) {
        Some(number) => Ok(Symbol::Number(number)),
        None => Ok(Symbol::Name(Items::from_slice(alloc, text)?)),
    }
}

/// A word as a token, with its number.
fn token_of(alloc: Global, bytes: &[u8], word: Word, number: usize) -> Result<Token, AllocError>
    requires stands { Stands bytes.now word }
    requires place { number ≤ word.at }
    ensures { IfOk result (λ token. token ≡ token_for bytes.now word number) }
{
    let rest = &bytes[word.at as usize..];
    let text = &rest[..word.len as usize];
    Ok(Token {
        symbol: symbol_of(alloc, text)?,
        word: number as u32,
    })
}

/// The words of some bytes as tokens, in their order, numbered from 0.
pub fn tokens(alloc: Global, bytes: &[u8], words: &[Word]) -> Result<Items<Token>, AllocError>
    requires { IsCut bytes.now words.now }
    ensures { IfOk result (λ tokens. tokens ≡ tokens_of bytes.now words.now) }
{
    let mut tokens = Items::new(alloc);
    'words: for (number, word) in words.iter().enumerate() {
        let token = token_of(alloc, bytes, *word, number)?;
        tokens.push(token)?;
    }
    Ok(tokens)
}
