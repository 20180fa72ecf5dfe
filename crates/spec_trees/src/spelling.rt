// Spelling a tree: its words in the layout of spelled text.

#![tactic(auto, using(crate::proofs::Laying::laying))]

ghost use Rattle.std.specs.{Prelude.{◌≡◌, ◌++◌, OnOk, IfOk, vec_len}, Fmt.{decimal}};
ghost use Rattle.parser_combinators.specs.Texts.{text_of};
ghost use Rattle.spec_trees.specs.{Form.{tree_of}, Layout.{begins_line as line_test}};
ghost use Rattle.spec_trees.specs.Layout.{begins_indented as indented_test, before as before_text};
ghost use Rattle.spec_trees.specs.Layout.{behind, laid_out, text_of_tree};

use crate::putting::put_tree;
use crate::tree::Tree;
use items::Items;
use parser_combinators::{Key, Symbol, Version, key_text};
use std::alloc::{AllocError, Global};

fn begins_line(key: Key) -> bool
    ensures { result ≡ line_test key }
{
    match key {
        Key::Sort
        | Key::Const
        | Key::Relation
        | Key::Counter
        | Key::Initially
        | Key::Token
        | Key::Conflict
        | Key::Invariant
        | Key::Operation
        | Key::End => true,
        _ => false,
    }
}

fn begins_indented(key: Key) -> bool
    ensures { result ≡ indented_test key }
{
    match key {
        Key::Requires | Key::Insert | Key::Remove | Key::Add | Key::Set | Key::Takes => true,
        _ => false,
    }
}

/// What stands before a word that isn't the first.
fn before(version: Version, symbol: &Symbol) -> &'static [u8]
    ensures { result.now ≡ before_text version symbol.now }
{
    match symbol {
        Symbol::Key(key) => {
            if begins_line(*key) {
                b"\n".as_slice()
            } else if begins_indented(*key) {
                b"\n  ".as_slice()
            } else {
                b" ".as_slice()
            }
        }
        Symbol::Name(text) => {
            if version != Version::First && text.as_slice() == b"observes".as_slice() {
                b"\n  ".as_slice()
            } else {
                b" ".as_slice()
            }
        }
        Symbol::Number(_) => b" ".as_slice(),
    }
}

/// Writes a number in decimal, without leading zeros.
#[tactic(auto, using(crate::proofs::Laying::numbering))]
fn write_number(out: &mut Vec<u8>, number: u128) -> Result<(), AllocError>
    ensures { OnOk result (out.new.items ≡ out.old.items ++ decimal number) }
{
    if number < 10 {
        out.push(b'0' + number as u8)?;
        return Ok(());
    }
    write_number(out, number / 10)?;
    out.push(b'0' + (number % 10) as u8)?;
    Ok(())
}

fn write_word(out: &mut Vec<u8>, symbol: &Symbol) -> Result<(), AllocError>
    ensures { OnOk result (out.new.items ≡ out.old.items ++ text_of symbol.now) }
{
    match symbol {
        Symbol::Name(text) => out.extend_from_slice(text.as_slice()),
        Symbol::Number(number) => write_number(out, *number),
        Symbol::Key(key) => out.extend_from_slice(key_text(*key)),
    }
}

/// Writes the words behind the first, and the line feed at the end.
fn write_behind(out: &mut Vec<u8>, version: Version, symbols: &[Symbol]) -> Result<(), AllocError>
    ensures { OnOk result (out.new.items ≡ out.old.items ++ behind version symbols.now) }
{
    'words: for symbol in symbols {
        out.extend_from_slice(before(version, symbol))?;
        write_word(out, symbol)?;
    }
    out.push(b'\n')?;
    Ok(())
}

fn write_words(out: &mut Vec<u8>, version: Version, symbols: &[Symbol]) -> Result<(), AllocError>
    ensures { OnOk result (out.new.items ≡ out.old.items ++ laid_out version symbols.now) }
{
    match symbols {
        [] => {
            out.push(b'\n')?;
            Ok(())
        }
        [first, rest @ ..] => {
            write_word(out, first)?;
            write_behind(out, version, rest)
        }
    }
}

/// The text of a tree: its words with one space between. The words that begin an item and `end`
/// begin a line; those that begin a line of an operation begin one after two spaces; the text ends
/// with a line feed.
pub fn spell(alloc: Global, tree: &Tree) -> Result<Vec<u8>, AllocError>
    ensures { IfOk result (λ text. text.items ≡ text_of_tree (tree_of tree.now)) }
{
    let mut symbols = Items::new(alloc);
    put_tree(alloc, &mut symbols, tree)?;
    let mut out = Vec::new(alloc);
    write_words(&mut out, tree.version, symbols.as_slice())?;
    Ok(out)
}
