// From bytes to a specification, or to the text that says why they are none.
ghost use Rattle.std.specs.Prelude.{◌≡◌, ℕ, ◌++◌, ◌≤◌, ◌<◌, List, length, IfOk, OnOk, IsErrOf};
ghost use Rattle.std.specs.Prelude.{codes, decimal, [], ◌∷◌};
ghost use Rattle.byte_ports.specs.{Faults.{IsFault}, Told.{IsReadWithin}};
ghost use Rattle.word_cut.specs.Words.{IsCut};
ghost use Rattle.spec_trees.specs.{Form.{TreeForm, tree_of}, Trees.{IsTree}};
ghost use Rattle.typing_rules.specs.Items.{typing};
ghost use Rattle.spec_types.specs.Refusals.{IsTypeRefusal};
ghost use Rattle.spec_from_bytes.specs.Lines.{line};
ghost use Rattle.spec_from_bytes.specs.Reading.{SaysFault, IsTyped, SaysRefusal, IsReadingOf};
ghost use Rattle.spec_from_bytes.specs.Reading.{IsReadingFrom};

use crate::faults::{limit_text, named_text};
use crate::texts::{push, push_placed};
use byte_ports::{ReadRefused, Source, Stopped, read_up_to};
use spec_core::Spec;
use spec_reader::{SyntaxRefused, parse};
use spec_trees::Tree;
use spec_types::{TypeRefused, type_tree};
use std::alloc::{AllocError, Global};
use word_cut::{CutRefused, Word, cut};

/// What a tree is.
#[derive(Drop)]
pub enum Typed {
    /// The specification that it declares.
    Specification(Spec),
    /// The text that says what is wrong with it.
    Faulty(Vec<u8>),
}

/// What some bytes are.
#[derive(Drop)]
pub enum Reading {
    /// A specification, with its tree.
    Specified(Tree, Spec),
    /// None: the text that says why.
    Refused(Vec<u8>),
}

impl Reading {
    /// Lets a reading go. Its parts are many: let go here, they aren't proved to be let go in each crate above.
    pub fn let_go(self) {}
}

/// What every refusal of a specification begins with.
const REFUSED: &[u8] = b"refused specification ";

/// The line of a refusal that has a place.
fn placed_text(
    alloc: Global,
    first: &[u8],
    second: &[u8],
    place: usize,
) -> Result<Vec<u8>, AllocError>
    ensures { IfOk result
        (λ text. text.items
        ≡ line (codes "refused" ∷ codes "specification" ∷ first.now ∷ second.now
        ∷ decimal place ∷ [])) }
{
    let mut text = Vec::new(alloc);
    push(&mut text, REFUSED)?;
    push_placed(alloc, &mut text, first, second, place)?;
    Ok(text)
}

/// The text that says what is wrong with a tree.
fn fault_text(alloc: Global, refused: &TypeRefused) -> Result<Vec<u8>, AllocError>
    ensures { (t : TreeForm) → IfOk result (λ text. IsTypeRefusal (typing t) refused.now
        → SaysFault t text.items) }
{
    match refused {
        TypeRefused::Unknown { name, word } => named_text(alloc, b"unknown", name.bytes(), *word),
        TypeRefused::Twice { name, word } => named_text(alloc, b"twice", name.bytes(), *word),
        TypeRefused::Kind { name, word } => named_text(alloc, b"kind", name.bytes(), *word),
        TypeRefused::Count { name, word } => named_text(alloc, b"count", name.bytes(), *word),
        TypeRefused::Limit {
            which,
            number,
            word,
        } => limit_text(alloc, *which, *number, *word),
        TypeRefused::Memory => Err(AllocError),
    }
}

/// What a tree of the grammar is.
fn declared(alloc: Global, tree: &Tree) -> Result<Typed, AllocError>
    requires { IsTree (tree_of tree.now) }
    ensures { IfOk result (IsTyped (tree_of tree.now)) }
{
    match type_tree(alloc, tree) {
        Ok(spec) => Ok(Typed::Specification(spec)),
        Err(refused) => Ok(Typed::Faulty(fault_text(alloc, &refused)?)),
    }
}

/// What the words of some bytes are.
fn read_words(alloc: Global, bytes: &[u8], words: &[Word]) -> Result<Reading, AllocError>
    requires within { length bytes.now ≤ 65536 }
    requires cut { IsCut bytes.now words.now }
    ensures { IfOk result (IsReadingOf bytes.now) }
{
    let tree = match parse(alloc, bytes, words) {
        Ok(tree) => tree,
        Err(SyntaxRefused::Syntax { word }) => {
            return Ok(Reading::Refused(placed_text(alloc, b"syntax", b"word", word)?));
        }
        Err(SyntaxRefused::Memory) => return Err(AllocError),
    };
    match declared(alloc, &tree)? {
        Typed::Specification(spec) => Ok(Reading::Specified(tree, spec)),
        Typed::Faulty(text) => Ok(Reading::Refused(text)),
    }
}

/// What some bytes are, of which there aren't too many.
pub fn read_bytes(alloc: Global, bytes: &[u8]) -> Result<Reading, AllocError>
    requires { length bytes.now ≤ 65536 }
    ensures { IfOk result (IsReadingOf bytes.now) }
{
    match cut(alloc, bytes) {
        Ok(words) => read_words(alloc, bytes, words.as_slice()),
        Err(CutRefused::Letter { at }) => {
            Ok(Reading::Refused(placed_text(alloc, b"letter", b"at", at as usize)?))
        }
        Err(CutRefused::TooLongName { at }) => {
            Ok(Reading::Refused(placed_text(alloc, b"name", b"at", at as usize)?))
        }
        Err(CutRefused::TooLongNumber { at }) => {
            Ok(Reading::Refused(placed_text(alloc, b"number", b"at", at as usize)?))
        }
        Err(CutRefused::Memory) => Err(AllocError),
    }
}

/// The most bytes of a specification.
pub const SPECIFICATION_LIMIT: usize = 65_536;

/// The text where there are too many bytes.
fn too_long(alloc: Global) -> Result<Vec<u8>, AllocError>
    ensures { (bytes : List ℕ) → 65536 < length bytes
        → IfOk result (λ text. SaysRefusal bytes text.items) }
{
    Vec::from_slice(alloc, b"refused specification long\n")
}

/// What the bytes that a source gives are. Of more bytes than the limit it reads one, and no further.
pub fn read_specification<S: Source>(alloc: Global, spec: &mut S) -> Result<Reading, Stopped>
    ensures ok { IfOk result (IsReadingFrom (S.left spec.old)) }
    ensures fault { IsErrOf result Stopped.Fault → IsFault (S.faults spec.old) (S.faults spec.new) }
    ensures end { OnOk result (IsReadWithin 65536 (S.left spec.old) (S.left spec.new)) }
{
    match read_up_to(alloc, spec, SPECIFICATION_LIMIT) {
        Ok(bytes) => match read_bytes(alloc, bytes.as_slice()) {
            Ok(reading) => Ok(reading),
            Err(_) => Err(Stopped::Memory),
        },
        Err(ReadRefused::TooLong) => match too_long(alloc) {
            Ok(text) => Ok(Reading::Refused(text)),
            Err(_) => Err(Stopped::Memory),
        },
        Err(ReadRefused::Fault) => Err(Stopped::Fault),
        Err(ReadRefused::Memory) => Err(Stopped::Memory),
    }
}
