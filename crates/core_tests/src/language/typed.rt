// What a tree is: the specification that it declares, or the least of what is wrong with it.
//
// Each of the trees that are refused has two faults. Words count from 0, and the second fault stands at a later one.

ghost use Rattle.spec_trees.specs.{Form.{tree_of}, Trees.{IsTree}};

use spec_core::{Name, Spec};
use spec_from_bytes::Reading;
use spec_reader::parse;
use spec_trees::Tree;
use spec_types::{TypeRefused, type_tree};
use std::alloc::Global;
use std::process::Abort;
use word_cut::cut;

// What is wrong with a name.
#[derive(Clone, Copy, PartialEq, Eq)]
enum Fault {
    Unknown,
    Twice,
    Kind,
    Count,
}

// A text, and its least fault: the kind, the name and the word.
type Case = (&'static [u8], Fault, &'static [u8], u32);

static FAULTY: [Case; 5] = [
    (
        b"cise 1 relation r ( A ) relation s ( B )",
        Fault::Unknown,
        b"A",
        5,
    ),
    (b"cise 1 relation r relation r ( B )", Fault::Twice, b"r", 5),
    (
        b"cise 1 operation f ( x : A ) insert r ( x ) end relation r",
        Fault::Unknown,
        b"A",
        7,
    ),
    (
        b"cise 1 sort A relation r ( A ) invariant i forall x : r . q ( x )",
        Fault::Kind,
        b"r",
        14,
    ),
    (
        b"cise 1 sort A relation r ( A ) invariant i forall x : A . ( r ( x , x ) and s )",
        Fault::Count,
        b"r",
        17,
    ),
];

// The tree of a text. A text that isn't read ends the test.
fn tree(rt: &impl Abort, alloc: Global, text: &[u8]) -> Tree
    ensures { IsTree (tree_of result) }
{
    assert!(rt; text.len() <= 65536);
    let Ok(words) = cut(alloc, text) else {
        panic!(rt; "no words");
    };
    let Ok(tree) = parse(alloc, text, words.as_slice()) else {
        panic!(rt; "no tree");
    };
    drop(words);
    tree
}

fn is_at(found: &Name, at: u32, name: &[u8], word: u32) -> bool {
    found.bytes() == name && at == word
}

fn is_refused(refused: &TypeRefused, fault: Fault, name: &[u8], word: u32) -> bool {
    match refused {
        TypeRefused::Unknown {
            name: found,
            word: at,
        } => fault == Fault::Unknown && is_at(found, *at, name, word),
        TypeRefused::Twice {
            name: found,
            word: at,
        } => fault == Fault::Twice && is_at(found, *at, name, word),
        TypeRefused::Kind {
            name: found,
            word: at,
        } => fault == Fault::Kind && is_at(found, *at, name, word),
        TypeRefused::Count {
            name: found,
            word: at,
        } => fault == Fault::Count && is_at(found, *at, name, word),
        TypeRefused::Limit { .. } => false,
        TypeRefused::Memory => false,
    }
}

// Whether the tree of a text is no specification, for this fault.
fn has_fault(
    rt: &impl Abort,
    alloc: Global,
    text: &[u8],
    fault: Fault,
    name: &[u8],
    word: u32,
) -> bool {
    let tree = tree(rt, alloc, text);
    match type_tree(alloc, &tree) {
        Ok(spec) => {
            Reading::Specified(tree, spec).let_go();
            false
        }
        Err(refused) => {
            drop(tree);
            let same = is_refused(&refused, fault, name, word);
            drop(refused);
            same
        }
    }
}

#[test]
fn the_least_of_two_faults_is_named(rt: HostRuntime) {
    for (text, fault, name, word) in &FAULTY {
        assert!(&rt; has_fault(&rt, rt.alloc(), text, *fault, name, *word));
    }
}

// Whether a specification has one relation and one operation, of these names.
fn declares(spec: &Spec, relation: &[u8], operation: &[u8]) -> bool {
    match (spec.relations.as_slice(), spec.operations.as_slice()) {
        ([one], [other]) => one.name.bytes() == relation && other.name.bytes() == operation,
        _ => false,
    }
}

// Whether the tree of a text is a specification with one relation and one operation, of these names.
fn is_specified(
    rt: &impl Abort,
    alloc: Global,
    text: &[u8],
    relation: &[u8],
    operation: &[u8],
) -> bool {
    let tree = tree(rt, alloc, text);
    match type_tree(alloc, &tree) {
        Ok(spec) => {
            let same = declares(&spec, relation, operation);
            Reading::Specified(tree, spec).let_go();
            same
        }
        Err(refused) => {
            drop(tree);
            drop(refused);
            false
        }
    }
}

#[test]
fn a_tree_without_a_fault_is_a_specification(rt: HostRuntime) {
    let text = b"cise 1 sort A relation r ( A ) operation put ( x : A ) insert r ( x ) end";
    assert!(&rt; is_specified(&rt, rt.alloc(), text, b"r", b"put"));
}
