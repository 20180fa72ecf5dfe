// Texts that are made, read and spelled for the tests.
use spec_reader::{SyntaxRefused, parse};
use spec_trees::spell;
use std::alloc::{AllocError, Global};
use word_cut::cut;

// What reading a text comes to.
#[derive(Clone, Copy, PartialEq, Eq, Debug)]
pub enum Outcome {
    Read,
    // The word where reading stops.
    Stop(usize),
    // There are no words, or memory is wanting.
    Unread,
}

pub fn read(alloc: Global, text: &[u8]) -> Outcome {
    if text.len() > 65536 {
        return Outcome::Unread;
    }
    let Ok(words) = cut(alloc, text) else {
        return Outcome::Unread;
    };
    match parse(alloc, text, words.as_slice()) {
        Ok(tree) => {
            drop(tree);
            Outcome::Read
        }
        Err(SyntaxRefused::Syntax { word }) => Outcome::Stop(word),
        Err(SyntaxRefused::Memory) => Outcome::Unread,
    }
}

// Whether a text is read and spelled as another.
pub fn is_spelled(alloc: Global, text: &[u8], layout: &[u8]) -> bool {
    if text.len() > 65536 {
        return false;
    }
    let Ok(words) = cut(alloc, text) else {
        return false;
    };
    let Ok(tree) = parse(alloc, text, words.as_slice()) else {
        return false;
    };
    let spelled = spell(alloc, &tree);
    drop(tree);
    match spelled {
        Ok(found) => {
            let same = found.as_slice() == layout;
            drop(found);
            same
        }
        Err(_) => false,
    }
}

// An invariant in the layout, whose formula is an atom with so many fronts and backs round it.
pub fn nested(
    alloc: Global,
    count: usize,
    front: &[u8],
    back: &[u8],
) -> Result<Vec<u8>, AllocError> {
    let mut text = Vec::from_slice(alloc, b"cise 1\ninvariant i ")?;
    for _ in 0..count {
        text.extend_from_slice(front)?;
    }
    text.push(b'a')?;
    for _ in 0..count {
        text.extend_from_slice(back)?;
    }
    text.push(b'\n')?;
    Ok(text)
}
