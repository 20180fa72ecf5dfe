// The text that says what is wrong with a tree.
ghost use Rattle.std.specs.Prelude.{◌≡◌, IfOk, codes, decimal, [], ◌∷◌};
ghost use Rattle.typing_rules.specs.Fault.{limit_fault};
ghost use Rattle.spec_from_bytes.specs.Lines.{line};
ghost use Rattle.spec_from_bytes.specs.Refusal.{faulty, refusal_text, which_word, named_words};

use crate::texts::{push, push_named};
use std::alloc::{AllocError, Global};
use typing_rules::Which;

/// The word of a limit.
fn which_word(which: Which) -> &'static [u8]
    ensures { result.now ≡ which_word which }
{
    match which {
        Which::Sorts => b"sorts",
        Which::Constants => b"constants",
        Which::Relations => b"relations",
        Which::Counters => b"counters",
        Which::Tokens => b"tokens",
        Which::Conflicts => b"conflicts",
        Which::Invariants => b"invariants",
        Which::Operations => b"operations",
        Which::Parameters => b"parameters",
        Which::Variables => b"variables",
        Which::Places => b"places",
        Which::Requires => b"requires",
        Which::Updates => b"updates",
        Which::Takes => b"takes",
        Which::Observes => b"observes",
        Which::Summands => b"summands",
        Which::Nodes => b"nodes",
        Which::Literal => b"literal",
    }
}

/// The line of a fault at a name: what is wrong, the name, and the place of its word.
pub fn named_text(alloc: Global, what: &[u8], name: &[u8], word: u32) -> Result<Vec<u8>, AllocError>
    ensures { IfOk result
        (λ text. text.items
        ≡ line (codes "refused" ∷ codes "specification" ∷ named_words what.now name.now word)) }
{
    let mut text = Vec::new(alloc);
    push(&mut text, b"refused specification ")?;
    push_named(alloc, &mut text, what, name, word)?;
    Ok(text)
}

/// The line of a limit that is passed: the limit, the number that is reached, and the place of a word.
pub fn limit_text(
    alloc: Global,
    which: Which,
    number: u128,
    word: u32,
) -> Result<Vec<u8>, AllocError>
    ensures { IfOk result (λ text. text.items
        ≡ refusal_text (faulty (limit_fault which number word))) }
{
    let digits = number.to_string(alloc)?;
    let mut text = Vec::new(alloc);
    push(&mut text, b"refused specification limit ")?;
    push_named(alloc, &mut text, which_word(which), digits.as_bytes(), word)?;
    Ok(text)
}
