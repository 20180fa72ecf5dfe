// The typing of a whole tree.

ghost use Rattle.std.specs.Prelude.{◌≡◌, map, true, Ok, IfOk, IfErr};
ghost use Rattle.spec_core.specs.Typed.{is_specification};
ghost use Rattle.spec_trees.specs.{Form.{item_of, tree_of}, Trees.{IsTree}};
ghost use Rattle.typing_rules.specs.Items.{typed_item, typed_items, typing};
ghost use Rattle.typing_rules.specs.FaultRules.{IsWritten, IsTypingOf};
ghost use Rattle.spec_types.specs.Refusals.{IsTypeRefusal, IsLeastRefusal, Makes};
ghost use Rattle.spec_types.specs.Views.{known_of};

use crate::declaring::{type_const, type_counter, type_relation, type_sort, type_token};
use crate::initials::type_initial;
use crate::known::{Known, nothing_known};
use crate::operations::{type_invariant, type_operation};
use crate::refusal::{Stop, TypeRefused, refused};
use crate::rules::type_conflict;
use spec_core::Spec;
use spec_trees::{Item, Tree};
use std::alloc::Global;
use typing_rules::{law_least_fault, law_typed_is_well_formed};

fn type_item<'t>(alloc: Global, known: &mut Known, item: &'t Item) -> Result<(), Stop<'t>>
    ensures { Makes (typed_item (known_of known.old) (item_of item.now))
        (known_of known.new) result }
{
    match item {
        Item::Sort(word, mark) => type_sort(alloc, known, *word, mark),
        Item::Const(word, mark, sort) => type_const(alloc, known, *word, mark, sort),
        Item::Relation(word, mark, sorts) => {
            type_relation(alloc, known, *word, mark, sorts.as_slice())
        }
        Item::Counter(word, mark, sorts) => {
            type_counter(alloc, known, *word, mark, sorts.as_slice())
        }
        Item::Initially(word, mark, value) => type_initial(alloc, known, *word, mark, value),
        Item::Token(word, mark, sorts) => type_token(alloc, known, *word, mark, sorts.as_slice()),
        Item::Conflict(word, left, right) => type_conflict(alloc, known, *word, left, right),
        Item::Invariant(word, mark, sentence) => {
            type_invariant(alloc, known, *word, mark, sentence)
        }
        Item::Operation(word, mark, params, lines) => {
            let (params, lines) = (params.as_slice(), lines.as_slice());
            type_operation(alloc, known, *word, mark, params, lines)
        }
    }
}

fn type_items<'t>(alloc: Global, known: &mut Known, items: &'t [Item]) -> Result<(), Stop<'t>>
    ensures { Makes (typed_items (known_of known.old)
        (map item_of items.now)) known.new.draft result }
{
    for item in items {
        type_item(alloc, known, item)?;
    }
    Ok(())
}

/// The specification that is known.
fn finished(known: Known) -> Spec
    requires { is_specification known.draft ≡ true }
    ensures { result ≡ known.draft }
{
    known.draft.into_spec()
}

/// The specification that a tree of the grammar is, or the first thing that is wrong with it.
fn typed(alloc: Global, tree: &Tree) -> Result<Spec, TypeRefused>
    requires { IsTree (tree_of tree.now) }
    ensures ok { IfOk result (λ spec. typing (tree_of tree.now) ≡ Ok spec) }
    ensures err { IfErr result (IsTypeRefusal (typing (tree_of tree.now))) }
{
    let mut known = nothing_known(alloc, tree.version);
    match type_items(alloc, &mut known, tree.items.as_slice()) {
        Ok(()) => {}
        Err(Stop::Fault(fault)) => {
            drop(known);
            return Err(refused(alloc, fault));
        }
        Err(Stop::Memory) => {
            drop(known);
            return Err(TypeRefused::Memory);
        }
    }
    law_typed_is_well_formed();
    Ok(finished(known))
}

/// The specification that a tree of the grammar is, or what is wrong with it; `TypeRefused` says which that is.
pub fn type_tree(alloc: Global, tree: &Tree) -> Result<Spec, TypeRefused>
    requires { IsTree (tree_of tree.now) }
    ensures ok { IfOk result (λ spec. typing (tree_of tree.now) ≡ Ok spec) }
    ensures err { IfErr result (IsTypeRefusal (typing (tree_of tree.now))) }
    ensures faultless { IsWritten (tree_of tree.now)
        → IfOk result (λ spec. IsTypingOf (tree_of tree.now) (Ok spec)) }
    ensures least { IsWritten (tree_of tree.now)
        → IfErr result (IsLeastRefusal (tree_of tree.now)) }
{
    law_least_fault();
    typed(alloc, tree)
}
