// The command `spell`: a specification's words in the layout of the language.
ghost use Rattle.std.specs.Prelude.{◌≢◌};
ghost use Rattle.byte_ports.specs.{Ports.{port_of}, Ending.{Ends}};
ghost use Rattle.spec_trees.specs.Form.{tree_of};
ghost use Rattle.cise_program.specs.commands.Spell.{IsSpelled, IsSpellFront};

use byte_ports::{MEMORY, Sink, write_answer};
use spec_trees::{Tree, spell};
use std::alloc::Global;

/// Spells the tree of a specification.
pub fn spell_tree<K: Sink>(alloc: Global, tree: &Tree, out: &mut K) -> u8
    ensures ends { Ends (IsSpelled (tree_of tree.now)) (IsSpellFront (tree_of tree.now)) result
        (port_of K.held K.faults out.old) (port_of K.held K.faults out.new) }
    ensures no_source { result ≢ 6 }
{
    match spell(alloc, tree) {
        Ok(text) => write_answer(out, 0, text.as_slice()),
        Err(_) => MEMORY,
    }
}
