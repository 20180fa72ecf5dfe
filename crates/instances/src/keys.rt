// Which entries serve an obligation. It is a hint, and nothing is promised of it: whether an entry does is tested where it is used
// (src/entry.rt).
ghost use Rattle.obligation_list.specs.Obligations.{IsObligation};

use crate::entry::{Entry, is_alike};
use crate::grounding::numbered;
use ground_atoms::Atoms;
use ground_groups::{constants, operations_of};
use items::Items;
use obligation_list::Obligation;
use spec_core::Spec;
use std::alloc::{AllocError, Global};

/// What an obligation needs of an entry: the sorts of its constants, and the whole numbers among the arguments of its calls.
#[derive(Drop)]
pub struct EntryKey {
    sorts: Items<u8>,
    arguments: Atoms,
}

impl EntryKey {
    /// What this obligation needs.
    pub fn of(alloc: Global, spec: &Spec, ob: &Obligation) -> Result<EntryKey, AllocError>
        requires { IsObligation spec.now ob.now }
    {
        let ops = operations_of(alloc, ob)?;
        let arguments = numbered(alloc, spec, ob, ops.as_slice())?;
        let named = or_drop!(constants(alloc, spec, ob); arguments);
        Ok(EntryKey {
            sorts: named.sorts,
            arguments,
        })
    }

    /// Whether this entry has it.
    pub fn fits(&self, entry: &Entry) -> bool {
        is_alike(entry, self.sorts.as_slice(), &self.arguments)
    }
}
