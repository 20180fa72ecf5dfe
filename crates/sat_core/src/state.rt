// The state of a search: what its log has given so far, the trail, and the log.
ghost use Rattle.std.specs.{Prelude.{◌≡◌, [], ℕ, Bool, false, IfOk}, List.{list_any}};
ghost use Rattle.proof_lines.specs.Clauses.{is_empty};
ghost use Rattle.sat_core.specs.Searching.{InSearch};

use crate::trail::Trail;
use items::Items;
use proof_lines::{Line, Problem};
use std::alloc::{AllocError, Global};
use std::mem;

/// Where a search stands: its problem with the clauses and atoms that the lines of the log gave, the literals that it takes to be
/// true, and the log. What holds of it between chains is `InSearch`, and in a chain `InChain`.
#[derive(Drop)]
pub struct SearchState {
    pub grown: Problem,
    pub trail: Trail,
    pub log: Items<Line>,
}

impl SearchState {
    /// The state in which a search of a problem begins: without literals, and without lines. With 2^32 clauses or atoms a problem is
    /// answered as want of memory.
    pub fn begin(alloc: Global, problem: &Problem) -> Result<SearchState, AllocError>
        requires filled { list_any is_empty problem.now.clauses ≡ false }
        ensures trail { IfOk result (λ s. s.trail ≡ []) }
        ensures search { IfOk result (λ s. (split : Bool) (budget : ℕ)
            → InSearch (record { problem = problem.now; split = split }) budget s) }
    {
        let grown = problem.copy(alloc)?;
        if grown.clauses.len() > u32::MAX as usize || grown.atoms.len() > u32::MAX as usize {
            drop(grown);
            return Err(AllocError);
        }
        let trail = or_drop!(Trail::with_room(alloc, grown.atoms.len()); grown);
        Ok(SearchState {
            grown,
            trail,
            log: Items::new(alloc),
        })
    }

    /// Takes the log out of a search that has ended.
    pub fn take_log(&mut self, alloc: Global) -> Items<Line>
        ensures { result ≡ self.old.log }
    {
        mem::replace(&mut self.log, Items::new(alloc))
    }
}
