// Ids in an order, and a set of them, so that one look-up says whether an id is one of them.
//
// The set is a list of marks, in which the place of an id is told by its numbers, so that looking up costs next to nothing: a node asks for
// each call that an event has seen. Ids whose places are far away stand in a set of pairs.

ghost use Rattle.std.specs.Prelude.{◌≡◌, ℕ, ◌<◌, true, false, ◌||◌, [], ◌∷◌, ◌++◌, length, get_or};
ghost use Rattle.std.specs.Prelude.{OnOk, OnErr, IfOk};
ghost use Rattle.token_protocol.specs.declared.message.EventId.{EventId as Id};
ghost use Rattle.token_protocol.specs.Ids.{same_id, is_among, first_outside};
ghost use Rattle.token_core.specs.Members.{has_id, room, mark_of, is_marked};

use items::SharedList;
use std::alloc::{AllocError, Global};
use std::collections::HashSet;
use std::marker::Model;
use token_protocol::EventId;

/// The ids of so many replicas can have marks.
const MARKED_REPLICAS: u32 = 64;

/// A mark is at most so many places behind those that there are, so that one id takes little memory.
const NEAR: usize = 4096;

/// Ids in the order in which they were added. Contracts see the list.
#[derive(Drop)]
pub struct Ids {
    list: SharedList<EventId>,
    marks: Vec<bool>,
    members: HashSet<(u32, u32)>,
}

impl Model for Ids {
    ghost use Rattle.std.specs.Prelude.{List, ◌≡◌, ◌||◌};
    ghost use Rattle.token_protocol.specs.declared.message.EventId.{EventId as Id};
    ghost use Rattle.token_protocol.specs.Ids.{is_among};
    ghost use Rattle.token_core.specs.Members.{has_id, is_marked};

    ghost Value = { List Id };

    ghost view = { λ a. a.list };

    ghost invariant = { λ a. (id : Id) → (is_marked a.marks.items id || has_id a.members id) ≡ is_among a.list id };
}

// The place of an id's mark.
fn mark_of(id: EventId) -> usize
    ensures { result ≡ mark_of id }
{
    id.turn as usize * 64 + id.replica as usize
}

fn is_marked(marks: &[bool], id: EventId) -> bool
    ensures { result ≡ is_marked marks.now id }
{
    if id.replica >= MARKED_REPLICAS {
        return false;
    }
    match marks.get(mark_of(id)) {
        Some(mark) => *mark,
        None => false,
    }
}

// Whether an id can have a mark that isn't far behind the others.
fn is_near(marks: &[bool], id: EventId) -> bool
    ensures { result ≡ true → id.replica < 64 }
{
    id.replica < MARKED_REPLICAS && mark_of(id) < marks.len().saturating_add(NEAR)
}

fn mark_up_to(marks: &mut Vec<bool>, place: usize) -> Result<(), AllocError>
    ensures same { (p : ℕ) → get_or marks.new.items p false ≡ get_or marks.old.items p false }
    ensures room { OnOk result (place < length marks.new.items) }
{
    while marks.len() <= place {
        marks.push(false)?;
    }
    Ok(())
}

fn mark(marks: &mut Vec<bool>, id: EventId)
    requires replica { id.replica < 64 }
    requires room { mark_of id < length marks.old.items }
    ensures { (other : Id)
        → is_marked marks.new.items other ≡ (is_marked marks.old.items other || same_id other id) }
{
    let place = mark_of(id);
    marks[place] = true;
}

fn has_id(members: &HashSet<(u32, u32)>, id: EventId) -> bool
    ensures { result ≡ has_id members.now id }
{
    members.contains(&(id.replica, id.turn))
}

// Room for one id more.
fn make_room(members: &mut HashSet<(u32, u32)>) -> Result<(), AllocError>
    ensures same { (id : Id) → has_id members.new id ≡ has_id members.old id }
    ensures room { OnOk result (0 < room members.new) }
{
    members.reserve(1)
}

fn note(members: &mut HashSet<(u32, u32)>, id: EventId)
    requires { 0 < room members.old }
    ensures { (other : Id)
        → has_id members.new other ≡ (has_id members.old other || same_id other id) }
{
    let _ = members.insert((id.replica, id.turn));
}

impl Ids {
    /// No id yet. It asks for no memory before the first one.
    pub fn new(alloc: Global) -> Ids
        ensures { result ≡ [] }
    {
        Ids {
            list: SharedList::new(alloc),
            marks: Vec::new(alloc),
            members: HashSet::new(alloc),
        }
    }

    /// A copy of the list, which shares most of it.
    pub fn listed(&self) -> Result<SharedList<EventId>, AllocError>
        ensures { IfOk result (λ list. list ≡ self.now) }
    {
        self.list.share()
    }

    /// Whether an id is one of them.
    pub fn has(&self, id: EventId) -> bool
        ensures { result ≡ is_among self.now id }
    {
        is_marked(self.marks.as_slice(), id) || has_id(&self.members, id)
    }

    fn push_marked(&mut self, id: EventId) -> Result<(), AllocError>
        requires { id.replica < 64 }
        ensures ok { OnOk result (self.new ≡ self.old ++ id ∷ []) }
        ensures err { OnErr result (self.new ≡ self.old) }
    {
        mark_up_to(&mut self.marks, mark_of(id))?;
        self.list.push(id)?;
        mark(&mut self.marks, id);
        Ok(())
    }

    fn push_member(&mut self, id: EventId) -> Result<(), AllocError>
        ensures ok { OnOk result (self.new ≡ self.old ++ id ∷ []) }
        ensures err { OnErr result (self.new ≡ self.old) }
    {
        make_room(&mut self.members)?;
        self.list.push(id)?;
        note(&mut self.members, id);
        Ok(())
    }

    /// Puts an id behind the others.
    pub fn push(&mut self, id: EventId) -> Result<(), AllocError>
        ensures ok { OnOk result (self.new ≡ self.old ++ id ∷ []) }
        ensures err { OnErr result (self.new ≡ self.old) }
    {
        if is_near(self.marks.as_slice(), id) {
            self.push_marked(id)
        } else {
            self.push_member(id)
        }
    }

    /// The first of some ids that isn't one of them.
    pub fn first_outside(&self, ids: &[EventId]) -> Option<EventId>
        ensures { result ≡ first_outside self.now ids.now }
    {
        for id in ids {
            if !self.has(*id) {
                return Some(*id);
            }
        }
        None
    }
}
