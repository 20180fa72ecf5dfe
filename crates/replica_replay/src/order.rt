// What a replica has taken: the events in their order, with a mark for each, so that one look-up says whether an event was taken.

ghost use Rattle.std.specs.Prelude.{◌≡◌, ℕ, ◌<◌, Bool, false, [], ◌∷◌, ◌++◌, length, get_or, OnOk};
ghost use Rattle.std.specs.{Prelude.{OnErr}, List.{find}};
ghost use Rattle.replica_replay.specs.{Held.{is_taken}, Refusals.{first_untaken}};

use std::alloc::{AllocError, Global};
use std::marker::Model;

/// Events in the order in which a replica took them.
#[derive(Drop)]
pub struct Order {
    events: Vec<u32>,
    marks: Vec<bool>,
}

impl Model for Order {
    ghost use Rattle.std.specs.Prelude.{List, ℕ, ◌≡◌, false, get_or};
    ghost use Rattle.replica_replay.specs.Held.{is_taken};

    ghost Value = { List ℕ };

    ghost view = { λ a. a.events.items };

    ghost invariant = { λ a. (e : ℕ) → get_or a.marks.items e false ≡ is_taken a.events.items e };
}

fn mark_up_to(marks: &mut Vec<bool>, event: usize) -> Result<(), AllocError>
    ensures same { (e : ℕ) → get_or marks.new.items e false ≡ get_or marks.old.items e false }
    ensures room { OnOk result (event < length marks.new.items) }
{
    while marks.len() <= event {
        marks.push(false)?;
    }
    Ok(())
}

impl Order {
    /// Of a replica that has taken nothing. It asks for no memory before the first event.
    pub fn new(alloc: Global) -> Order
        ensures { result ≡ [] }
    {
        Order {
            events: Vec::new(alloc),
            marks: Vec::new(alloc),
        }
    }

    /// The events by their numbers, the oldest first.
    pub fn as_slice(&self) -> &[u32]
        ensures { result.now ≡ self.now }
    {
        self.events.as_slice()
    }

    /// Whether an event is among them.
    pub fn has(&self, event: u32) -> bool
        ensures { result ≡ is_taken self.now event }
    {
        match self.marks.get(event as usize) {
            Some(mark) => *mark,
            None => false,
        }
    }

    /// Puts an event behind the others.
    pub fn push(&mut self, event: u32) -> Result<(), AllocError>
        ensures ok { OnOk result (self.new ≡ self.old ++ event ∷ []) }
        ensures err { OnErr result (self.new ≡ self.old) }
    {
        mark_up_to(&mut self.marks, event as usize)?;
        self.events.push(event)?;
        self.marks[event as usize] = true;
        Ok(())
    }

    /// The first of some events that isn't among them.
    pub fn first_untaken(&self, events: &[u32]) -> Option<u32>
        ensures { result ≡ first_untaken self.now events.now }
    {
        for event in events {
            if !self.has(*event) {
                return Some(*event);
            }
        }
        None
    }
}
