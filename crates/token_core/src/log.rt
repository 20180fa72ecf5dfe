// What was sent in a network, and what happened.

ghost use Rattle.std.specs.Prelude.{◌≡◌, ◌<◌, ◌^◌, false, [], ◌∷◌, ◌++◌, length, vec_len};
ghost use Rattle.std.specs.Prelude.{vec_capacity, OnOk};
ghost use Rattle.token_protocol.specs.Network.{number_of};
ghost use Rattle.token_core.specs.Log.{lists_of, no_lists, HasRoom};

use items::SharedList;
use spec_core::Call;
use std::alloc::{AllocError, Global};
use std::marker::Model;
use token_protocol::{EventId, Message, Request, same_id};

/// The event of a call: the call, and the numbers of the events that its replica had taken before it, in that order.
#[derive(Drop)]
pub struct CallEvent {
    pub call: Call,
    pub seen: SharedList<u32>,
}

impl Model for CallEvent {
    ghost use Rattle.spec_core.specs.declared.world.Call.{Call};
    ghost use Rattle.executions.specs.Orders.{Event};

    ghost Value = { Event Call };

    ghost view = { λ e. record { call = e.call; seen = e.seen } };
}

/// A call that was run: its id, and its event.
#[derive(Drop)]
pub struct Happened {
    pub id: EventId,
    pub event: CallEvent,
}

impl Model for Happened {
    ghost use Rattle.token_protocol.specs.Network.{Happened as HappenedCall};

    ghost Value = { HappenedCall };

    ghost view = { λ h. record { id = h.id; event = h.event } };
}

/// The requests and the messages so far, and the calls that were run.
#[derive(Drop)]
pub struct Log {
    pub requests: Vec<Request>,
    pub messages: Vec<Message>,
    pub happened: Vec<Happened>,
}

/// Room for one element more.
pub fn make_room<T: Drop>(list: &mut Vec<T>) -> Result<(), AllocError>
    ensures same { list.new.items ≡ list.old.items }
    ensures room { OnOk result (vec_len list.new < vec_capacity list.new) }
{
    list.reserve(1)
}

/// Puts an element into its room.
pub fn put<T: Drop>(list: &mut Vec<T>, item: T)
    requires { vec_len list.old < vec_capacity list.old }
    ensures { list.new.items ≡ list.old.items ++ item ∷ [] }
{
    let _ = list.push(item);
}

/// The number of the event of a call; how many there are, where there is none.
pub fn number_of(happened: &[Happened], id: EventId) -> usize
    ensures { result ≡ number_of happened.now id }
{
    for (number, other) in happened.iter().enumerate() {
        if same_id(other.id, id) {
            return number;
        }
    }
    happened.len()
}

impl Log {
    /// A log of nothing.
    pub fn new(alloc: Global) -> Log
        ensures { lists_of result ≡ no_lists }
    {
        Log {
            requests: Vec::new(alloc),
            messages: Vec::new(alloc),
            happened: Vec::new(alloc),
        }
    }

    // Whether a list is so long that its next number would be none of 32 bits.
    fn is_full(&self) -> bool
        ensures { result ≡ false
            → (length self.now.requests.items < 2 ^ 32) × (length self.now.messages.items < 2 ^ 32)
            × (length self.now.happened.items < 2 ^ 32) }
    {
        let most = u32::MAX as usize;
        self.requests.len() >= most || self.messages.len() >= most || self.happened.len() >= most
    }

    /// Room for a request, a message and an event more.
    pub fn make_room(&mut self) -> Result<(), AllocError>
        ensures same { lists_of self.new ≡ lists_of self.old }
        ensures room { OnOk result (HasRoom self.new) }
    {
        if self.is_full() {
            return Err(AllocError);
        }
        make_room(&mut self.requests)?;
        make_room(&mut self.messages)?;
        make_room(&mut self.happened)
    }
}
