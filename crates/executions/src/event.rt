// Events.

use items::Items;
use spec_core::Call;
use std::marker::Model;

/// A call, and the events that its replica had taken before it, in that order.
///
/// Events go by their numbers: the places, from 0, in the list of all events.
#[derive(Drop)]
pub struct Event {
    pub call: Call,
    pub seen: Items<u32>,
}

impl Model for Event {
    ghost use Rattle.spec_core.specs.declared.world.Call.{Call};
    ghost use Rattle.executions.specs.Orders.{Event as EventOf};

    ghost Value = { EventOf Call };

    ghost view = { λ e. record { call = e.call; seen = e.seen } };
}
