// Ids that are compared.

ghost use Rattle.std.specs.Prelude.{◌≡◌};
ghost use Rattle.token_protocol.specs.Ids.{same_id};

use crate::message::EventId;

/// Whether two ids are one: the same turn of the same replica.
pub fn same_id(a: EventId, b: EventId) -> bool
    ensures { result ≡ same_id a b }
{
    a.replica == b.replica && a.turn == b.turn
}
