// Updates: what an operation does to relations and counters.

use crate::formula::{Elem, Formula, Term};
use items::Items;
use std::marker::Model;

/// A relation or a counter, by its place.
#[derive(Clone, Copy, PartialEq, Eq, Debug)]
pub enum Thing {
    Relation(u8),
    Counter(u8),
}

/// Which elements of one place an update reaches.
#[derive(Clone, Copy)]
pub enum Spot {
    Every,
    One(Elem),
}

/// What happens to a reading. The first two are for relations, the others for counters.
#[derive(Drop)]
pub enum Change {
    Insert,
    Remove,
    Add(Term),
    Set(Term),
}

/// A change of a thing at all tuples or keys that the spots match, where the guard is true. Contracts see it as an `UpdateLine`.
#[derive(Drop)]
pub struct Update {
    pub thing: Thing,
    pub at: Items<Spot>,
    pub change: Change,
    pub guard: Formula,
}

impl Model for Update {
    ghost use Rattle.std.specs.Coded.{codes};
    ghost use Rattle.spec_core.specs.{Code.{coded_form}, Form.{form_of}, UpdateLine.{UpdateLine}};

    ghost Value = { UpdateLine };

    ghost coded = { Prim.hlevel (codes, coded_form) };

    ghost view = { λ a. record {
      thing = a.thing;
      at = a.at;
      change = a.change;
      guard = form_of a.guard;
    } };
}
