// The places that are eliminated, in their order, with a flag for each place, so that it takes no look through the order whether a
// place is among them.
ghost use Rattle.std.specs.Prelude.{◌≡◌, ℕ, ◌≤◌, ◌<◌, false, true, length, take, slice_index_or};
ghost use Rattle.std.specs.Prelude.{slice_set, IfOk, OnOk, OnErr, [], ◌∷◌, ◌++◌};
ghost use Rattle.proof_lines.specs.Numbers.{stands_in};

use items::Items;
use std::alloc::{AllocError, Global};
use std::marker::Model;

/// Places in an order. Contracts see the list.
#[derive(Drop)]
pub struct Order {
    places: Items<u32>,
    flags: Vec<bool>,
}

impl Model for Order {
    ghost use Rattle.std.specs.Prelude.{List, ℕ, ◌≡◌, false, slice_index_or};
    ghost use Rattle.proof_lines.specs.Numbers.{stands_in};

    ghost Value = { List ℕ };

    ghost view = { λ a. a.places };

    ghost invariant = { λ a. (q : ℕ)
        → slice_index_or a.flags.items q false ≡ stands_in a.places q };
}

impl Order {
    /// No places.
    pub fn new(alloc: Global) -> Order
        ensures { result ≡ [] }
    {
        Order {
            places: Items::new(alloc),
            flags: Vec::new(alloc),
        }
    }

    /// Adds a place at the end.
    pub fn push(&mut self, place: u32) -> Result<(), AllocError>
        ensures { OnOk result (self.new ≡ self.old ++ place ∷ []) }
    {
        make_room(&mut self.flags, place as usize)?;
        self.places.push(place)?;
        self.flags[place as usize] = true;
        Ok(())
    }

    /// Whether a place is among them.
    pub fn holds(&self, place: u32) -> bool
        ensures { result ≡ stands_in self.now place }
    {
        self.flags.get(place as usize).copied().unwrap_or(false)
    }

    /// The places, in the order in which they were added.
    pub fn as_slice(&self) -> &[u32]
        ensures { result.now ≡ self.now }
    {
        self.places.as_slice()
    }

    /// The places in their order, without the flags.
    pub fn into_items(self) -> Items<u32>
        ensures { result ≡ self }
    {
        self.places
    }

    /// How many places there are.
    pub fn len(&self) -> usize
        ensures { result ≡ length self.now }
    {
        self.places.len()
    }
}

// Flags up to a place, the new ones false.
fn make_room(flags: &mut Vec<bool>, place: usize) -> Result<(), AllocError>
    ensures same { (q : ℕ) → slice_index_or flags.new.items q false
        ≡ slice_index_or flags.old.items q false }
    ensures room { OnOk result (place < length flags.new.items) }
{
    while flags.len() <= place {
        flags.push(false)?;
    }
    Ok(())
}

/// The first places of an order.
pub fn prefix(alloc: Global, order: &Order, count: usize) -> Result<Order, AllocError>
    requires { count ≤ length order.now }
    ensures { IfOk result (λ front. front ≡ take count order.now) }
{
    let mut front = Order::new(alloc);
    for place in &order.as_slice()[..count] {
        front.push(*place)?;
    }
    Ok(front)
}
