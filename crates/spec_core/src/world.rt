// Worlds, and calls in them.

ghost use Rattle.std.specs.Prelude.{◌≡◌};
ghost use Rattle.spec_core.specs.World.{size_of};

use items::Items;

/// The number of elements of each sort, and the element of each constant. An element of a sort is a number below the sort's size.
#[derive(Drop)]
pub struct World {
    pub sizes: Items<u32>,
    pub consts: Items<u32>,
}

/// An operation, by its place, with arguments: an element for a parameter of a sort, else a whole number.
#[derive(Drop)]
pub struct Call {
    pub op: u8,
    pub args: Items<i64>,
}

impl World {
    /// How many elements a sort has; 0 where there is no such sort.
    pub fn size(&self, sort: u8) -> u32
        ensures { result ≡ size_of self.now sort }
    {
        self.sizes
            .as_slice()
            .get(sort as usize)
            .copied()
            .unwrap_or(0)
    }
}
