// A value beyond the range of a state, at a key of some counter.

use items::Items;

/// A key of a counter whose value would leave the range of a state, and that value.
#[derive(Drop)]
pub struct Outside {
    pub key: Items<u32>,
    pub value: i128,
}
