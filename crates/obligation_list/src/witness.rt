// Witnesses: the values that may refute an obligation.

use items::Items;
use spec_core::{Call, World};
use spec_states::State;

/// A world, a state in it, the calls of an obligation in the order of its parts, and the elements at which its conclusion fails.
#[derive(Drop)]
pub struct Witness {
    pub world: World,
    pub state: State,
    pub calls: Items<Call>,
    pub elements: Items<u32>,
}
