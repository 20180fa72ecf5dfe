// The calls of an obligation, at constants.

use items::Items;

/// What stands for an argument: a constant, or the number of an integer name.
#[derive(Clone, Copy)]
pub enum GroundArg {
    Elem(u32),
    Int(u32),
}

/// A call of an operation, with a constant or an integer name for each parameter.
#[derive(Drop)]
pub struct GroundCall {
    pub op: u8,
    pub args: Items<GroundArg>,
}
