// What an interpretation is read back by.
use ground_atoms::{Atoms, GroundCall};

/// What an interpretation of a ground problem is read back by: atoms and integer names by their numbers, the sorts of the constants, the
/// elements of the conclusion, and the calls, each of these at constants.
#[derive(Clone, Copy)]
pub struct Named<'a> {
    pub atoms: &'a Atoms,
    pub sorts: &'a [u8],
    pub consts: &'a [u32],
    pub calls: &'a [GroundCall],
}
