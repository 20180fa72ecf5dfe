// The reasons for which a call gives no row.
ghost use Rattle.std.specs.Prelude.{◌≡◌};
ghost use Rattle.lin_rows.specs.declared.refused.RowRefused.TheVariants.{Memory};

use std::alloc::{AllocError, AllocFailed};

/// Why a call gives no row.
#[derive(Clone, Copy, PartialEq, Eq, Debug)]
pub enum RowRefused {
    /// A needed product or sum leaves the range of a row, -(2^127 - 1) to 2^127 - 1.
    Range,
    /// There was no memory for the result.
    Memory,
}

impl From<AllocError> for RowRefused {
    ghost from_gives = { λ _ e. e ≡ Memory };

    fn from(_e: AllocError) -> RowRefused {
        RowRefused::Memory
    }
}

impl<T: Drop> From<AllocFailed<T>> for RowRefused {
    ghost from_gives = { λ _ e. e ≡ Memory };

    fn from(_e: AllocFailed<T>) -> RowRefused {
        RowRefused::Memory
    }
}
