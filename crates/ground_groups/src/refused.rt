// The reasons for which an obligation has no ground problem.
ghost use Rattle.std.specs.Prelude.{◌≡◌};
ghost use Rattle.ground_groups.specs.declared.refused.GroundRefused.TheVariants.{Memory};

use std::alloc::AllocError;

/// Why an obligation has no ground problem.
#[derive(Clone, Copy, PartialEq, Eq, Debug)]
pub enum GroundRefused {
    /// It has more than 20,000 formulas.
    TooMany,
    /// There was no memory for it.
    Memory,
}

impl From<AllocError> for GroundRefused {
    ghost from_gives = { λ _ e. e ≡ Memory };

    fn from(_e: AllocError) -> GroundRefused {
        GroundRefused::Memory
    }
}
