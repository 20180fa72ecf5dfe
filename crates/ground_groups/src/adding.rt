// Whether a grounding has room for more formulas.
ghost use Rattle.std.specs.Prelude.{length};
ghost use Rattle.ground_groups.specs.Limited.{HasRoom, IsWithin};

use crate::grounding::Grounding;
use crate::refused::GroundRefused;

/// The greatest number of formulas of an obligation.
pub const MOST_FORMULAS: usize = 20_000;

/// Whether there is room for one more formula.
pub fn has_room(grounding: &Grounding) -> Result<(), GroundRefused>
    ensures { HasRoom result (length grounding.now.formulas) }
{
    if grounding.formulas.len() < MOST_FORMULAS {
        Ok(())
    } else {
        Err(GroundRefused::TooMany)
    }
}

/// Whether the formulas so far are within the limit.
pub fn within_limit(grounding: &Grounding) -> Result<(), GroundRefused>
    ensures { IsWithin result (length grounding.now.formulas) }
{
    if grounding.formulas.len() <= MOST_FORMULAS {
        Ok(())
    } else {
        Err(GroundRefused::TooMany)
    }
}
