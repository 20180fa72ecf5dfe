// Stages by their numbers.
ghost use Rattle.std.specs.Prelude.{◌≡◌};
ghost use Rattle.ground_numbers.specs.Stages.{stage_before, latest_call};

/// The stage that a stage follows; the entry for itself.
pub fn stage_before(stage: u8) -> u8
    ensures { result ≡ stage_before stage }
{
    match stage {
        2 => 1,
        4 => 3,
        _ => 0,
    }
}

/// The place of the call that a stage follows.
pub fn latest_call(stage: u8) -> u8
    ensures { result ≡ latest_call stage }
{
    match stage {
        0 | 1 | 4 => 0,
        2 | 3 => 1,
        other => other,
    }
}
