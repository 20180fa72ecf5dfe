// What is wrong at a word, while the tree is there: names are copied where the answer is made.

ghost use Rattle.std.specs.Prelude.{◌≡◌, ◌<◌, IfNone};
ghost use Rattle.typing_rules.specs.Fault.{limit_at};
ghost use Rattle.spec_types.specs.faults.Views.{faulted};

use spec_trees::Mark;
use typing_rules::Which;

/// What is wrong at a word.
#[derive(Clone, Copy)]
pub enum Fault<'t> {
    Unknown(&'t Mark),
    Twice(&'t Mark),
    Kind(&'t Mark),
    /// An invariant begins with `exists`.
    Exists(u32),
    Count(&'t Mark),
    Limit(Which, u128, u32),
}

/// One more is one too many, where there are as many as there may be.
pub fn limit_at<'t>(which: Which, most: usize, count: usize, word: u32) -> Option<Fault<'t>>
    ensures gives { faulted result ≡ limit_at which most count word }
    ensures few { IfNone result (count < most) }
{
    if count < most {
        None
    } else {
        Some(Fault::Limit(which, most as u128 + 1, word))
    }
}
