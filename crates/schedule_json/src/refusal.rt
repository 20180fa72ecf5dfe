// Why a text is no schedule.

ghost use Rattle.std.specs.Prelude.{◌≡◌};
ghost use Rattle.schedule_json.specs.Checks.{fault_at};

use spec_core::Name;
use std::alloc::AllocError;

/// A place in a schedule.
#[derive(Drop)]
pub enum Path {
    /// The whole value.
    Top,
    Sizes,
    /// The size of a sort.
    Size(Name),
    Constants,
    /// The element of a constant.
    Constant(Name),
    Replicas,
    Steps,
    /// A step, by its number from 0.
    Step(u32),
}

/// What is wrong at a place.
#[derive(Clone, Copy)]
pub enum Fault {
    /// What stands there isn't of the form that is asked.
    Shape,
    /// A number or a list there is too large or too small.
    Size,
}

impl Fault {
    /// The refusal of a fault at a place.
    pub fn at(self, path: Path) -> ScheduleRefused
        ensures { result ≡ fault_at path self }
    {
        match self {
            Fault::Shape => ScheduleRefused::Shape { path },
            Fault::Size => ScheduleRefused::Size { path },
        }
    }
}

/// Why a text is no schedule of a specification.
#[derive(Drop)]
pub enum ScheduleRefused {
    /// It isn't JSON.
    Json,
    /// What stands at a place isn't of the form that is asked there.
    Shape { path: Path },
    /// A number, or a list, at a place is too large or too small.
    Size { path: Path },
    /// There was no memory.
    Memory,
}

impl From<AllocError> for ScheduleRefused {
    ghost use Rattle.std.specs.Prelude.{◌≡◌};
    ghost use Rattle.schedule_json.specs.declared.refusal.ScheduleRefused.TheVariants.{Memory};

    ghost from_gives = { λ e r. r ≡ Memory };

    fn from(_: AllocError) -> Self {
        ScheduleRefused::Memory
    }
}
