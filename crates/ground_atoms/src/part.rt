// Summands of sums over integer names.
ghost use Rattle.std.specs.Prelude.{◌≡◌, IfOk};

use crate::atom::IntName;
use std::alloc::{AllocError, Global};

/// A number, or a multiple of what an integer name stands for.
#[derive(Drop)]
pub enum SumPart {
    Number(i128),
    Multiple(i64, IntName),
}

impl SumPart {
    /// A part equal to this one.
    pub fn copy(&self, alloc: Global) -> Result<SumPart, AllocError>
        ensures { IfOk result (λ p. p ≡ self.now) }
    {
        match self {
            SumPart::Number(n) => Ok(SumPart::Number(*n)),
            SumPart::Multiple(coef, name) => Ok(SumPart::Multiple(*coef, name.copy(alloc)?)),
        }
    }
}
