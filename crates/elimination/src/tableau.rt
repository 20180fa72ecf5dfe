// The rows that are held while places are eliminated.
ghost use Rattle.std.specs.Prelude.{◌≡◌, [], ◌∷◌, ◌++◌, OnOk};

use crate::held::Held;
use crate::order::Order;
use items::Items;
use lin_rows::Row;
use proof_lines::RowStep;
use std::alloc::{AllocError, Global};

/// As many held rows end the elimination.
pub const ROW_LIMIT: usize = 10_000;

/// The state of an elimination. The held rows are numbered as in a line of the proof kernel: first the used ones, tightened, then
/// those of the steps.
#[derive(Drop)]
pub struct Tableau {
    /// How many integer names there are.
    pub ints: u32,
    /// The numbers of the used given rows.
    pub used: Items<u32>,
    pub steps: Items<RowStep>,
    pub held: Held,
    /// The places that are eliminated, in their order.
    pub order: Order,
    /// The places that are left.
    pub left: Items<u32>,
}

impl Tableau {
    /// With a given row more.
    pub fn push_given(&mut self, alloc: Global, number: u32, row: Row) -> Result<(), AllocError>
        ensures { OnOk result
            (self.new
            ≡ record self.old
            { used = self.old.used ++ number ∷ []; held = self.old.held ++ row ∷ [] }) }
    {
        self.used.push(number)?;
        self.held.push(alloc, row)
    }

    /// With a step and its row more.
    pub fn push_step(&mut self, alloc: Global, step: RowStep, row: Row) -> Result<(), AllocError>
        ensures { OnOk result
            (self.new
            ≡ record self.old
            { steps = self.old.steps ++ step ∷ []; held = self.old.held ++ row ∷ [] }) }
    {
        self.steps.push(step)?;
        self.held.push(alloc, row)
    }
}
