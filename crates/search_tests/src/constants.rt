// A solver of rows without names: each is a contradiction or true everywhere.
ghost use Rattle.std.specs.{Prelude.{◌≡◌, ◌<◌, true, false, length}, List.{list_all}};
ghost use Rattle.lin_rows.specs.Rows.{has_no_terms};

use items::Items;
use lin_rows::Row;
use std::alloc::Global;
use theory_api::{Theory, TheoryAnswer};

/// The solver of fewer than 1,000 rows without names.
#[derive(Drop)]
pub struct Constants;

impl Theory for Constants {
    ghost MAY_SPLIT = { false };

    ghost MAY_STOP = { false };

    ghost takes = { λ rows ints. (list_all (λ r. has_no_terms r.terms) rows ≡ true)
        × (length rows < 1000) × (ints ≡ 0) };

    const MAY_SPLIT: bool = false;

    const MAY_STOP: bool = false;

    fn check(&mut self, alloc: Global, rows: &[Row], ints: u32) -> TheoryAnswer {
        let mut number = 0u32;
        for row in rows {
            if row.is_contradiction() {
                let mut used = Items::new(alloc);
                let Ok(()) = used.push(number) else {
                    return TheoryAnswer::Memory;
                };
                return TheoryAnswer::Conflict {
                    used,
                    steps: Items::new(alloc),
                };
            }
            number += 1;
        }
        TheoryAnswer::Model(Items::new(alloc))
    }

    ghost takes_all = { λ h rows ints p. absurd Prim.cc };
}
