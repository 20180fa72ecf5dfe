// How many rows stand on each side of each place, of those that name no place that is eliminated. No clause speaks of it: the counts
// tell only which place to eliminate next.
use lin_rows::{Row, RowTerm};
use std::alloc::{AllocError, Global};

/// For each place how many rows bound it from above, and how many from below.
#[derive(Drop)]
pub struct Counts {
    uppers: Vec<u32>,
    lowers: Vec<u32>,
}

// Zeros up to a place.
fn make_room(counts: &mut Vec<u32>, place: usize) -> Result<(), AllocError> {
    while counts.len() <= place {
        counts.push(0)?;
    }
    Ok(())
}

fn count_one(counts: &mut [u32], place: usize, more: bool) {
    if place < counts.len() {
        counts[place] = if more {
            counts[place].saturating_add(1)
        } else {
            counts[place].saturating_sub(1)
        };
    }
}

fn count_terms(counts: &mut Counts, terms: &[RowTerm], more: bool) {
    for term in terms {
        if term.coef > 0 {
            count_one(counts.uppers.as_mut_slice(), term.place as usize, more);
        } else {
            count_one(counts.lowers.as_mut_slice(), term.place as usize, more);
        }
    }
}

fn make_rooms(counts: &mut Counts, terms: &[RowTerm]) -> Result<(), AllocError> {
    for term in terms {
        make_room(&mut counts.uppers, term.place as usize)?;
        make_room(&mut counts.lowers, term.place as usize)?;
    }
    Ok(())
}

impl Counts {
    /// No counts: no row has any place.
    pub fn new(alloc: Global) -> Counts {
        Counts {
            uppers: Vec::new(alloc),
            lowers: Vec::new(alloc),
        }
    }

    /// Counts a row that is held from now on.
    pub fn add(&mut self, terms: &[RowTerm]) -> Result<(), AllocError> {
        make_rooms(self, terms)?;
        count_terms(self, terms, true);
        Ok(())
    }

    /// Counts the rows of some numbers no longer.
    pub fn set_aside(&mut self, rows: &[Row], numbers: &[u32]) {
        for number in numbers {
            if let Some(row) = rows.get(*number as usize) {
                count_terms(self, row.terms(), false);
            }
        }
    }

    /// How many pairs of an upper and a lower row a place has.
    pub fn pairs(&self, place: u32) -> u64 {
        let upper = self.uppers.get(place as usize).copied().unwrap_or(0);
        let lower = self.lowers.get(place as usize).copied().unwrap_or(0);
        u64::from(upper).saturating_mul(u64::from(lower))
    }
}
