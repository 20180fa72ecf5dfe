// The rows of a line in a list, with a table by which equal ones of the given rows are found.
//
// A given row stands where it is given, unless tightening changes it. Each stands in a chain of rows whose keys give the same slot. There
// are as many slots as given rows, so a chain is short. A row that a step makes is never looked for, and stands in none.
use lin_rows::{Row, same_row};
use std::alloc::Global;

/// A given row that is taken.
#[derive(Clone, Copy)]
struct Taken {
    /// Its number among the given rows.
    number: u32,
    /// Its place among the rows that the list owns, where tightening changed it.
    own: Option<usize>,
    /// A number that equal rows share, and different ones seldom.
    key: u64,
    /// The one before it in its slot.
    before: u32,
}

/// Rows in the order in which they were added.
#[derive(Drop)]
pub struct RowList<'r> {
    given: &'r [Row],
    taken: Vec<Taken>,
    /// The rows that tightening changed, and behind them those of the steps.
    own: Vec<Row>,
    changed: usize,
    /// The last given row of each slot.
    heads: Vec<u32>,
}

// The number of no row.
const NO_ROW: u32 = u32::MAX;

// A number of 64 bits for another one.
fn bits_of(number: i128) -> u64 {
    let size = u64::try_from(number.unsigned_abs()).unwrap_or(0);
    if number < 0 { !size } else { size }
}

/// A number that equal rows share, and different ones seldom.
pub fn key_of(row: &Row) -> u64 {
    let mut key = bits_of(row.bound());
    for term in row.terms() {
        key = key
            .wrapping_mul(0x9e37_79b9_7f4a_7c15)
            .wrapping_add(u64::from(term.place).wrapping_mul(65_599))
            .wrapping_add(bits_of(term.coef));
    }
    key ^ (key >> 29)
}

impl<'r> RowList<'r> {
    /// No rows, with slots for the given ones.
    pub fn new(alloc: Global, given: &'r [Row]) -> Option<RowList<'r>> {
        let heads = vec![in alloc; NO_ROW; given.len()].ok()?;
        let taken = Vec::with_capacity(alloc, given.len()).ok()?;
        Some(RowList {
            given,
            taken,
            own: Vec::new(alloc),
            changed: 0,
            heads,
        })
    }

    // The row of a given one that is taken.
    fn row_of(&self, taken: Taken) -> Option<&Row> {
        match taken.own {
            Some(place) => self.own.get(place),
            None => self.given.get(taken.number as usize),
        }
    }

    /// The row with a number.
    pub fn get(&self, number: usize) -> Option<&Row> {
        match self.taken.get(number) {
            Some(taken) => self.row_of(*taken),
            None => {
                let behind = number.saturating_sub(self.taken.len());
                self.own.get(behind.saturating_add(self.changed))
            }
        }
    }

    /// How many given rows there are.
    pub fn given_len(&self) -> usize {
        self.taken.len()
    }

    /// How many rows there are.
    pub fn len(&self) -> usize {
        let steps = self.own.len().saturating_sub(self.changed);
        self.taken.len().saturating_add(steps)
    }

    /// The number of a given row among those that were given.
    pub fn number_of(&self, number: usize) -> Option<u32> {
        Some(self.taken.get(number)?.number)
    }

    // The slot of a key.
    fn slot_of(&self, key: u64) -> usize {
        key.checked_rem(self.heads.len() as u64).unwrap_or(0) as usize
    }

    fn is_equal(&self, taken: Taken, key: u64, row: &Row) -> bool {
        if taken.key != key {
            return false;
        }
        match self.row_of(taken) {
            Some(other) => same_row(other, row),
            None => false,
        }
    }

    /// Whether an equal one is among the given rows.
    pub fn has(&self, key: u64, row: &Row) -> bool {
        let slot = self.slot_of(key);
        let mut number = self.heads.get(slot).copied().unwrap_or(NO_ROW);
        for _ in 0..self.taken.len() {
            let Some(taken) = self.taken.get(number as usize) else {
                return false;
            };
            if self.is_equal(*taken, key, row) {
                return true;
            }
            number = taken.before;
        }
        false
    }

    // Adds a given row. Given rows are added before all others.
    fn push_taken(&mut self, number: u32, own: Option<usize>, key: u64) -> Option<()> {
        let slot = self.slot_of(key);
        let place = u32::try_from(self.taken.len()).unwrap_or(NO_ROW);
        let before = self.heads.get(slot).copied().unwrap_or(NO_ROW);
        self.taken
            .push(Taken {
                number,
                own,
                key,
                before,
            })
            .ok()?;
        if slot < self.heads.len() {
            self.heads[slot] = place;
        }
        Some(())
    }

    /// Adds a given row that stays as it is.
    pub fn push_given(&mut self, number: u32, key: u64) -> Option<()> {
        self.push_taken(number, None, key)
    }

    /// Adds a given row that tightening changed.
    pub fn push_changed(&mut self, number: u32, key: u64, row: Row) -> Option<()> {
        let own = self.own.len();
        self.own.push(row).ok()?;
        self.changed = self.own.len();
        self.push_taken(number, Some(own), key)
    }

    /// Adds a row that a step makes.
    pub fn push(&mut self, row: Row) -> Option<()> {
        self.own.push(row).ok()
    }
}
