// Walks along edges.
//
// A walk is kept as the visit that it has come to, and a visit names the one before it, so walks share what they have in common and
// none is ever changed. For each place the latest visit is the end of the shortest walk so far.
ghost use Rattle.std.specs.Prelude.{◌≡◌, ◌+◌, ◌<◌, [], ◌∷◌, ◌++◌, IfOk, OnOk, slice_set, length};
ghost use Rattle.diff_bounds.specs.Walks.{latest_at, now_at, AreStarts};

use std::alloc::{AllocError, Global};

/// Where a walk has come to.
#[derive(Clone, Copy)]
pub struct Visit {
    pub place: usize,
    /// How many edges the walk has.
    pub depth: usize,
    /// The sum of their bounds.
    pub value: i128,
    /// The last of them, and the visit that it leads on from; both mean nothing where there are no edges.
    pub edge: u32,
    pub before: usize,
}

/// All visits, and the number of the latest one of each place.
#[derive(Drop)]
pub struct Walks {
    /// How many integer names there are, and the last place.
    pub ints: u32,
    pub visits: Vec<Visit>,
    pub latest: Vec<usize>,
}

impl Walks {
    /// A walk without edges for each place; `ints` is the last place.
    pub fn start(alloc: Global, ints: u32) -> Result<Walks, AllocError>
        ensures ints { IfOk result (λ w. w.ints ≡ ints) }
        ensures starts { IfOk result (λ w. AreStarts (ints + 1) w.visits.items w.latest.items) }
    {
        let mut visits = Vec::new(alloc);
        let mut latest = Vec::new(alloc);
        for place in 0..ints as usize + 1 {
            visits.push(Visit {
                place,
                depth: 0,
                value: 0,
                edge: 0,
                before: 0,
            })?;
            latest.push(place)?;
        }
        Ok(Walks {
            ints,
            visits,
            latest,
        })
    }

    /// The latest visit of a place.
    pub fn now_at(&self, place: usize) -> Visit
        requires place { place < length self.now.latest.items }
        requires there { latest_at self.now.latest.items place < length self.now.visits.items }
        ensures { result ≡ now_at self.now.visits.items self.now.latest.items place }
    {
        self.visits[self.latest[place]]
    }

    /// Adds a visit, the latest of its place.
    pub fn push(&mut self, visit: Visit) -> Result<(), AllocError>
        requires place { visit.place < length self.old.latest.items }
        ensures ints { self.new.ints ≡ self.old.ints }
        ensures visits { OnOk result (self.new.visits.items ≡ self.old.visits.items ++ visit ∷ []) }
        ensures latest { OnOk result
            (self.new.latest.items
            ≡ slice_set self.old.latest.items visit.place (length self.old.visits.items)) }
    {
        let number = self.visits.len();
        self.visits.push(visit)?;
        self.latest[visit.place] = number;
        Ok(())
    }
}
