// What the ground problems of obligations leave for others of their specification.
//
// An entry and pairs of readings serve obligations whose constants are alike, and those don't stand in a row. So some are kept. Eviction is
// by last use: what was used the longest ago goes first, where they are more than 128 or have more than 240,000 formulas.
ghost use Rattle.spec_core.specs.Specification.{Specification};
ghost use Rattle.obligation_list.specs.Obligations.{IsObligation};
ghost use Rattle.lazy_ground.specs.{Kept.{IsKept}, Cache.{AreKept}};

use crate::Kept;
use instances::EntryKey;
use obligation_list::Obligation;
use spec_core::Spec;
use std::alloc::Global;

// The most that is kept. Calls with many parameters have many lists of constants.
const MOST: usize = 128;

// The most formulas that stand in what is kept, together: as many as twelve obligations may have.
const MOST_FORMULAS: usize = 240_000;

/// What obligations left, each for others whose constants are alike. The one that was used last stands last.
#[derive(Drop)]
pub struct KeptCache {
    pub kept: Vec<Kept>,
}

// How many formulas stand in what an obligation left.
fn count_formulas(kept: &Kept) -> usize {
    match &kept.entry {
        Some(entry) => entry.formulas.len(),
        None => 0,
    }
}

// Whether what an obligation left has what this key asks for.
fn fits(key: &EntryKey, kept: &Kept) -> bool {
    match &kept.entry {
        Some(entry) => key.fits(entry),
        None => false,
    }
}

// Where something stands that an obligation can go on from; nothing where nothing does. It is a hint: nothing is promised of it.
fn place_for(alloc: Global, spec: &Spec, ob: &Obligation, kept: &[Kept]) -> Option<usize>
    requires { IsObligation spec.now ob.now }
{
    let Ok(key) = EntryKey::of(alloc, spec, ob) else {
        return None;
    };
    for place in 0..kept.len() {
        if fits(&key, &kept[place]) {
            return Some(place);
        }
    }
    None
}

impl KeptCache {
    /// Nothing, which is what the first obligation goes on from.
    pub fn new(alloc: Global) -> KeptCache
        ensures { (d : Specification) → AreKept d result }
    {
        KeptCache {
            kept: Vec::new(alloc),
        }
    }

    /// Takes out what an obligation can go on from; nothing is in it where there is none.
    pub fn take(&mut self, alloc: Global, spec: &Spec, ob: &Obligation) -> Kept
        requires member { IsObligation spec.now ob.now }
        requires kept { AreKept spec.now self.old }
        ensures taken { IsKept spec.now result }
        ensures kept { AreKept spec.now self.new }
    {
        match place_for(alloc, spec, ob, self.kept.as_slice()) {
            Some(place) => {
                if place < self.kept.len() {
                    self.kept.remove(place)
                } else {
                    Kept::none()
                }
            }
            None => Kept::none(),
        }
    }

    // Whether there is room for so many more formulas.
    fn has_room(&self, more: usize) -> bool {
        let mut formulas = more;
        for kept in self.kept.as_slice() {
            formulas = formulas.wrapping_add(count_formulas(kept));
        }
        self.kept.len() < MOST && formulas <= MOST_FORMULAS
    }

    // Lets go of what was used the longest ago.
    fn drop_oldest(&mut self, spec: &Spec)
        requires { AreKept spec.now self.old }
        ensures { AreKept spec.now self.new }
    {
        let _spec = spec;
        if self.kept.len() > 0 {
            let oldest = self.kept.remove(0);
            drop(oldest);
        }
    }

    // Lets go of the oldest until there is room for so many more formulas.
    fn make_room(&mut self, spec: &Spec, more: usize)
        requires { AreKept spec.now self.old }
        ensures { AreKept spec.now self.new }
    {
        for _ in 0..MOST {
            if self.has_room(more) {
                return;
            }
            self.drop_oldest(spec);
        }
    }

    /// Keeps what an obligation left, where it left an entry. The oldest are let go where they are too many or have too many formulas, and
    /// this where memory runs out.
    pub fn put(&mut self, spec: &Spec, kept: Kept)
        requires one { IsKept spec.now kept }
        requires all { AreKept spec.now self.old }
        ensures { AreKept spec.now self.new }
    {
        if kept.entry.is_none() {
            drop(kept);
            return;
        }
        self.make_room(spec, count_formulas(&kept));
        match self.kept.push(kept) {
            Ok(()) => {}
            Err(failed) => drop(failed),
        }
    }
}
