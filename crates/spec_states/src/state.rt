// States, as a program holds them.
//
// A state has one list for each relation and each counter. What isn't listed reads false or 0.

ghost use Rattle.std.specs.Prelude.{◌≡◌, ℕ, ◌<◌, ◌≤◌, unsigned_abs, List, true, length, ◌++◌, []};
ghost use Rattle.std.specs.Prelude.{OnOk, OnErr, IfOk, IsTrue, ◌↔◌, ◌==◌, ◌&&◌, ◌||◌};
ghost use Rattle.std.specs.{Str.{bytes_eq}, Prelude.{replicate}};
ghost use Rattle.spec_core.specs.{declared.world.World.{World}, Limits.{greatest_value}};
ghost use Rattle.spec_core.specs.Specification.{Specification, relation_places, counter_keys};
ghost use Rattle.spec_core.specs.State.{reads, nothing, with_has, with_count, is_listed};
ghost use Rattle.spec_core.specs.Meaning.{initial};
ghost use Rattle.spec_core.specs.Fits.{in_state_range, fits_places, lists_fit, values_fit};
ghost use Rattle.spec_core.specs.Fits.{is_state, is_listing, world_fits};
ghost use Rattle.spec_states.specs.StateText.{true_lines, count_lines, state_text, listed_text};
ghost use Rattle.spec_states.specs.Same.{lists_within, values_agree, same_listing};

use crate::initial::{first_counters, first_relations};
use crate::listed::{Counts, Tuples};
use spec_core::{Counter, Readings, Relation, Spec, World};
use std::alloc::{AllocError, Global};
use std::marker::Model;

/// What holds of each relation's tuples and of each counter's keys. Values are from -10^15 to 10^15.
#[derive(Drop)]
pub struct State {
    relations: Vec<Tuples>,
    counters: Vec<Counts>,
    alloc: Global,
}

impl Model for State {
    ghost use Rattle.std.specs.Prelude.{◌≡◌, true};
    ghost use Rattle.spec_core.specs.{State.{Listing}, Fits.{is_listing}};

    ghost Value = { Listing };

    ghost view = { λ a. record { relations = a.relations.items; counters = a.counters.items } };

    ghost invariant = { λ a. is_listing (record {
      relations = a.relations.items;
      counters = a.counters.items;
    }) ≡ true };
}

fn copy_tuples(alloc: Global, lists: &[Tuples]) -> Result<Vec<Tuples>, AllocError>
    ensures { IfOk result (λ v. v.items ≡ lists.now) }
{
    let mut copies = Vec::new(alloc);
    for list in lists {
        copies.push(list.copy()?)?;
    }
    Ok(copies)
}

fn copy_counts(alloc: Global, lists: &[Counts]) -> Result<Vec<Counts>, AllocError>
    ensures { IfOk result (λ v. v.items ≡ lists.now) }
{
    let mut copies = Vec::new(alloc);
    for list in lists {
        copies.push(list.copy()?)?;
    }
    Ok(copies)
}

fn no_tuples(alloc: Global, count: usize) -> Result<Vec<Tuples>, AllocError>
    ensures { IfOk result (λ v. v.items ≡ replicate count []) }
{
    let mut lists = Vec::new(alloc);
    for _i in 0..count {
        lists.push(Tuples::new(alloc))?;
    }
    Ok(lists)
}

fn no_counts(alloc: Global, count: usize) -> Result<Vec<Counts>, AllocError>
    ensures { IfOk result (λ v. v.items ≡ replicate count []) }
{
    let mut lists = Vec::new(alloc);
    for _i in 0..count {
        lists.push(Counts::new(alloc))?;
    }
    Ok(lists)
}

fn tuples_fit(world: &World, relations: &[Relation], lists: &[Tuples]) -> bool
    ensures { result ≡ lists_fit world.now relations.now lists.now }
{
    match relations {
        [] => lists.is_empty(),
        [relation, relations @ ..] => match lists {
            [] => false,
            [list, lists @ ..] => list.fits(world, relation.places.as_slice())
                && tuples_fit(world, relations, lists),
        },
    }
}

fn counts_fit(world: &World, counters: &[Counter], lists: &[Counts]) -> bool
    ensures { result ≡ values_fit world.now counters.now lists.now }
{
    match counters {
        [] => lists.is_empty(),
        [counter, counters @ ..] => match lists {
            [] => false,
            [list, lists @ ..] => list.fits(world, counter.keys.as_slice())
                && counts_fit(world, counters, lists),
        },
    }
}

fn tuples_within(lists: &[Tuples], others: &[Tuples], none: &Tuples) -> bool
    requires { none.now ≡ [] }
    ensures { result ≡ lists_within lists.now others.now }
{
    match lists {
        [] => true,
        [list, lists @ ..] => match others {
            [] => list.is_within(none) && tuples_within(lists, &[], none),
            [other, others @ ..] => list.is_within(other) && tuples_within(lists, others, none),
        },
    }
}

fn counts_agree(lists: &[Counts], others: &[Counts], none: &Counts) -> bool
    requires { none.now ≡ [] }
    ensures { result ≡ values_agree lists.now others.now }
{
    match lists {
        [] => true,
        [list, lists @ ..] => match others {
            [] => list.agrees(none) && counts_agree(lists, &[], none),
            [other, others @ ..] => list.agrees(other) && counts_agree(lists, others, none),
        },
    }
}

fn write_relations(
    alloc: Global,
    relations: &[Relation],
    lists: &[Tuples],
    out: &mut Vec<u8>,
) -> Result<(), AllocError>
    ensures { OnOk result (out.new.items ≡ out.old.items ++ true_lines relations.now lists.now) }
{
    match relations {
        [] => Ok(()),
        [relation, relations @ ..] => match lists {
            [] => Ok(()),
            [list, lists @ ..] => {
                list.write(alloc, relation.name.bytes(), out)?;
                write_relations(alloc, relations, lists, out)?;
                Ok(())
            }
        },
    }
}

fn write_counters(
    alloc: Global,
    counters: &[Counter],
    lists: &[Counts],
    out: &mut Vec<u8>,
) -> Result<(), AllocError>
    ensures { OnOk result (out.new.items ≡ out.old.items ++ count_lines counters.now lists.now) }
{
    match counters {
        [] => Ok(()),
        [counter, counters @ ..] => match lists {
            [] => Ok(()),
            [list, lists @ ..] => {
                list.write(alloc, counter.name.bytes(), out)?;
                write_counters(alloc, counters, lists, out)?;
                Ok(())
            }
        },
    }
}

// Appends what is listed, as it stands.
fn write_listed(
    alloc: Global,
    spec: &Spec,
    state: &State,
    out: &mut Vec<u8>,
) -> Result<(), AllocError>
    ensures ok { OnOk result (out.new.items ≡ out.old.items ++ listed_text spec.now state.now) }
    ensures rising { is_listing state.now ≡ true }
    ensures err { OnErr result (out.new.items ≡ out.old.items) }
{
    let mut text = Vec::new(alloc);
    write_relations(
        alloc,
        spec.relations.as_slice(),
        &state.relations,
        &mut text,
    )?;
    write_counters(alloc, spec.counters.as_slice(), &state.counters, &mut text)?;
    out.extend_from_slice(&text)?;
    Ok(())
}

/// Appends the `true` and `count` lines of a state: by relation and rising tuple, then by counter and rising key, without
/// values of 0. Where the state fits a world, the text is that of its readings there, so states with equal readings have one
/// text. A refusal appends nothing.
pub fn write_state(
    alloc: Global,
    spec: &Spec,
    state: &State,
    out: &mut Vec<u8>,
) -> Result<(), AllocError>
    ensures text { OnOk result ((w : World) → is_state spec.now w state.now ≡ true
        → out.new.items ≡ out.old.items ++ state_text spec.now w (reads state.now)) }
    ensures listed { OnOk result (out.new.items ≡ out.old.items ++ listed_text spec.now state.now) }
    ensures rising { is_listing state.now ≡ true }
    ensures err { OnErr result (out.new.items ≡ out.old.items) }
{
    write_listed(alloc, spec, state, out)?;
    Ok(())
}

impl State {
    /// Whether all readings agree.
    pub fn same(&self, other: &State) -> bool
        ensures { IsTrue result ↔ (reads self.now ≡ reads other.now) }
    {
        self.lists_same(other)
    }

    fn lists_same(&self, other: &State) -> bool
        ensures { result ≡ same_listing self.now other.now }
    {
        let no_tuples = Tuples::new(self.alloc);
        let no_counts = Counts::new(self.alloc);
        tuples_within(&self.relations, &other.relations, &no_tuples)
            && tuples_within(&other.relations, &self.relations, &no_tuples)
            && counts_agree(&self.counters, &other.counters, &no_counts)
            && counts_agree(&other.counters, &self.counters, &no_counts)
    }

    /// Whether there is one list for each relation and each counter, of tuples and keys that hold elements of the world.
    pub fn fits(&self, spec: &Spec, world: &World) -> bool
        ensures { result ≡ is_state spec.now world.now self.now }
    {
        tuples_fit(world, spec.relations.as_slice(), &self.relations)
            && counts_fit(world, spec.counters.as_slice(), &self.counters)
    }

    /// The initial state: each relation and each counter has its one stated value at all tuples and keys.
    pub fn initial(alloc: Global, spec: &Spec, world: &World) -> Result<State, AllocError>
        requires { world_fits spec.now world.now ≡ true }
        ensures reads { IfOk result (λ s. reads s ≡ reads (initial spec.now world.now)) }
        ensures fits { IfOk result (λ s. is_state spec.now world.now s ≡ true) }
    {
        spec.well_formed();
        let relations = first_relations(alloc, world, spec.relations.as_slice())?;
        let counters = first_counters(alloc, world, spec.counters.as_slice())?;
        Ok(State {
            relations,
            counters,
            alloc,
        })
    }

    /// The state in which every reading is false or 0.
    pub fn empty(alloc: Global, spec: &Spec, world: &World) -> Result<State, AllocError>
        requires { world_fits spec.now world.now ≡ true }
        ensures reads { IfOk result (λ s. reads s ≡ nothing) }
        ensures fits { IfOk result (λ s. is_state spec.now world.now s ≡ true) }
    {
        let relations = no_tuples(alloc, spec.relations.len())?;
        let counters = no_counts(alloc, spec.counters.len())?;
        Ok(State {
            relations,
            counters,
            alloc,
        })
    }

    /// Whether a tuple is in a relation.
    pub fn has(&self, relation: u8, tuple: &[u32]) -> bool
        ensures { result ≡ (reads self.now).has relation tuple.now }
    {
        match self.relations.get(relation as usize) {
            Some(tuples) => tuples.has(tuple),
            None => false,
        }
    }

    /// The value of a counter at a key.
    pub fn count(&self, counter: u8, key: &[u32]) -> i128
        ensures { result ≡ (reads self.now).count counter key.now }
    {
        match self.counters.get(counter as usize) {
            Some(counts) => counts.count(key) as i128,
            None => 0,
        }
    }

    /// The same lists again.
    pub fn copy(&self) -> Result<State, AllocError>
        ensures { IfOk result (λ s. s ≡ self.now) }
    {
        let relations = copy_tuples(self.alloc, &self.relations)?;
        let counters = copy_counts(self.alloc, &self.counters)?;
        Ok(State {
            relations,
            counters,
            alloc: self.alloc,
        })
    }

    /// A fact for proofs: all values are in the range of a state.
    pub fn stays_in_range(&self)
        ensures { (k : ℕ) (t : List ℕ) → unsigned_abs ((reads self.now).count k t)
            ≤ greatest_value }
    {
        let _counters = &self.counters;
    }

    /// Puts a tuple into a relation, or takes it out. No other reading changes.
    pub fn set_has(&mut self, relation: u8, tuple: &[u32], value: bool) -> Result<(), AllocError>
        requires { relation < length self.old.relations }
        ensures ok { OnOk result (reads self.new
            ≡ with_has (reads self.old) relation tuple.now value) }
        ensures err { OnErr result (self.new ≡ self.old) }
        ensures relations { length self.new.relations ≡ length self.old.relations }
        ensures counters { self.new.counters ≡ self.old.counters }
        ensures fits { (d : Specification) (w : World) → is_state d w self.old ≡ true
            → fits_places w (relation_places d relation) tuple.now ≡ true
            → is_state d w self.new ≡ true }
    {
        let tuples = &mut self.relations[relation as usize];
        tuples.set(tuple, value)?;
        Ok(())
    }

    /// Sets the value of a counter at a key, which is listed from then on. No other reading changes, and no other key gets listed.
    pub fn set_count(&mut self, counter: u8, key: &[u32], value: i64) -> Result<(), AllocError>
        requires counter { counter < length self.old.counters }
        requires value { in_state_range value ≡ true }
        ensures ok { OnOk result (reads self.new
            ≡ with_count (reads self.old) counter key.now value) }
        ensures listed { OnOk result ((k : ℕ) (q : List ℕ)
            → is_listed self.new k q ≡ (((k == counter) && bytes_eq q key.now)
            || is_listed self.old k q)) }
        ensures err { OnErr result (self.new ≡ self.old) }
        ensures relations { self.new.relations ≡ self.old.relations }
        ensures counters { length self.new.counters ≡ length self.old.counters }
        ensures fits { (d : Specification) (w : World) → is_state d w self.old ≡ true
            → fits_places w (counter_keys d counter) key.now ≡ true → is_state d w self.new ≡ true }
    {
        let counts = &mut self.counters[counter as usize];
        counts.set(key, value)?;
        Ok(())
    }
}

impl Readings for State {
    ghost reads = { λ s. reads s };

    fn has(&self, relation: u8, tuple: &[u32]) -> bool {
        State::has(self, relation, tuple)
    }

    fn count(&self, counter: u8, key: &[u32]) -> i128 {
        self.stays_in_range();
        State::count(self, counter, key)
    }
}
