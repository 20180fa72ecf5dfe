// A witness as plain lists, from which smaller ones are drafted.
//
// What is false or 0 in the state isn't listed, so what is left out of a list is taken away. A draft needn't fit: whether its values
// are a witness at all, `witness` and `breaks` say.
ghost use Rattle.std.specs.Prelude.{◌≡◌, ◌≤◌, length, IfOk, IfSome};
ghost use Rattle.witness_shrinking.specs.Refuted.{HasLists};

use items::{Items, or_drop};
use obligation_list::Witness;
use spec_core::{Call, Kind, Spec, Thing, World, is_in_state_range};
use spec_states::State;
use std::alloc::{AllocError, Global};

/// A tuple for which a relation is true, or a key at which a counter has this value, which isn't 0.
#[derive(Drop)]
pub struct Fact {
    pub thing: Thing,
    pub elements: Items<u32>,
    pub value: i64,
}

/// The parts of a witness, with its state as a list of facts.
#[derive(Drop)]
pub struct Draft {
    pub sizes: Items<u32>,
    pub consts: Items<u32>,
    pub facts: Items<Fact>,
    pub calls: Items<Call>,
    pub elements: Items<u32>,
}

/// Adds a fact at these elements.
pub fn push_fact(
    alloc: Global,
    thing: Thing,
    elements: &[u32],
    value: i64,
    facts: &mut Items<Fact>,
) -> Result<(), AllocError> {
    let elements = Items::from_slice(alloc, elements)?;
    facts.push(Fact {
        thing,
        elements,
        value,
    })
}

// ---- the draft of a witness

fn add_tuples(
    alloc: Global,
    state: &State,
    relation: u8,
    tuples: &[Items<u32>],
    facts: &mut Items<Fact>,
) -> Result<(), AllocError> {
    for tuple in tuples {
        if state.has(relation, tuple.as_slice()) {
            push_fact(alloc, Thing::Relation(relation), tuple.as_slice(), 1, facts)?;
        }
    }
    Ok(())
}

fn add_values(
    alloc: Global,
    state: &State,
    counter: u8,
    keys: &[Items<u32>],
    facts: &mut Items<Fact>,
) -> Result<(), AllocError> {
    for key in keys {
        let value = i64::try_from(state.count(counter, key.as_slice())).unwrap_or(0);
        if value != 0 {
            push_fact(alloc, Thing::Counter(counter), key.as_slice(), value, facts)?;
        }
    }
    Ok(())
}

fn add_relations(
    alloc: Global,
    spec: &Spec,
    world: &World,
    state: &State,
    facts: &mut Items<Fact>,
) -> Result<(), AllocError> {
    spec.well_formed();
    for (k, relation) in spec.relations.as_slice().iter().enumerate() {
        let tuples = world.tuples(alloc, relation.places.as_slice())?;
        or_drop!(add_tuples(alloc, state, k as u8, tuples.as_slice(), facts); tuples);
        drop(tuples);
    }
    Ok(())
}

fn add_counters(
    alloc: Global,
    spec: &Spec,
    world: &World,
    state: &State,
    facts: &mut Items<Fact>,
) -> Result<(), AllocError> {
    spec.well_formed();
    for (k, counter) in spec.counters.as_slice().iter().enumerate() {
        let keys = world.tuples(alloc, counter.keys.as_slice())?;
        or_drop!(add_values(alloc, state, k as u8, keys.as_slice(), facts); keys);
        drop(keys);
    }
    Ok(())
}

fn facts_of(alloc: Global, spec: &Spec, witness: &Witness) -> Result<Items<Fact>, AllocError> {
    let mut facts = Items::new(alloc);
    or_drop!(add_relations(alloc, spec, &witness.world, &witness.state, &mut facts); facts);
    or_drop!(add_counters(alloc, spec, &witness.world, &witness.state, &mut facts); facts);
    Ok(facts)
}

fn push_call(alloc: Global, call: &Call, calls: &mut Items<Call>) -> Result<(), AllocError> {
    let args = Items::from_slice(alloc, call.args.as_slice())?;
    calls.push(Call { op: call.op, args })
}

/// Copies of calls.
pub fn copies(alloc: Global, calls: &[Call]) -> Result<Items<Call>, AllocError> {
    let mut out = Items::new(alloc);
    for call in calls {
        or_drop!(push_call(alloc, call, &mut out); out);
    }
    Ok(out)
}

/// A draft of copies of these lists, with facts and calls.
pub fn draft_of(
    alloc: Global,
    sizes: &[u32],
    consts: &[u32],
    elements: &[u32],
    facts: Items<Fact>,
    calls: Items<Call>,
) -> Result<Draft, AllocError> {
    let sizes = or_drop!(Items::from_slice(alloc, sizes); facts, calls);
    let consts = or_drop!(Items::from_slice(alloc, consts); facts, calls, sizes);
    let elements = or_drop!(Items::from_slice(alloc, elements); facts, calls, sizes, consts);
    Ok(Draft {
        sizes,
        consts,
        facts,
        calls,
        elements,
    })
}

// ---- the witness of a draft

/// Puts a fact into a state, with this value; with 0 it is taken out. Nothing where its relation, its counter or the value is none.
pub fn put_fact(spec: &Spec, state: &mut State, fact: &Fact, value: i64) -> Result<(), AllocError>
    requires relations { length spec.now.relations ≤ length state.old.relations }
    requires counters { length spec.now.counters ≤ length state.old.counters }
    ensures relations { length state.new.relations ≡ length state.old.relations }
    ensures counters { length state.new.counters ≡ length state.old.counters }
{
    match fact.thing {
        Thing::Relation(k) => {
            if (k as usize) < spec.relations.len() {
                state.set_has(k, fact.elements.as_slice(), value != 0)?;
            }
        }
        Thing::Counter(k) => {
            if (k as usize) < spec.counters.len() && is_in_state_range(value) {
                state.set_count(k, fact.elements.as_slice(), value)?;
            }
        }
    }
    Ok(())
}

fn put_facts(spec: &Spec, state: &mut State, facts: &[Fact]) -> Result<(), AllocError>
    requires relations { length spec.now.relations ≤ length state.old.relations }
    requires counters { length spec.now.counters ≤ length state.old.counters }
    ensures relations { length state.new.relations ≡ length state.old.relations }
    ensures counters { length state.new.counters ≡ length state.old.counters }
{
    for fact in facts {
        put_fact(spec, state, fact, fact.value)?;
    }
    Ok(())
}

// The state with these facts; none where the world is none.
fn state_of(
    alloc: Global,
    spec: &Spec,
    world: &World,
    facts: &[Fact],
) -> Result<Option<State>, AllocError>
    ensures { IfOk result (λ made. IfSome made (HasLists spec.now)) }
{
    if !world.fits(spec) {
        return Ok(None);
    }
    let mut state = State::empty(alloc, spec, world)?;
    or_drop!(put_facts(spec, &mut state, facts); state);
    Ok(Some(state))
}

/// Where a number stands: an argument of a call, by the number of the call and its own place, or the value of a fact.
#[derive(Clone, Copy, PartialEq, Eq)]
pub enum Place {
    Argument(usize, usize),
    Value(usize),
}

/// A number at a place.
#[derive(Clone, Copy)]
pub struct Number {
    pub place: Place,
    pub value: i64,
}

/// The value at a place after changes, where it was this.
pub fn changed(changes: &[Number], place: Place, value: i64) -> i64 {
    for change in changes {
        if change.place == place {
            return change.value;
        }
    }
    value
}

/// How large a witness is. Of two, the first of these numbers that differs says which is smaller.
#[derive(Clone, Copy)]
pub struct Size {
    /// How many elements the world has.
    pub elements: u64,
    /// How many facts the state has.
    pub facts: usize,
    /// How many values and whole-number arguments are below 0.
    pub negatives: u64,
    /// The sum of the values and whole-number arguments without their signs.
    pub total: u64,
}

const NOTHING: Size = Size {
    elements: 0,
    facts: 0,
    negatives: 0,
    total: 0,
};

impl Size {
    /// Whether this is smaller.
    pub fn is_below(self, other: Size) -> bool {
        if self.elements != other.elements {
            return self.elements < other.elements;
        }
        if self.facts != other.facts {
            return self.facts < other.facts;
        }
        if self.negatives != other.negatives {
            return self.negatives < other.negatives;
        }
        self.total < other.total
    }

    // With a number more, and the fact whose value it is.
    fn with_number(self, place: Place, value: i64) -> Size {
        let is_fact = match place {
            Place::Argument(_, _) => false,
            Place::Value(_) => value != 0,
        };
        let mut size = self.with(value);
        size.facts = size.facts.saturating_add(is_fact as usize);
        size
    }

    // With a number more.
    fn with(self, value: i64) -> Size {
        Size {
            elements: self.elements,
            facts: self.facts,
            negatives: self.negatives.saturating_add((value < 0) as u64),
            total: self.total.saturating_add(value.unsigned_abs()),
        }
    }
}

fn sum_of(sizes: &[u32]) -> u64 {
    let mut sum = 0u64;
    for size in sizes {
        sum = sum.saturating_add(*size as u64);
    }
    sum
}

/// Whether an argument of a call is a whole number.
pub fn is_number(spec: &Spec, call: &Call, place: usize) -> bool {
    let Some(operation) = spec.operations.as_slice().get(call.op as usize) else {
        return false;
    };
    match operation.params.as_slice().get(place) {
        Some(param) => match param.kind {
            Kind::Int => true,
            Kind::Sort(_) => false,
        },
        None => false,
    }
}

fn with_arguments(spec: &Spec, call: &Call, size: Size) -> Size {
    let mut size = size;
    for (place, arg) in call.args.as_slice().iter().enumerate() {
        if is_number(spec, call, place) {
            size = size.with(*arg);
        }
    }
    size
}

fn with_values(facts: &[Fact], size: Size) -> Size {
    let mut size = size;
    for fact in facts {
        if let Thing::Counter(_) = fact.thing {
            size = size.with(fact.value);
        }
    }
    size
}

impl Draft {
    /// The draft of a witness.
    pub fn of(alloc: Global, spec: &Spec, witness: &Witness) -> Result<Draft, AllocError> {
        let facts = facts_of(alloc, spec, witness)?;
        let calls = or_drop!(copies(alloc, witness.calls.as_slice()); facts);
        let world = &witness.world;
        draft_of(
            alloc,
            world.sizes.as_slice(),
            world.consts.as_slice(),
            witness.elements.as_slice(),
            facts,
            calls,
        )
    }

    fn world(&self, alloc: Global) -> Result<World, AllocError> {
        let sizes = Items::from_slice(alloc, self.sizes.as_slice())?;
        let consts = or_drop!(Items::from_slice(alloc, self.consts.as_slice()); sizes);
        Ok(World { sizes, consts })
    }

    /// The witness of a draft; none where its world is none.
    pub fn witness(&self, alloc: Global, spec: &Spec) -> Result<Option<Witness>, AllocError>
        ensures { IfOk result (λ made. IfSome made (λ witness. HasLists spec.now witness.state)) }
    {
        let world = self.world(alloc)?;
        let elements = or_drop!(Items::from_slice(alloc, self.elements.as_slice()); world);
        let calls = or_drop!(copies(alloc, self.calls.as_slice()); world, elements);
        match state_of(alloc, spec, &world, self.facts.as_slice()) {
            Ok(Some(state)) => Ok(Some(Witness {
                world,
                state,
                calls,
                elements,
            })),
            Ok(None) => {
                drop(world);
                drop(elements);
                drop(calls);
                Ok(None)
            }
            Err(AllocError) => {
                drop(world);
                drop(elements);
                drop(calls);
                Err(AllocError)
            }
        }
    }

    /// How many elements a sort has; 0 where there is no such sort.
    pub fn size_of(&self, sort: u8) -> u32 {
        self.sizes
            .as_slice()
            .get(sort as usize)
            .copied()
            .unwrap_or(0)
    }

    /// How large it is.
    pub fn size(&self, spec: &Spec) -> Size {
        let mut size = Size {
            elements: sum_of(self.sizes.as_slice()),
            facts: self.facts.len(),
            negatives: 0,
            total: 0,
        };
        size = with_values(self.facts.as_slice(), size);
        for call in self.calls.as_slice() {
            size = with_arguments(spec, call, size);
        }
        size
    }

    // The number at a place; 0 where there is none.
    fn value_at(&self, place: Place) -> i64 {
        match place {
            Place::Argument(call, at) => match self.calls.as_slice().get(call) {
                Some(call) => call.args.as_slice().get(at).copied().unwrap_or(0),
                None => 0,
            },
            Place::Value(at) => match self.facts.as_slice().get(at) {
                Some(fact) => fact.value,
                None => 0,
            },
        }
    }

    /// Whether it is smaller with other numbers. What they add to its size is compared; a value of 0 is no fact.
    pub fn is_smaller_with(&self, changes: &[Number]) -> bool {
        let mut before = NOTHING;
        let mut behind = NOTHING;
        for change in changes {
            before = before.with_number(change.place, self.value_at(change.place));
            behind = behind.with_number(change.place, change.value);
        }
        behind.is_below(before)
    }
}
