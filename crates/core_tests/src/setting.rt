// Specifications with worlds and states that fit them. What doesn't fit, and what lacks memory, ends the test.

ghost use Rattle.std.specs.Prelude.{◌≡◌, true};
ghost use Rattle.spec_core.specs.Fits.{world_fits, is_state};

use effectors::apply;
use items::Items;
use spec_core::{Call, Spec, World, invariant_broken_at, is_in_state_range};
use spec_from_bytes::{Reading, SPECIFICATION_LIMIT, read_bytes};
use spec_states::State;
use std::alloc::Global;
use std::process::Abort;

/// A specification, a world of it, and a state in that world.
#[derive(Drop)]
pub struct Setting<'a> {
    pub spec: &'a Spec,
    pub world: World,
    pub state: State,
    ghost world_fits: { world_fits spec.now world ≡ true },
    ghost state_fits: { is_state spec.now world state ≡ true },
}

/// A list of these items.
pub fn items<T: Copy>(rt: &impl Abort, alloc: Global, list: &[T]) -> Items<T> {
    Items::from_slice(alloc, list).expect(rt, "memory")
}

/// What a text is read as. It stays whole, and is let go as a whole.
pub fn read(rt: &impl Abort, alloc: Global, text: &[u8]) -> Reading {
    assert!(rt; text.len() <= SPECIFICATION_LIMIT);
    read_bytes(alloc, text).expect(rt, "memory")
}

/// The specification that was read.
pub fn spec_of<'a>(rt: &impl Abort, reading: &'a Reading) -> &'a Spec {
    match reading {
        Reading::Specified(_, spec) => spec,
        Reading::Refused(_) => panic!(rt; "no specification"),
    }
}

/// A specification without constants, a world with so many elements of each sort, and the initial state.
pub fn first_setting<'a>(
    rt: &impl Abort,
    alloc: Global,
    spec: &'a Spec,
    sizes: &[u32],
) -> Setting<'a> {
    first_setting_with(rt, alloc, spec, sizes, &[])
}

/// The same of a specification with constants, which are these elements.
pub fn first_setting_with<'a>(
    rt: &impl Abort,
    alloc: Global,
    spec: &'a Spec,
    sizes: &[u32],
    consts: &[u32],
) -> Setting<'a> {
    let world = World {
        sizes: items(rt, alloc, sizes),
        consts: items(rt, alloc, consts),
    };
    assert!(rt; world.fits(spec));
    let state = State::initial(alloc, spec, &world).expect(rt, "memory");
    Setting { spec, world, state }
}

/// A call, which may not fit.
pub fn call(rt: &impl Abort, alloc: Global, op: u8, args: &[i64]) -> Call {
    Call {
        op,
        args: items(rt, alloc, args),
    }
}

fn set_count(
    rt: &impl Abort,
    spec: &Spec,
    world: &World,
    state: &mut State,
    counter: u8,
    key: &[u32],
    value: i64,
)
    requires { is_state spec.now world.now state.old ≡ true }
    ensures { is_state spec.now world.now state.new ≡ true }
{
    let it = spec.counters.get(counter as usize).expect(rt, "a counter");
    assert!(rt; world.has_tuple(it.keys.as_slice(), key));
    assert!(rt; is_in_state_range(value));
    state.set_count(counter, key, value).expect(rt, "memory");
}

fn set_has(
    rt: &impl Abort,
    spec: &Spec,
    world: &World,
    state: &mut State,
    relation: u8,
    tuple: &[u32],
    value: bool,
)
    requires { is_state spec.now world.now state.old ≡ true }
    ensures { is_state spec.now world.now state.new ≡ true }
{
    let it = spec
        .relations
        .get(relation as usize)
        .expect(rt, "a relation");
    assert!(rt; world.has_tuple(it.places.as_slice(), tuple));
    state.set_has(relation, tuple, value).expect(rt, "memory");
}

fn make(rt: &impl Abort, alloc: Global, spec: &Spec, world: &World, state: &mut State, call: &Call)
    requires world { world_fits spec.now world.now ≡ true }
    requires state { is_state spec.now world.now state.old ≡ true }
    ensures { is_state spec.now world.now state.new ≡ true }
{
    assert!(rt; call.fits(spec, world));
    let Ok(next) = apply(alloc, spec, world, state, call) else {
        panic!(rt; "refused");
    };
    *state = next;
}

fn empty(rt: &impl Abort, alloc: Global, spec: &Spec, world: &World, state: &mut State)
    requires { world_fits spec.now world.now ≡ true }
    ensures { is_state spec.now world.now state.new ≡ true }
{
    *state = State::empty(alloc, spec, world).expect(rt, "memory");
}

impl<'a> Setting<'a> {
    /// Makes a call, which has to fit and not be refused.
    pub fn make(&mut self, rt: &impl Abort, alloc: Global, op: u8, args: &[i64]) {
        let call = call(rt, alloc, op, args);
        make(rt, alloc, self.spec, &self.world, &mut self.state, &call);
        drop(call);
    }

    /// Empties the state: nothing is listed.
    pub fn empty(&mut self, rt: &impl Abort, alloc: Global) {
        empty(rt, alloc, self.spec, &self.world, &mut self.state);
    }

    /// Sets the value of a counter at a key.
    pub fn set_count(&mut self, rt: &impl Abort, counter: u8, key: &[u32], value: i64) {
        set_count(
            rt,
            self.spec,
            &self.world,
            &mut self.state,
            counter,
            key,
            value,
        );
    }

    /// Puts a tuple into a relation, or takes it out.
    pub fn set_has(&mut self, rt: &impl Abort, relation: u8, tuple: &[u32], value: bool) {
        set_has(
            rt,
            self.spec,
            &self.world,
            &mut self.state,
            relation,
            tuple,
            value,
        );
    }

    /// The value of a counter at a key.
    pub fn count(&self, counter: u8, key: &[u32]) -> i128 {
        self.state.count(counter, key)
    }

    /// Whether a tuple is in a relation.
    pub fn has(&self, relation: u8, tuple: &[u32]) -> bool {
        self.state.has(relation, tuple)
    }

    /// The first invariant that is false.
    pub fn broken(&self) -> Option<usize> {
        invariant_broken_at(self.spec, &self.world, &self.state)
    }
}
