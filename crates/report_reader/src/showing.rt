// The witness that the lines of a block show.

ghost use Rattle.std.specs.{Prelude.{◌≡◌, ◌<◌, true, length, IfOk, OnOk}, List.{list_all}};
ghost use Rattle.spec_core.specs.{State.{reads, with_has, with_count}, Fits.{is_state}};
ghost use Rattle.report_reader.specs.Reader.{with_facts, with_readings, fact_fits, reading_fits};
ghost use Rattle.report_reader.specs.Reader.{reads_of, IsShowing, IsShownBy};

use items::{Items, or_drop};
use obligation_list::Witness;
use proof_report::place::PartialWitness;
use report_lines::witness::{Fact, Reading};
use spec_core::{Call, Spec, World};
use spec_states::State;
use std::alloc::{AllocError, Global};

#[tactic(auto, using(crate::proofs::States::fact_within))]
fn add_fact(spec: &Spec, world: &World, state: &mut State, fact: &Fact) -> Result<(), AllocError>
    requires fits { is_state spec.now world.now state.old ≡ true }
    requires fact { fact_fits spec.now world.now fact.now ≡ true }
    ensures ok { OnOk result (reads state.new
        ≡ with_has (reads state.old) fact.now.relation fact.now.tuple true) }
    ensures fits { is_state spec.now world.now state.new ≡ true }
{
    state.set_has(fact.relation, fact.tuple.as_slice(), true)
}

#[tactic(auto, using(crate::proofs::States::reading_within))]
fn add_reading(
    spec: &Spec,
    world: &World,
    state: &mut State,
    reading: &Reading,
) -> Result<(), AllocError>
    requires fits { is_state spec.now world.now state.old ≡ true }
    requires reading { reading_fits spec.now world.now reading.now ≡ true }
    ensures ok { OnOk result (reads state.new
        ≡ with_count (reads state.old) reading.now.counter reading.now.key reading.now.value) }
    ensures fits { is_state spec.now world.now state.new ≡ true }
{
    state.set_count(reading.counter, reading.key.as_slice(), reading.value)
}

fn add_facts(
    spec: &Spec,
    world: &World,
    state: &mut State,
    facts: &[Fact],
) -> Result<(), AllocError>
    requires fits { is_state spec.now world.now state.old ≡ true }
    requires facts { list_all (fact_fits spec.now world.now) facts.now ≡ true }
    ensures ok { OnOk result (reads state.new ≡ with_facts (reads state.old) facts.now) }
    ensures fits { is_state spec.now world.now state.new ≡ true }
{
    match facts {
        [] => Ok(()),
        [fact, facts @ ..] => {
            add_fact(spec, world, state, fact)?;
            add_facts(spec, world, state, facts)
        }
    }
}

fn add_readings(
    spec: &Spec,
    world: &World,
    state: &mut State,
    readings: &[Reading],
) -> Result<(), AllocError>
    requires fits { is_state spec.now world.now state.old ≡ true }
    requires readings { list_all (reading_fits spec.now world.now) readings.now ≡ true }
    ensures ok { OnOk result (reads state.new ≡ with_readings (reads state.old) readings.now) }
    ensures fits { is_state spec.now world.now state.new ≡ true }
{
    match readings {
        [] => Ok(()),
        [reading, readings @ ..] => {
            add_reading(spec, world, state, reading)?;
            add_readings(spec, world, state, readings)
        }
    }
}

fn copy_call(alloc: Global, call: &Call) -> Result<Call, AllocError>
    ensures { IfOk result (λ copy. copy ≡ call.now) }
{
    let args = Items::from_slice(alloc, call.args.as_slice())?;
    Ok(Call { op: call.op, args })
}

fn copy_calls(alloc: Global, calls: &[Call]) -> Result<Items<Call>, AllocError>
    ensures { IfOk result (λ copies. copies ≡ calls.now) }
{
    let mut copies = Items::new(alloc);
    for call in calls {
        let copy = or_drop!(copy_call(alloc, call); copies);
        or_drop!(copies.push(copy); copies);
    }
    Ok(copies)
}

fn copy_world(alloc: Global, world: &World) -> Result<World, AllocError>
    ensures { IfOk result (λ copy. copy ≡ world.now) }
{
    let sizes = Items::from_slice(alloc, world.sizes.as_slice())?;
    let consts = or_drop!(Items::from_slice(alloc, world.consts.as_slice()); sizes);
    Ok(World { sizes, consts })
}

// The state of what was shown.
fn shown_state(alloc: Global, spec: &Spec, shown: &PartialWitness) -> Result<State, AllocError>
    requires { IsShowing spec.now shown.now }
    ensures reads { IfOk result (λ s. reads s ≡ reads_of shown.now) }
    ensures fits { IfOk result (λ s. is_state spec.now shown.now.world s ≡ true) }
{
    let mut state = State::empty(alloc, spec, &shown.world)?;
    or_drop!(add_facts(spec, &shown.world, &mut state, shown.facts.as_slice()); state);
    or_drop!(add_readings(spec, &shown.world, &mut state, shown.readings.as_slice()); state);
    Ok(state)
}

/// The witness of what was shown, with these elements.
pub fn witness(
    alloc: Global,
    spec: &Spec,
    shown: &PartialWitness,
    elements: Items<u32>,
) -> Result<Witness, AllocError>
    requires { IsShowing spec.now shown.now }
    ensures { IfOk result (λ w. IsShownBy spec.now shown.now elements w) }
{
    let state = or_drop!(shown_state(alloc, spec, shown); elements);
    let calls = or_drop!(copy_calls(alloc, shown.calls.as_slice()); elements, state);
    let world = or_drop!(copy_world(alloc, &shown.world); elements, state, calls);
    Ok(Witness {
        world,
        state,
        calls,
        elements,
    })
}
