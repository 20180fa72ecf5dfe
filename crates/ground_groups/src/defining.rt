// The definitions of the readings after a call.
ghost use Rattle.std.specs.{Prelude.{◌≡◌, ◌==◌, length, map, IfOk}, List.{filter, flat_map}};
ghost use Rattle.obligation_list.specs.declared.obligation.Obligation.{Obligation};
ghost use Rattle.ground_problem.specs.{Constants.{constants_of}, Definitions.{definition}};
ghost use Rattle.ground_numbers.specs.Stages.{stage_of};
ghost use Rattle.ground_atoms.specs.{Symbols.{reading_of}, Calls.{calls_of}};
ghost use Rattle.stage_defs.specs.Settings.{has_defined, count_defined};
ghost use Rattle.ground_groups.specs.{Limited.{Appends}, Defined.{defined_at, defined_by}};

use crate::adding::within_limit;
use crate::grounding::Grounding;
use crate::refused::GroundRefused;
use ground_atoms::{Atoms, GroundCall, NamedReading};
use items::Items;
use spec_core::{Spec, Thing};
use stage_defs::Defined;
use stage_defs::counting::add_count;
use stage_defs::having::add_has;
use stage_defs::stages::latest_call;
use std::alloc::{AllocError, Global};

// How many calls a stage comes after.
fn calls_made(stage: u8) -> usize
    ensures { result ≡ length (stage_of stage) }
{
    match stage {
        0 => 0,
        2 | 4 => 2,
        _ => 1,
    }
}

/// The named readings after so many calls.
pub fn readings_after(
    alloc: Global,
    atoms: &Atoms,
    count: usize,
) -> Result<Items<NamedReading>, AllocError>
    ensures { IfOk result (λ qs. map reading_of qs
        ≡ filter (λ q. length q.stage == count) atoms.now.named) }
{
    let mut readings = Items::new(alloc);
    for reading in atoms.named() {
        if calls_made(reading.stage) == count {
            readings.push(reading.copy(alloc)?)?;
        }
    }
    Ok(readings)
}

// Appends the definition of a relation's reading.
fn add_relation(grounding: &mut Grounding, reading: &Defined<'_>) -> Result<(), GroundRefused>
    ensures { Appends result grounding.old (has_defined reading.now) grounding.new }
{
    add_has(
        &mut grounding.atoms,
        grounding.alloc,
        reading,
        &mut grounding.formulas,
    )?;
    within_limit(grounding)
}

// Appends the definition of a counter's reading.
fn add_counter(grounding: &mut Grounding, reading: &Defined<'_>) -> Result<(), GroundRefused>
    ensures { Appends result grounding.old (count_defined reading.now) grounding.new }
{
    add_count(
        &mut grounding.atoms,
        grounding.alloc,
        reading,
        &mut grounding.formulas,
    )?;
    within_limit(grounding)
}

// Appends the definition of a thing's reading at a stage after this call.
fn add_defined(
    grounding: &mut Grounding,
    spec: &Spec,
    call: &GroundCall,
    reading: &NamedReading,
) -> Result<(), GroundRefused>
    ensures { Appends result grounding.old
        (defined_at spec.now call.now reading.now.stage reading.now.thing reading.now.tuple)
        grounding.new }
{
    let (stage, tuple) = (reading.stage, reading.tuple.consts());
    match reading.thing {
        Thing::Relation(number) => {
            let defined = Defined::after(spec, call, stage, number, tuple);
            add_relation(grounding, &defined)
        }
        Thing::Counter(number) => {
            let defined = Defined::after(spec, call, stage, number, tuple);
            add_counter(grounding, &defined)
        }
    }
}

// Appends the definition of a reading, none for one at the entry.
fn add_definition(
    grounding: &mut Grounding,
    spec: &Spec,
    calls: &[GroundCall],
    reading: &NamedReading,
) -> Result<(), GroundRefused>
    ensures { Appends result grounding.old
        (defined_by spec.now calls.now reading.now.stage reading.now.thing reading.now.tuple)
        grounding.new }
{
    let stage = reading.stage;
    if stage == 0 {
        return Ok(());
    }
    match calls.get(latest_call(stage) as usize) {
        Some(call) => add_defined(grounding, spec, call, reading),
        None => {
            let call = GroundCall {
                op: 0,
                args: Items::new(grounding.alloc),
            };
            add_defined(grounding, spec, &call, reading)
        }
    }
}

// Appends the definitions of these readings.
fn add_each_definition(
    grounding: &mut Grounding,
    spec: &Spec,
    calls: &[GroundCall],
    readings: &[NamedReading],
) -> Result<(), GroundRefused>
    ensures { Appends result grounding.old
        (flat_map (λ q. defined_by spec.now calls.now q.stage q.thing q.tuple) readings.now)
        grounding.new }
{
    for reading in readings {
        match add_definition(grounding, spec, calls, reading) {
            Ok(()) => {}
            Err(refused) => return Err(refused),
        }
    }
    Ok(())
}

/// Appends the definitions of the readings after so many calls that were named so far, in the order in which they were first named.
pub fn add_definitions(
    grounding: &mut Grounding,
    spec: &Spec,
    calls: &[GroundCall],
    count: usize,
) -> Result<(), GroundRefused>
    ensures { (ob : Obligation) → calls.now ≡ calls_of spec.now ob
        → Appends result grounding.old
        (flat_map (definition spec.now ob (constants_of spec.now ob))
        (filter (λ q. length q.stage == count) grounding.old.atoms.named))
        grounding.new }
{
    let readings = readings_after(grounding.alloc, &grounding.atoms, count)?;
    add_each_definition(grounding, spec, calls, readings.as_slice())
}
