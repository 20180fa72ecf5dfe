// The definition of a counter's reading after a call.
ghost use Rattle.std.specs.Prelude.{◌≡◌, ◌≤◌, ◌+◌, ◌∷◌, ◌++◌, [], pos, cond, map, IfOk, OnOk};
ghost use Rattle.std.specs.List.{list_any};
ghost use Rattle.spec_core.specs.declared.update.Thing.TheVariants as thing;
ghost use Rattle.effectors.specs.Effect as effect;
ghost use Rattle.ground_problem.specs.Symbols as symbols;
ghost use Rattle.ground_problem.specs.Definitions as definitions;
ghost use Rattle.ground_numbers.specs.Stages.{stage_of};
ghost use Rattle.ground_atoms.specs.{Symbols.{part_of, parts_of, count_of}, Making.{make_all}};
ghost use Rattle.ground_atoms.specs.{Formulas.{form_of}, Staying.{NumbersStay}};
ghost use Rattle.stage_defs.specs.Settings.{readings_in, caller_in, count_definition};
ghost use Rattle.stage_defs.specs.Settings.{count_defined, IsMade};
ghost use Rattle.stage_defs.specs.Parts.{value_defined, values_upto, count_in_turn};

use crate::acting::acts_on;
use crate::comparing::equal;
use crate::connecting::{either, negated};
use crate::defined::Defined;
use crate::setting::Setting;
use crate::sums::{parts_of, reading_part};
use effectors::is_thing;
use ground_atoms::{Atoms, GroundCall, GroundFormula, IntName, SumPart, Tuple};
use items::Items;
use spec_core::{Change, Spec, Thing, Update};
use std::alloc::{AllocError, Global};

/// The formulas that tie a counter's reading at a stage to the readings before it. After a refusal `atoms` may have new numbers; others stay.
pub fn define_count(
    spec: &Spec,
    atoms: &mut Atoms,
    alloc: Global,
    call: &GroundCall,
    stage: u8,
    counter: u8,
    key: &[u32],
) -> Result<Items<GroundFormula>, AllocError>
    ensures made { IfOk result
        (λ fs. make_all [] atoms.old (count_definition spec.now call.now stage counter key.now)
        ≡ record { known = atoms.new; forms = map form_of fs }) }
    ensures stay { NumbersStay atoms.old atoms.new }
{
    let mut out = Items::new(alloc);
    let reading = Defined::after(spec, call, stage, counter, key);
    add_count(atoms, alloc, &reading, &mut out)?;
    Ok(out)
}

/// Appends the formulas that tie a counter's reading to those before it.
pub fn add_count(
    atoms: &mut Atoms,
    alloc: Global,
    reading: &Defined<'_>,
    out: &mut Items<GroundFormula>,
) -> Result<(), AllocError>
    ensures made { OnOk result
        (make_all (map form_of out.old) atoms.old (count_defined reading.now)
        ≡ record { known = atoms.new; forms = map form_of out.new }) }
    ensures stay { NumbersStay atoms.old atoms.new }
{
    let tuple = Tuple::of(alloc, reading.tuple)?;
    let part = reading_part(&reading.before, 1, reading.number, tuple);
    let value = sum_of_one(alloc, part)?;
    add_in_turn(atoms, alloc, reading, value, out)?;
    Ok(())
}

// Without updates of the counter the value stays, and with some each of them gives a value.
fn add_in_turn(
    atoms: &mut Atoms,
    alloc: Global,
    reading: &Defined<'_>,
    value: Items<SumPart>,
    out: &mut Items<GroundFormula>,
) -> Result<(), AllocError>
    ensures made { OnOk result
        (make_all (map form_of out.old) atoms.old
        (count_in_turn (readings_in reading.now.before) (caller_in reading.now.before)
        (stage_of reading.now.stage) reading.now.number reading.now.tuple.now (parts_of value)
        reading.now.updates.now)
        ≡ record { known = atoms.new; forms = map form_of out.new }) }
    ensures stay { NumbersStay atoms.old atoms.new }
{
    if updates_any(reading.updates, reading.number) {
        return add_values(
            atoms,
            alloc,
            &reading.before,
            reading.stage,
            reading.number,
            reading.tuple,
            reading.updates,
            value,
            out,
        );
    }
    add_stays(atoms, alloc, reading, value.as_slice(), out)
}

// The sum of one part.
fn sum_of_one(alloc: Global, part: SumPart) -> Result<Items<SumPart>, AllocError>
    ensures { IfOk result (λ ps. parts_of ps ≡ part_of part ∷ []) }
{
    let mut sum = Items::new(alloc);
    sum.push(part)?;
    Ok(sum)
}

// Whether some of these updates is one of a counter.
fn updates_any(updates: &[Update], counter: u8) -> bool
    ensures { result ≡ list_any (λ u. effect.is_thing u.thing (thing.Counter counter)) updates.now }
{
    updates
        .iter()
        .any(|update| is_thing(update.thing, Thing::Counter(counter)))
}

// The reading is the value before.
fn add_stays(
    atoms: &mut Atoms,
    alloc: Global,
    reading: &Defined<'_>,
    value: &[SumPart],
    out: &mut Items<GroundFormula>,
) -> Result<(), AllocError>
    ensures made { OnOk result
        (make_all (map form_of out.old) atoms.old
        (symbols.equal
        (symbols.multiple (pos 1)
        (symbols.reading (stage_of reading.now.stage) reading.now.number reading.now.tuple.now)
        ∷ [])
        (parts_of value.now)
        ∷ [])
        ≡ record { known = atoms.new; forms = map form_of out.new }) }
    ensures stay { NumbersStay atoms.old atoms.new }
{
    let tuple = Tuple::of(alloc, reading.tuple)?;
    let after = sum_of_one(alloc, value_part(reading.stage, 0, reading.number, tuple))?;
    let stays = equal(atoms, alloc, after.as_slice(), value)?;
    out.push(stays)
}

// The value that the first so many updates leave, or the reading.
fn value_part(stage: u8, part: u8, counter: u8, key: Tuple) -> SumPart
    ensures { part_of result ≡ symbols.multiple (pos 1) (count_of stage part counter key) }
{
    SumPart::Multiple(
        1,
        IntName::Count {
            stage,
            part,
            counter,
            key,
        },
    )
}

// Each update of the counter gives the next value where it acts, and leaves the value elsewhere.
fn add_values(
    atoms: &mut Atoms,
    alloc: Global,
    before: &Setting<'_>,
    stage: u8,
    counter: u8,
    key: &[u32],
    updates: &[Update],
    first: Items<SumPart>,
    out: &mut Items<GroundFormula>,
) -> Result<(), AllocError>
    ensures made { OnOk result
        (make_all (map form_of out.old) atoms.old (values_upto (readings_in before.now) (caller_in before.now) (stage_of stage) counter key.now 1 (parts_of first) updates.now)
        ≡ record { known = atoms.new; forms = map form_of out.new }) }
    ensures stay { NumbersStay atoms.old atoms.new }
{
    let mut value = first;
    let mut number = 1;
    for place in 0..updates.len() {
        let update = &updates[place];
        if is_thing(update.thing, Thing::Counter(counter)) {
            let next = next_value(alloc, stage, counter, key, number, &updates[place + 1..])?;
            add_value(
                atoms,
                alloc,
                before,
                key,
                next.as_slice(),
                value.as_slice(),
                update,
                out,
            )?;
            value = next;
            number = next_number(number)?;
        }
    }
    Ok(())
}

// What the value after an update is named by: the reading itself after the last one.
fn next_value(
    alloc: Global,
    stage: u8,
    counter: u8,
    key: &[u32],
    number: u8,
    later: &[Update],
) -> Result<Items<SumPart>, AllocError>
    requires { 1 ≤ number }
    ensures { IfOk result
        (λ ps. parts_of ps
        ≡ symbols.multiple (pos 1)
        (definitions.value_after (definitions.updates_of (thing.Counter counter) later.now) number
        (stage_of stage) counter key.now)
        ∷ []) }
{
    let key = Tuple::of(alloc, key)?;
    sum_of_one(alloc, next_part(stage, counter, key, number, later))
}

#[tactic(auto, using(crate::proofs::Updates::named_after))]
fn next_part(stage: u8, counter: u8, key: Tuple, number: u8, later: &[Update]) -> SumPart
    requires { 1 ≤ number }
    ensures { part_of result
        ≡ symbols.multiple (pos 1)
        (definitions.value_after (definitions.updates_of (thing.Counter counter) later.now) number
        (stage_of stage) counter key) }
{
    let part = part_number(updates_any(later, counter), number);
    value_part(stage, part, counter, key)
}

fn part_number(is_followed: bool, number: u8) -> u8
    ensures { result ≡ cond is_followed number 0 }
{
    if is_followed { number } else { 0 }
}

fn next_number(number: u8) -> Result<u8, AllocError>
    ensures { IfOk result (λ n. n ≡ number + 1) }
{
    number.checked_add(1).ok_or(AllocError)
}

// Appends the two formulas of an update.
fn add_value(
    atoms: &mut Atoms,
    alloc: Global,
    before: &Setting<'_>,
    key: &[u32],
    next: &[SumPart],
    value: &[SumPart],
    update: &Update,
    out: &mut Items<GroundFormula>,
) -> Result<(), AllocError>
    ensures made { OnOk result
        (make_all (map form_of out.old) atoms.old (value_defined (readings_in before.now) (caller_in before.now) key.now (parts_of next.now) (parts_of value.now) update.now)
        ≡ record { known = atoms.new; forms = map form_of out.new }) }
    ensures stay { NumbersStay atoms.old atoms.new }
{
    out.push(gives_next(atoms, alloc, before, key, next, value, update)?)?;
    out.push(leaves_value(atoms, alloc, before, key, next, value, update)?)
}

// Where the update acts, the next value is the amount, or the value and the amount.
fn gives_next(
    atoms: &mut Atoms,
    alloc: Global,
    before: &Setting<'_>,
    key: &[u32],
    next: &[SumPart],
    value: &[SumPart],
    update: &Update,
) -> Result<GroundFormula, AllocError>
    ensures made { IfOk result
        (λ f. IsMade atoms.old
        (symbols.either
        (symbols.negated (definitions.acts_on (readings_in before.now) (caller_in before.now) key.now update.now))
        (symbols.equal (parts_of next.now)
        (definitions.count_then (readings_in before.now) (caller_in before.now) update.now.change
        (parts_of value.now))))
        atoms.new f) }
    ensures stay { NumbersStay atoms.old atoms.new }
{
    let acting = acts_on(atoms, alloc, before, key, update)?;
    let left = negated(alloc, acting)?;
    let amount = amount_of(alloc, before, &update.change, value)?;
    let right = equal(atoms, alloc, next, amount.as_slice())?;
    either(alloc, left, right)
}

// Where it doesn't act, the next value is the value.
fn leaves_value(
    atoms: &mut Atoms,
    alloc: Global,
    before: &Setting<'_>,
    key: &[u32],
    next: &[SumPart],
    value: &[SumPart],
    update: &Update,
) -> Result<GroundFormula, AllocError>
    ensures made { IfOk result
        (λ f. IsMade atoms.old
        (symbols.either
        (definitions.acts_on (readings_in before.now) (caller_in before.now) key.now update.now)
        (symbols.equal (parts_of next.now) (parts_of value.now)))
        atoms.new f) }
    ensures stay { NumbersStay atoms.old atoms.new }
{
    let acting = acts_on(atoms, alloc, before, key, update)?;
    let right = equal(atoms, alloc, next, value)?;
    either(alloc, acting, right)
}

// What a change makes of a value.
fn amount_of(
    alloc: Global,
    before: &Setting<'_>,
    change: &Change,
    value: &[SumPart],
) -> Result<Items<SumPart>, AllocError>
    ensures { IfOk result
        (λ ps. parts_of ps
        ≡ definitions.count_then (readings_in before.now) (caller_in before.now) change.now
        (parts_of value.now)) }
{
    match change {
        Change::Insert | Change::Remove => copied(alloc, value),
        Change::Add(amount) => {
            let mut sum = copied(alloc, value)?;
            let parts = parts_of(alloc, before, &[], amount)?;
            add_copies(alloc, parts.as_slice(), &mut sum)?;
            Ok(sum)
        }
        Change::Set(amount) => parts_of(alloc, before, &[], amount),
    }
}

fn copied(alloc: Global, parts: &[SumPart]) -> Result<Items<SumPart>, AllocError>
    ensures { IfOk result (λ ps. ps ≡ parts.now) }
{
    let mut copies = Items::new(alloc);
    add_copies(alloc, parts, &mut copies)?;
    Ok(copies)
}

fn add_copies(alloc: Global, parts: &[SumPart], out: &mut Items<SumPart>) -> Result<(), AllocError>
    ensures { OnOk result (out.new ≡ out.old ++ parts.now) }
{
    for part in parts {
        out.push(part.copy(alloc)?)?;
    }
    Ok(())
}
