// The state at the entry.
ghost use Rattle.std.specs.Prelude.{◌≡◌, IfOk, OnOk, true, false, pos, length, map, slice_index};
ghost use Rattle.std.specs.{Prelude.{slice_index_or}, List.{list_all}};
ghost use Rattle.spec_core.specs.{declared.world.World.{World as TheWorld}, State.{reads, nothing}};
ghost use Rattle.spec_core.specs.Fits.{is_state, world_fits, in_state_range};
ghost use Rattle.ground_atoms.specs.Symbols.{atom_of, integer_of};
ghost use Rattle.model_back.specs.Filling.{fill_atom, filled, fill_integer, filled_integers};
ghost use Rattle.model_back.specs.Filling.{AtomFits, AtomsFit, IntegerFits, IntegersFit};

use crate::equals::truth_of;
use ground_atoms::{Atom, Atoms, IntName};
use proof_lines::Interpretation;
use spec_core::{Spec, World};
use spec_states::State;
use std::alloc::{AllocError, Global};

/// The element of a constant; 0 where there is no such constant.
pub fn element_of(elements: &[u32], constant: u32) -> u32
    ensures { result ≡ slice_index elements.now constant }
{
    elements.get(constant as usize).copied().unwrap_or(0)
}

// The elements of constants.
fn elements_of(alloc: Global, elements: &[u32], consts: &[u32]) -> Result<Vec<u32>, AllocError>
    ensures { IfOk result (λ es. es.items ≡ map (slice_index elements.now) consts.now) }
{
    consts
        .iter()
        .map(|c| element_of(elements, *c))
        .collect(alloc)
}

/// Puts the tuple of an atom into its relation, where the atom is true and reads the entry.
pub fn put_atom(
    alloc: Global,
    spec: &Spec,
    elements: &[u32],
    is_true: bool,
    atom: &Atom,
    state: &mut State,
) -> Result<(), AllocError>
    requires { length state.old.relations ≡ length spec.now.relations }
    ensures reads { OnOk result
        (reads state.new
        ≡ fill_atom spec.now (slice_index elements.now) is_true (atom_of atom.now)
        (reads state.old)) }
    ensures relations { length state.new.relations ≡ length state.old.relations }
    ensures counters { length state.new.counters ≡ length state.old.counters }
    ensures fits { (w : TheWorld) → is_state spec.now w state.old ≡ true
        → AtomFits spec.now w (slice_index elements.now) (atom_of atom.now)
        → is_state spec.now w state.new ≡ true }
{
    match atom {
        Atom::Has {
            stage: 0,
            relation,
            tuple,
        } => {
            if !is_true || *relation as usize >= spec.relations.len() {
                return Ok(());
            }
            let tuple = elements_of(alloc, elements, tuple.consts())?;
            state.set_has(*relation, tuple.as_slice(), true)
        }
        _ => Ok(()),
    }
}

/// Sets the value of a counter at the entry.
pub fn put_integer(
    alloc: Global,
    spec: &Spec,
    elements: &[u32],
    value: &i64,
    name: &IntName,
    state: &mut State,
) -> Result<(), AllocError>
    requires counters { length state.old.counters ≡ length spec.now.counters }
    requires value { in_state_range value.now ≡ true }
    ensures reads { OnOk result
        (reads state.new
        ≡ fill_integer spec.now (slice_index elements.now) value.now (integer_of name.now)
        (reads state.old)) }
    ensures relations { length state.new.relations ≡ length state.old.relations }
    ensures counters { length state.new.counters ≡ length state.old.counters }
    ensures fits { (w : TheWorld) → is_state spec.now w state.old ≡ true
        → IntegerFits spec.now w (slice_index elements.now) (integer_of name.now)
        → is_state spec.now w state.new ≡ true }
{
    match name {
        IntName::Count {
            stage: 0,
            part: 0,
            counter,
            key,
        } => {
            if *counter as usize >= spec.counters.len() {
                return Ok(());
            }
            let key = elements_of(alloc, elements, key.consts())?;
            state.set_count(*counter, key.as_slice(), *value)
        }
        _ => Ok(()),
    }
}

/// The value of a number; 0 where it has none.
pub fn value_of(values: &[i128], number: u32) -> i64
    requires { list_all in_state_range values.now ≡ true }
    ensures value { result ≡ slice_index_or values.now number (pos 0) }
    ensures range { in_state_range result ≡ true }
{
    match values.get(number as usize) {
        Some(value) => *value as i64,
        None => 0,
    }
}

/// Puts in the tuples of the atoms that are true.
pub fn fill_atoms(
    alloc: Global,
    spec: &Spec,
    elements: &[u32],
    atoms: &Atoms,
    truths: &[bool],
    state: &mut State,
) -> Result<(), AllocError>
    requires { length state.old.relations ≡ length spec.now.relations }
    ensures reads { OnOk result
        (reads state.new
        ≡ filled spec.now (slice_index elements.now) (λ n. slice_index_or truths.now n false) 0
        atoms.now.table.atoms (reads state.old)) }
    ensures counters { length state.new.counters ≡ length state.old.counters }
    ensures fits { OnOk result
        ((w : TheWorld) → is_state spec.now w state.old ≡ true
        → AtomsFit spec.now w (slice_index elements.now) atoms.now.table.atoms
        → is_state spec.now w state.new ≡ true) }
{
    for n in 0..u32::MAX {
        let Some(atom) = atoms.atom(n) else {
            return Ok(());
        };
        put_atom(alloc, spec, elements, truth_of(truths, n), atom, state)?;
    }
    Err(AllocError)
}

/// Sets the values of the counters that are named.
pub fn fill_integers(
    alloc: Global,
    spec: &Spec,
    elements: &[u32],
    atoms: &Atoms,
    values: &[i128],
    state: &mut State,
) -> Result<(), AllocError>
    requires counters { length state.old.counters ≡ length spec.now.counters }
    requires values { list_all in_state_range values.now ≡ true }
    ensures reads { OnOk result
        (reads state.new
        ≡ filled_integers spec.now (slice_index elements.now)
        (λ n. slice_index_or values.now n (pos 0)) 0 atoms.now.table.ints (reads state.old)) }
    ensures fits { OnOk result
        ((w : TheWorld) → is_state spec.now w state.old ≡ true
        → IntegersFit spec.now w (slice_index elements.now) atoms.now.table.ints
        → is_state spec.now w state.new ≡ true) }
{
    for n in 0..u32::MAX {
        let Some(name) = atoms.int(n) else {
            return Ok(());
        };
        let value = value_of(values, n);
        put_integer(alloc, spec, elements, &value, name, state)?;
    }
    Err(AllocError)
}

/// The state that reads at the entry what the truth values and whole numbers of atoms and names say.
pub fn entry_state(
    alloc: Global,
    spec: &Spec,
    world: &World,
    elements: &[u32],
    atoms: &Atoms,
    found: &Interpretation,
) -> Result<State, AllocError>
    requires world { world_fits spec.now world.now ≡ true }
    requires values { list_all in_state_range found.now.ints ≡ true }
    ensures reads { IfOk result
        (λ s. reads s
        ≡ filled_integers spec.now (slice_index elements.now)
        (λ n. slice_index_or found.now.ints n (pos 0)) 0 atoms.now.table.ints
        (filled spec.now (slice_index elements.now) (λ n. slice_index_or found.now.truths n false) 0
        atoms.now.table.atoms nothing)) }
    ensures fits { IfOk result
        (λ s. AtomsFit spec.now world.now (slice_index elements.now) atoms.now.table.atoms
        → IntegersFit spec.now world.now (slice_index elements.now) atoms.now.table.ints
        → is_state spec.now world.now s ≡ true) }
{
    let mut state = State::empty(alloc, spec, world)?;
    fill_atoms(
        alloc,
        spec,
        elements,
        atoms,
        found.truths.as_slice(),
        &mut state,
    )?;
    fill_integers(
        alloc,
        spec,
        elements,
        atoms,
        found.ints.as_slice(),
        &mut state,
    )?;
    Ok(state)
}
