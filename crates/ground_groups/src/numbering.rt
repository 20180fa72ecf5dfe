// The numbers of the whole numbers among the arguments.
ghost use Rattle.std.specs.{Prelude.{◌≡◌, ◌<◌, length, slice_index, map, IfOk, OnOk}, List.{fold}};
ghost use Rattle.spec_core.specs.Specification.{op_of};
ghost use Rattle.ground_problem.specs.Symbols.{argument};
ghost use Rattle.ground_numbers.specs.Problem.{numbers_from, arguments_from};
ghost use Rattle.ground_atoms.specs.Known.{know_integer};

use crate::gathering::params_of;
use ground_atoms::{Atoms, IntName};
use spec_core::{Kind, Param, Spec};
use std::alloc::AllocError;

/// A place as a small number.
pub fn as_small(place: usize) -> Result<u8, AllocError>
    ensures { IfOk result (λ n. n ≡ place) }
{
    match u8::try_from(place) {
        Ok(number) => Ok(number),
        Err(_) => Err(AllocError),
    }
}

// Numbers the parameters of a call that are whole numbers.
fn number_params(atoms: &mut Atoms, call: u8, params: &[Param]) -> Result<(), AllocError>
    ensures { OnOk result (atoms.new ≡ fold know_integer atoms.old
        (map (argument call) (numbers_from 0 params.now))) }
{
    for place in 0..params.len() {
        if let Kind::Int = params[place].kind {
            let param = as_small(place)?;
            atoms.int_of(IntName::Arg { call, param })?;
        }
    }
    Ok(())
}

// Numbers those of the call at a place.
fn number_call(atoms: &mut Atoms, spec: &Spec, ops: &[u8], place: usize) -> Result<(), AllocError>
    requires { place < length ops.now }
    ensures { OnOk result
        (atoms.new
        ≡ fold know_integer atoms.old
        (map (argument place)
        (numbers_from 0 (op_of spec.now (slice_index ops.now place)).params))) }
{
    let call = as_small(place)?;
    number_params(atoms, call, params_of(spec, ops[place]))
}

#[tactic(auto, using(crate::proofs::Arguments::arguments_next))]
/// Numbers those of the calls of these operations, call by call.
pub fn number_arguments(atoms: &mut Atoms, spec: &Spec, ops: &[u8]) -> Result<(), AllocError>
    ensures { OnOk result
        (atoms.new
        ≡ fold know_integer atoms.old
        (arguments_from 0 (map (λ o. (op_of spec.now o).params) ops.now))) }
{
    for place in 0..ops.len() {
        number_call(atoms, spec, ops, place)?;
    }
    Ok(())
}
