// Sums of the specification, at constants.
ghost use Rattle.std.specs.Prelude.{◌≡◌, ◌*ℤ◌, pos, IfOk, get_or};
ghost use Rattle.spec_core.specs.Specification.{no_counter};
ghost use Rattle.ground_problem.specs.Formulas as formulas;
ghost use Rattle.ground_atoms.specs.Symbols.{part_of, parts_of};
ghost use Rattle.stage_defs.specs.Settings.{caller_in, readings_in};

use crate::setting::{Setting, Stage, tuple_of};
use ground_atoms::{IntName, SumPart, Tuple};
use items::Items;
use spec_core::{Body, Spec, Summand, Term};
use std::alloc::{AllocError, Global};

/// A multiple of a counter's reading.
pub fn reading_part(setting: &Setting<'_>, coef: i64, counter: u8, key: Tuple) -> SumPart
    ensures { part_of result ≡ (readings_in setting.now).count coef counter key }
{
    match setting.stage {
        Stage::Initial => SumPart::Number(product(coef, initial_value(setting.spec, counter))),
        Stage::Numbered(stage) => SumPart::Multiple(
            coef,
            IntName::Count {
                stage,
                part: 0,
                counter,
                key,
            },
        ),
    }
}

fn product(a: i64, b: i64) -> i128
    ensures { result ≡ a *ℤ b }
{
    a as i128 * b as i128
}

// The value that a counter has in the initial state.
fn initial_value(spec: &Spec, counter: u8) -> i64
    ensures { result ≡ (get_or spec.now.counters counter no_counter).initial }
{
    match spec.counters.as_slice().get(counter as usize) {
        Some(found) => found.initial,
        None => 0,
    }
}

fn part_of(
    alloc: Global,
    setting: &Setting<'_>,
    vars: &[u32],
    summand: &Summand,
) -> Result<SumPart, AllocError>
    ensures { IfOk result
        (λ p. part_of p
        ≡ formulas.part_of (readings_in setting.now) (caller_in setting.now) vars.now summand.now) }
{
    match &summand.body {
        Body::One => Ok(SumPart::Number(summand.coef as i128)),
        Body::Param(param) => Ok(SumPart::Multiple(
            summand.coef,
            IntName::Arg {
                call: setting.call,
                param: *param,
            },
        )),
        Body::Count(counter, elements) => {
            let key = tuple_of(alloc, setting, vars, elements.as_slice())?;
            Ok(reading_part(setting, summand.coef, *counter, key))
        }
    }
}

/// The parts of a sum.
pub fn parts_of(
    alloc: Global,
    setting: &Setting<'_>,
    vars: &[u32],
    term: &Term,
) -> Result<Items<SumPart>, AllocError>
    ensures { IfOk result
        (λ ps. parts_of ps
        ≡ formulas.parts_of (readings_in setting.now) (caller_in setting.now) vars.now term.now) }
{
    let mut parts = Items::new(alloc);
    for summand in term.summands.as_slice() {
        parts.push(part_of(alloc, setting, vars, summand)?)?;
    }
    Ok(parts)
}
