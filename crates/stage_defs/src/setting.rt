// What a formula of the specification is read in.
ghost use Rattle.std.specs.Prelude.{◌≡◌, IfOk};
ghost use Rattle.ground_problem.specs.Formulas.{const_of, consts_of};
ghost use Rattle.stage_defs.specs.Settings.{caller_in};

use ground_atoms::{GroundArg, Tuple};
use spec_core::{Elem, Spec};
use std::alloc::{AllocError, Global};

/// Whose readings a formula names: those of the initial state, which are known, or those at a numbered stage.
#[derive(Clone, Copy)]
pub enum Stage {
    Initial,
    Numbered(u8),
}

/// The readings of a formula, the place of the call that says it, and that call's arguments.
#[derive(Clone, Copy)]
pub struct Setting<'a> {
    pub spec: &'a Spec,
    pub stage: Stage,
    pub call: u8,
    pub args: &'a [GroundArg],
}

/// The constant that stands for an element, with these constants for the variables.
pub fn const_of(setting: &Setting<'_>, vars: &[u32], element: Elem) -> u32
    ensures { result ≡ const_of (caller_in setting.now) vars.now element }
{
    match element {
        Elem::Const(n) => n as u32,
        Elem::Param(n) => match setting.args.get(n as usize) {
            Some(GroundArg::Elem(n)) => *n,
            _ => 0,
        },
        Elem::Var(n) => vars.get(n as usize).copied().unwrap_or(0),
    }
}

/// The constants that stand for these elements, of which there are at most three.
pub fn tuple_of(
    alloc: Global,
    setting: &Setting<'_>,
    vars: &[u32],
    elements: &[Elem],
) -> Result<Tuple, AllocError>
    ensures { IfOk result (λ t. t ≡ consts_of (caller_in setting.now) vars.now elements.now) }
{
    match elements {
        [] => Tuple::of(alloc, &[]),
        [a] => Tuple::of(alloc, &[const_of(setting, vars, *a)]),
        [a, b] => Tuple::of(
            alloc,
            &[const_of(setting, vars, *a), const_of(setting, vars, *b)],
        ),
        [a, b, c] => Tuple::of(
            alloc,
            &[
                const_of(setting, vars, *a),
                const_of(setting, vars, *b),
                const_of(setting, vars, *c),
            ],
        ),
        _ => Err(AllocError),
    }
}
