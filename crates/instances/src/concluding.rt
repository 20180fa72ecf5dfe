// The conclusion of an obligation fails.
ghost use Rattle.std.specs.Prelude.{◌≡◌};
ghost use Rattle.ground_problem.specs.Conclusion as conclusion;
ghost use Rattle.stage_defs.specs.Settings.{readings_in, caller_in};
ghost use Rattle.obligation_list.specs.Obligations.{IsObligation};
ghost use Rattle.ground_groups.specs.{Calls.{constants_in}, Limited.{Appends}};

use ground_groups::differing::add_differs;
use ground_groups::entry::args_of;
use ground_groups::instancing::{add_false, add_false_instances};
use ground_groups::{GroundRefused, Grounding, Named, invariant_line, requires_line};
use obligation_list::Obligation;
use spec_core::{Prefix, Prefixed, Spec};
use stage_defs::{Setting, Stage};

// Appends that a line is false: with `exists` once for each assignment, else at the elements.
fn add_fails(
    grounding: &mut Grounding,
    setting: &Setting<'_>,
    named: &Named,
    line: &Prefixed,
) -> Result<(), GroundRefused>
    ensures { Appends result grounding.old
        (conclusion.line_fails (constants_in named.now) (readings_in setting.now)
        (caller_in setting.now) line.now)
        grounding.new }
{
    match line.prefix {
        Prefix::Exists => {
            add_false_instances(grounding, setting, named, line.vars.as_slice(), &line.body)
        }
        _ => add_false(grounding, setting, named.elements.as_slice(), &line.body),
    }
}

/// Appends that the conclusion of an obligation fails.
pub fn add_conclusion(
    grounding: &mut Grounding,
    spec: &Spec,
    ob: &Obligation,
    named: &Named,
) -> Result<(), GroundRefused>
    requires { IsObligation spec.now ob.now }
    ensures { Appends result grounding.old
        (conclusion.conclusion spec.now ob.now (constants_in named.now)) grounding.new }
{
    match ob {
        Obligation::Init { inv } => {
            let setting = Setting {
                spec,
                stage: Stage::Initial,
                call: 0,
                args: &[],
            };
            let line = invariant_line(spec, *inv);
            add_fails(grounding, &setting, named, line)
        }
        Obligation::Safety { inv, .. } => {
            let setting = Setting {
                spec,
                stage: Stage::Numbered(1),
                call: 0,
                args: &[],
            };
            let line = invariant_line(spec, *inv);
            add_fails(grounding, &setting, named, line)
        }
        Obligation::Commute { thing, .. } => {
            let elements = named.elements.as_slice();
            add_differs(grounding, spec, *thing, elements)
        }
        Obligation::Stable { op, line, .. } => {
            let setting = Setting {
                spec,
                stage: Stage::Numbered(3),
                call: 0,
                args: args_of(named, 0),
            };
            let line = requires_line(spec, *op, *line);
            add_fails(grounding, &setting, named, line)
        }
    }
}
