// Instantiation: formulas of a line at constants, once for each assignment of constants to its variables.
//
// An assignment is chosen variable by variable, the last one fastest, in one list that grows and shrinks. So no list of all
// assignments is made.
ghost use Rattle.std.specs.Prelude.{◌≡◌, ◌-◌, ◌++◌, ◌∷◌, [], ℕ, List, map, length, OnOk};
ghost use Rattle.spec_core.specs.Form.{form_of};
ghost use Rattle.ground_problem.specs.{Symbols.{negated}, Formulas.{formula, instances}};
ghost use Rattle.ground_problem.specs.{Problem.{most_formulas}, Constants.{choices}};
ghost use Rattle.stage_defs.specs.Settings.{readings_in, caller_in};
ghost use Rattle.ground_groups.specs.{Limited.{Appends, HasRoomFor}, Calls.{constants_in}};
ghost use Rattle.ground_groups.specs.Lines.{signed};

use crate::adding::{MOST_FORMULAS, has_room};
use crate::assigning::{count_choices, options_of};
use crate::gathering::Named;
use crate::grounding::Grounding;
use crate::refused::GroundRefused;
use items::Items;
use spec_core::Formula;
use stage_defs::{Setting, formula, negated};

// Whether there is room for a formula once for each choice of these options. No choice is made for this.
fn has_room_for(grounding: &Grounding, options: &[Items<u32>]) -> Result<(), GroundRefused>
    ensures { HasRoomFor result (most_formulas - length grounding.now.formulas)
        (length (choices options.now)) }
{
    let count = count_choices(options);
    if count > MOST_FORMULAS.saturating_sub(grounding.formulas.len()) {
        return Err(GroundRefused::TooMany);
    }
    Ok(())
}

// Appends a formula at these constants, or that it is false at them.
fn add_signed(
    grounding: &mut Grounding,
    setting: &Setting<'_>,
    sign: bool,
    form: &Formula,
    vars: &[u32],
) -> Result<(), GroundRefused>
    ensures { Appends result grounding.old
        (signed sign
        (formula (readings_in setting.now) (caller_in setting.now) vars.now (form_of form.now)) ∷
        [])
        grounding.new }
{
    has_room(grounding)?;
    let made = formula(&mut grounding.atoms, grounding.alloc, setting, vars, form)?;
    if sign {
        grounding.formulas.push(made)?;
    } else {
        grounding.formulas.push(negated(grounding.alloc, made)?)?;
    }
    Ok(())
}

// Takes the last constant out.
fn remove_last(chosen: &mut Items<u32>)
    ensures { (before : List ℕ) (last : ℕ) → chosen.old ≡ before ++ last ∷ [] → chosen.new ≡ before }
{
    chosen.pop();
}

// Appends it once for each choice for the variables that are left, after the constants that are chosen.
fn add_choices(
    grounding: &mut Grounding,
    setting: &Setting<'_>,
    sign: bool,
    form: &Formula,
    options: &[Items<u32>],
    chosen: &mut Items<u32>,
) -> Result<(), GroundRefused>
    ensures added { Appends result grounding.old
        (map
        (λ vs. signed sign
        (formula (readings_in setting.now) (caller_in setting.now) (chosen.old ++ vs)
        (form_of form.now)))
        (choices options.now))
        grounding.new }
    ensures chosen { OnOk result (chosen.new ≡ chosen.old) }
{
    let [first, rest @ ..] = options else {
        return add_signed(grounding, setting, sign, form, chosen.as_slice());
    };
    let constants = first.as_slice();
    for constant in constants {
        chosen.push(*constant)?;
        match add_choices(grounding, setting, sign, form, rest, chosen) {
            Ok(()) => {}
            Err(refused) => return Err(refused),
        }
        remove_last(chosen);
    }
    Ok(())
}

#[tactic(auto, using(crate::proofs::Lists::refused_beyond))]
// Appends it once for each choice of these options, or says that there is no room for so many.
fn add_each_choice(
    grounding: &mut Grounding,
    setting: &Setting<'_>,
    sign: bool,
    form: &Formula,
    options: &[Items<u32>],
) -> Result<(), GroundRefused>
    ensures { Appends result grounding.old
        (map
        (λ vs. signed sign
        (formula (readings_in setting.now) (caller_in setting.now) vs (form_of form.now)))
        (choices options.now))
        grounding.new }
{
    if let Err(refused) = has_room_for(grounding, options) {
        return Err(refused);
    }
    let mut chosen = Items::new(grounding.alloc);
    add_choices(grounding, setting, sign, form, options, &mut chosen)
}

/// Appends a formula once for each assignment of constants to variables of these sorts.
pub fn add_instances(
    grounding: &mut Grounding,
    setting: &Setting<'_>,
    named: &Named,
    vars: &[u8],
    form: &Formula,
) -> Result<(), GroundRefused>
    ensures { Appends result grounding.old
        (instances (constants_in named.now) (readings_in setting.now) (caller_in setting.now)
        vars.now (form_of form.now))
        grounding.new }
{
    let options = options_of(grounding.alloc, named.sorts.as_slice(), vars)?;
    add_each_choice(grounding, setting, true, form, options.as_slice())
}

/// Appends that a formula is false, once for each assignment of constants to variables of these sorts.
pub fn add_false_instances(
    grounding: &mut Grounding,
    setting: &Setting<'_>,
    named: &Named,
    vars: &[u8],
    form: &Formula,
) -> Result<(), GroundRefused>
    ensures { Appends result grounding.old
        (map negated
        (instances (constants_in named.now) (readings_in setting.now) (caller_in setting.now)
        vars.now (form_of form.now)))
        grounding.new }
{
    let options = options_of(grounding.alloc, named.sorts.as_slice(), vars)?;
    add_each_choice(grounding, setting, false, form, options.as_slice())
}

/// Appends a formula at these constants.
pub fn add_true(
    grounding: &mut Grounding,
    setting: &Setting<'_>,
    vars: &[u32],
    form: &Formula,
) -> Result<(), GroundRefused>
    ensures { Appends result grounding.old
        (formula (readings_in setting.now) (caller_in setting.now) vars.now (form_of form.now) ∷ [])
        grounding.new }
{
    add_signed(grounding, setting, true, form, vars)
}

/// Appends that a formula is false at these constants.
pub fn add_false(
    grounding: &mut Grounding,
    setting: &Setting<'_>,
    vars: &[u32],
    form: &Formula,
) -> Result<(), GroundRefused>
    ensures { Appends result grounding.old
        (negated
        (formula (readings_in setting.now) (caller_in setting.now) vars.now (form_of form.now)) ∷
        [])
        grounding.new }
{
    add_signed(grounding, setting, false, form, vars)
}
