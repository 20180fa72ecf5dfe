// The lines of an operation, which lines of a tree without a fault are.

ghost use Rattle.std.specs.Prelude.{◌≡◌, IfOk, OnOk};
ghost use Rattle.spec_trees.specs.Form.{guard_of as guard_form, line_of};
ghost use Rattle.spec_trees.specs.Form.{sentence_of as sentence_form, requires_form, takes_form};
ghost use Rattle.spec_trees.specs.Form.{observes_form};
ghost use Rattle.typing_rules.specs.Lines.{spot_of as spot_of_tree, spots_of as spots_of_tree};
ghost use Rattle.typing_rules.specs.Lines.{relation_target as relation_target_of};
ghost use Rattle.typing_rules.specs.Lines.{counter_target as counter_target_of};
ghost use Rattle.typing_rules.specs.Lines.{update_of as update_of_tree};
ghost use Rattle.typing_rules.specs.Lines.{is_shared as is_shared_mode, take_of as take_of_tree};
ghost use Rattle.typing_rules.specs.Lines.{with_update, with_line};
ghost use Rattle.spec_types.specs.faults.Views.{scope_of};

use crate::elaborating::formulas::{elems_of, guard_of, sentence_of, term_of};
use crate::faults::{Scope, elem_of};
use items::{Items, or_drop};
use spec_core::{Change, Operation, Spot, Take, Thing, Update};
use spec_trees as tree;
use spec_trees::{Formula, Line, Mark, Mode, Reading};
use std::alloc::{AllocError, Global};

fn spot_of(scope: &Scope<'_, '_>, spot: &tree::Spot) -> Spot
    ensures { result ≡ spot_of_tree (scope_of scope.now) spot.now }
{
    match spot {
        tree::Spot::One(mark) => Spot::One(elem_of(scope, mark)),
        tree::Spot::Every => Spot::Every,
    }
}

fn spots_of(
    alloc: Global,
    scope: &Scope<'_, '_>,
    spots: &[tree::Spot],
) -> Result<Items<Spot>, AllocError>
    ensures { IfOk result (λ made. made ≡ spots_of_tree (scope_of scope.now) spots.now) }
{
    let mut made = Items::new(alloc);
    for spot in spots {
        made.push(spot_of(scope, spot))?;
    }
    Ok(made)
}

fn relation_target(scope: &Scope<'_, '_>, mark: &Mark) -> Thing
    ensures { result ≡ relation_target_of (scope_of scope.now) mark.now }
{
    let relation = scope.names.relation(mark.text.bytes());
    Thing::Relation(relation.unwrap_or(0))
}

fn counter_target(scope: &Scope<'_, '_>, mark: &Mark) -> Thing
    ensures { result ≡ counter_target_of (scope_of scope.now) mark.now }
{
    let counter = scope.names.counter(mark.text.bytes());
    Thing::Counter(counter.unwrap_or(0))
}

fn update_of(
    alloc: Global,
    scope: &Scope<'_, '_>,
    thing: Thing,
    spots: &[tree::Spot],
    change: Change,
    guard: &Option<Formula>,
) -> Result<Update, AllocError>
    ensures { IfOk result (λ update. update ≡ update_of_tree
        (scope_of scope.now) thing spots.now change (guard_form guard.now)) }
{
    let at = or_drop!(spots_of(alloc, scope, spots); change);
    let guard = or_drop!(guard_of(alloc, scope, guard); change, at);
    Ok(Update {
        thing,
        at,
        change,
        guard,
    })
}

fn is_shared(mode: Mode) -> bool
    ensures { result ≡ is_shared_mode mode }
{
    match mode {
        Mode::Missing => false,
        Mode::Shared => true,
        Mode::Exclusive => false,
    }
}

fn take_of(
    alloc: Global,
    scope: &Scope<'_, '_>,
    reading: &Reading,
    mode: Mode,
) -> Result<Take, AllocError>
    ensures { IfOk result (λ take. take ≡ take_of_tree (scope_of scope.now) reading.now mode) }
{
    let args = elems_of(alloc, scope, reading.args.as_slice())?;
    let token = scope.names.token(reading.name.text.bytes());
    let draft = scope.draft;
    Ok(Take {
        token: token.unwrap_or(0),
        args,
        shared: is_shared(mode) && draft.version == 2,
    })
}

fn add_update(
    alloc: Global,
    scope: &Scope<'_, '_>,
    operation: &mut Operation,
    thing: Thing,
    spots: &[tree::Spot],
    change: Change,
    guard: &Option<Formula>,
) -> Result<(), AllocError>
    ensures { OnOk result
        (operation.new
        ≡ with_update operation.old
        (update_of_tree (scope_of scope.now) thing spots.now change (guard_form guard.now))) }
{
    let update = update_of(alloc, scope, thing, spots, change, guard)?;
    operation.updates.push(update)
}

fn add_requirement(
    alloc: Global,
    scope: &Scope<'_, '_>,
    operation: &mut Operation,
    sentence: &tree::Prefixed,
) -> Result<(), AllocError>
    ensures { OnOk result
        (operation.new
        ≡ with_line (scope_of scope.now) operation.old
        (requires_form 0 (sentence_form sentence.now))) }
{
    let made = sentence_of(alloc, scope, sentence)?;
    operation.requires_.push(made)
}

fn add_take(
    alloc: Global,
    scope: &Scope<'_, '_>,
    operation: &mut Operation,
    reading: &Reading,
    mode: Mode,
) -> Result<(), AllocError>
    ensures { OnOk result (operation.new ≡ with_line (scope_of scope.now) operation.old
        (takes_form 0 reading.now mode)) }
{
    let made = take_of(alloc, scope, reading, mode)?;
    operation.takes.push(made)
}

fn add_observation(
    alloc: Global,
    scope: &Scope<'_, '_>,
    operation: &mut Operation,
    sentence: &tree::Prefixed,
) -> Result<(), AllocError>
    ensures { OnOk result
        (operation.new
        ≡ with_line (scope_of scope.now) operation.old
        (observes_form 0 (sentence_form sentence.now))) }
{
    let made = sentence_of(alloc, scope, sentence)?;
    operation.observes.push(made)
}

/// Adds a line to an operation.
pub fn add_line(
    alloc: Global,
    scope: &Scope<'_, '_>,
    operation: &mut Operation,
    line: &Line,
) -> Result<(), AllocError>
    ensures { OnOk result (operation.new ≡ with_line (scope_of scope.now) operation.old
        (line_of line.now)) }
{
    match line {
        Line::Requires(_, sentence) => add_requirement(alloc, scope, operation, sentence),
        Line::Insert(_, mark, spots, guard) => {
            let (thing, spots) = (relation_target(scope, mark), spots.as_slice());
            add_update(alloc, scope, operation, thing, spots, Change::Insert, guard)
        }
        Line::Remove(_, mark, spots, guard) => {
            let (thing, spots) = (relation_target(scope, mark), spots.as_slice());
            add_update(alloc, scope, operation, thing, spots, Change::Remove, guard)
        }
        Line::Add(_, mark, spots, amount, guard) => {
            let (thing, spots) = (counter_target(scope, mark), spots.as_slice());
            let change = Change::Add(term_of(alloc, scope, amount)?);
            add_update(alloc, scope, operation, thing, spots, change, guard)
        }
        Line::Set(_, mark, spots, amount, guard) => {
            let (thing, spots) = (counter_target(scope, mark), spots.as_slice());
            let change = Change::Set(term_of(alloc, scope, amount)?);
            add_update(alloc, scope, operation, thing, spots, change, guard)
        }
        Line::Takes(_, reading, mode) => add_take(alloc, scope, operation, reading, *mode),
        Line::Observes(_, sentence) => add_observation(alloc, scope, operation, sentence),
    }
}
