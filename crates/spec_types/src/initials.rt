// Initial values.

ghost use Rattle.std.specs.Prelude.{◌≡◌, OnOk};
ghost use Rattle.spec_trees.specs.Form.{initially_form};
ghost use Rattle.typing_rules.specs.Items.{value_fault as value_fault_of};
ghost use Rattle.typing_rules.specs.Items.{initially_fault as initially_fault_of};
ghost use Rattle.typing_rules.specs.Items.{truth_of as truth_of_value};
ghost use Rattle.typing_rules.specs.Items.{number_of as number_of_value, initial_truth};
ghost use Rattle.typing_rules.specs.Items.{initial_number, initial_design, with_initial};
ghost use Rattle.typing_rules.specs.Items.{typed_item};
ghost use Rattle.spec_types.specs.{faults.Names.{meaning_in}, Refusals.{Makes}};
ghost use Rattle.spec_types.specs.{faults.Views.{faulted}, Views.{known_of}};

use crate::elaborating::literal_of;
use crate::faults::{Draft, Fault, literal_fault};
use crate::known::Known;
use crate::refusal::Stop;
use items::Items;
use spec_core::{Counter, Relation};
use spec_trees::{Mark, Value};
use std::alloc::{AllocError, Global};
use std::mem;
use typing_rules::Meaning;

/// A relation is initially true or false, a counter has a number.
fn value_fault<'t>(mark: &'t Mark, meaning: Option<Meaning>, value: &Value) -> Option<Fault<'t>>
    ensures { faulted result ≡ value_fault_of mark.now meaning value.now }
{
    match meaning {
        Some(Meaning::Relation(_)) => match value {
            Value::True => None,
            Value::False => None,
            Value::Number(_, _) => Some(Fault::Kind(mark)),
        },
        Some(Meaning::Counter(_)) => match value {
            Value::True => Some(Fault::Kind(mark)),
            Value::False => Some(Fault::Kind(mark)),
            Value::Number(_, figure) => literal_fault(figure),
        },
        Some(_) => Some(Fault::Kind(mark)),
        None => Some(Fault::Unknown(mark)),
    }
}

fn initially_fault<'t>(known: &Known, mark: &'t Mark, value: &Value) -> Option<Fault<'t>>
    ensures { faulted result ≡ initially_fault_of (known_of known.now) mark.now value.now }
{
    let name = mark.text.bytes();
    if known.stated.get(name).is_some() {
        return Some(Fault::Twice(mark));
    }
    value_fault(mark, known.names.get(name), value)
}

fn truth_of(value: &Value) -> bool
    ensures { result ≡ truth_of_value value.now }
{
    match value {
        Value::True => true,
        Value::False => false,
        Value::Number(_, _) => false,
    }
}

fn number_of(value: &Value) -> i64
    ensures { result ≡ number_of_value value.now }
{
    match value {
        Value::True => 0,
        Value::False => 0,
        Value::Number(minus, figure) => literal_of(*minus, figure),
    }
}

fn with_truth(relations: Items<Relation>, place: u8, value: bool) -> Items<Relation>
    ensures { result ≡ initial_truth relations place value }
{
    let mut relations = relations.into_vec();
    if (place as usize) < relations.len() {
        relations[place as usize].initial = value;
    }
    Items::from_vec(relations)
}

fn with_number(counters: Items<Counter>, place: u8, value: i64) -> Items<Counter>
    ensures { result ≡ initial_number counters place value }
{
    let mut counters = counters.into_vec();
    if (place as usize) < counters.len() {
        counters[place as usize].initial = value;
    }
    Items::from_vec(counters)
}

fn set_truth(alloc: Global, draft: &mut Draft, place: u8, value: bool)
    ensures { draft.new
        ≡ record draft.old { relations = initial_truth draft.old.relations place value } }
{
    let relations = mem::replace(&mut draft.relations, Items::new(alloc));
    draft.relations = with_truth(relations, place, value);
}

fn set_number(alloc: Global, draft: &mut Draft, place: u8, value: i64)
    ensures { draft.new
        ≡ record draft.old { counters = initial_number draft.old.counters place value } }
{
    let counters = mem::replace(&mut draft.counters, Items::new(alloc));
    draft.counters = with_number(counters, place, value);
}

fn set_initial(alloc: Global, draft: &mut Draft, meaning: Option<Meaning>, value: &Value)
    ensures { draft.new ≡ initial_design draft.old meaning value.now }
{
    match meaning {
        Some(Meaning::Relation(place)) => set_truth(alloc, draft, place, truth_of(value)),
        Some(Meaning::Counter(place)) => set_number(alloc, draft, place, number_of(value)),
        _ => {}
    }
}

fn add_initial(
    alloc: Global,
    known: &mut Known,
    mark: &Mark,
    value: &Value,
) -> Result<(), AllocError>
    ensures { OnOk result (known_of known.new
        ≡ with_initial (known_of known.old) mark.now value.now) }
{
    let name = mark.text.bytes();
    let meaning = known.names.get(name);
    set_initial(alloc, &mut known.draft, meaning, value);
    known.stated.add(name, Meaning::Invariant)?;
    Ok(())
}

/// Sets the initial value of a relation or a counter, or answers the first fault of the line.
pub fn type_initial<'t>(
    alloc: Global,
    known: &mut Known,
    word: u32,
    mark: &'t Mark,
    value: &Value,
) -> Result<(), Stop<'t>>
    ensures { Makes (typed_item (known_of known.old) (initially_form word mark.now value.now))
        (known_of known.new) result }
{
    if let Some(fault) = initially_fault(known, mark, value) {
        return Err(Stop::Fault(fault));
    }
    add_initial(alloc, known, mark, value)?;
    Ok(())
}
