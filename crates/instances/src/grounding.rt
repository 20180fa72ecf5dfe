// The ground problem of an obligation.
ghost use Rattle.std.specs.Prelude.{◌≡◌, ◌++◌, [], true, length, map, Some, IfOk, IfSome};
ghost use Rattle.std.specs.List.{list_all};
ghost use Rattle.proof_lines.specs.Problems.{names_below};
ghost use Rattle.obligation_list.specs.Breaking as breaking;
ghost use Rattle.obligation_list.specs.Obligations.{IsObligation};
ghost use Rattle.ground_problem.specs.{Constants.{constants_of}, Problem.{formulas_of}};
ghost use Rattle.ground_problem.specs.Entry.{entry};
ghost use Rattle.ground_problem.specs.Equality as equality;
ghost use Rattle.ground_numbers.specs.{Numbered.{is_below}, Problem.{kind_of, problem}};
ghost use Rattle.ground_atoms.specs.{Symbols.{reading_of}, Formulas.{form_of}, Calls.{calls_of}};
ghost use Rattle.ground_groups.specs.Limited.{Appends, Makes, make_upto, made_in};
ghost use Rattle.ground_groups.specs.Calls.{constants_in, numbered_arguments};
ghost use Rattle.spec_core.specs.Specification.{Specification};
ghost use Rattle.instances.specs.Ground.{IsGround};
ghost use Rattle.instances.specs.Entry.{IsEntry, IsBegun, HasEntry, HasEntryClauses};

use crate::agreeing::add_congruence;
use crate::entry::{Begun, Entry, EntryPart, begin, kept_clauses};
use crate::equating::add_equality;
use crate::listing::add_all_defined;
use clausify::problem_from;
use ground_atoms::{Atoms, GroundCall, GroundFormula, NamedReading};
use ground_groups::defining::readings_after;
use ground_groups::{
    GroundRefused, Grounding, Named, constants, number_arguments, operations_of, things_of,
};
use ground_numbers::law_arguments_are_first;
use items::Items;
use obligation_list::Obligation;
use proof_lines::Problem;
use spec_core::{Spec, Thing};
use std::alloc::{AllocError, Global};

/// The ground problem of an obligation: the sort of each constant, the calls at constants, the elements of the conclusion, the
/// atoms and the integer names by their numbers, the formulas over these numbers, and how many of all that are those of the entry.
#[derive(Drop)]
pub struct Grounded {
    pub consts: Items<u8>,
    pub calls: Items<GroundCall>,
    pub elements: Items<u32>,
    pub atoms: Atoms,
    pub formulas: Items<GroundFormula>,
    pub part: Option<EntryPart>,
}

impl Grounded {
    /// Where the entry can be taken back, the clauses that are kept are those of its formulas.
    pub fn law_clauses(&self)
        ensures { (d : Specification) → HasEntry d self.now → HasEntryClauses self.now }
    {}

    /// The problem of the formulas. The clauses of the entry, which are kept, are copied.
    pub fn problem(&self, alloc: Global) -> Result<Problem, AllocError>
        requires clauses { HasEntryClauses self.now }
        requires named { list_all (is_below (length self.now.atoms.table.atoms))
            (map form_of self.now.formulas) ≡ true }
        requires placed { list_all (names_below (length self.now.atoms.table.ints))
            (map kind_of self.now.atoms.table.atoms) ≡ true }
        ensures { IfOk result (λ p. p
            ≡ problem self.now.atoms.table (map form_of self.now.formulas)) }
    {
        let kept = kept_clauses(&self.part);
        problem_from(alloc, &self.atoms, self.formulas.as_slice(), kept)
    }

    /// The entry of the problem, for other obligations that share it; nothing where there is none.
    pub fn into_entry(self) -> Option<Entry>
        ensures entry { (d : Specification) → HasEntry d self → IfSome result (IsEntry d) }
        ensures atoms { IfSome result (λ e. e.atoms ≡ self.atoms) }
    {
        let Grounded {
            consts,
            calls,
            elements,
            atoms,
            formulas,
            part,
        } = self;
        drop(calls);
        drop(elements);
        match part {
            Some(part) => Some(Entry {
                sorts: consts,
                atoms,
                formulas,
                part,
            }),
            None => {
                drop(consts);
                drop(atoms);
                drop(formulas);
                None
            }
        }
    }
}

/// The numbering in which the whole numbers among the arguments of these operations' calls have the first numbers.
pub fn numbered(
    alloc: Global,
    spec: &Spec,
    ob: &Obligation,
    ops: &[u8],
) -> Result<Atoms, AllocError>
    requires { ops.now ≡ breaking.operations_of ob.now }
    ensures { IfOk result (λ atoms. atoms ≡ numbered_arguments spec.now ob.now) }
{
    let _ob = ob;
    let mut atoms = Atoms::new(alloc);
    number_arguments(&mut atoms, spec, ops)?;
    law_arguments_are_first();
    Ok(atoms)
}

// Appends that equality goes over constants of one sort, and that these things read the same at equal tuples.
fn add_equal(
    grounding: &mut Grounding,
    sorts: &[u8],
    readings: &[NamedReading],
    things: &[Thing],
) -> Result<(), GroundRefused>
    ensures { Appends result grounding.old
        (equality.equality 0 sorts.now
        ++ equality.congruence (map reading_of readings.now) things.now)
        grounding.new }
{
    match add_equality(grounding, sorts) {
        Ok(()) => {}
        Err(refused) => return Err(refused),
    }
    add_congruence(grounding, readings, things)
}

// Appends to what is true at the entry all other formulas of an obligation.
fn add_all(
    grounding: &mut Grounding,
    spec: &Spec,
    ob: &Obligation,
    ops: &[u8],
    named: &Named,
) -> Result<(), GroundRefused>
    requires member { IsObligation spec.now ob.now }
    requires ops { ops.now ≡ breaking.operations_of ob.now }
    requires calls { named.now.calls ≡ calls_of spec.now ob.now }
    requires constants { constants_in named.now ≡ constants_of spec.now ob.now }
    requires begun { make_upto [] (numbered_arguments spec.now ob.now)
        (entry spec.now ob.now (constants_of spec.now ob.now))
        ≡ Some (made_in grounding.now) }
    ensures { Makes result (numbered_arguments spec.now ob.now)
        (formulas_of spec.now ob.now) grounding.new }
{
    match add_all_defined(grounding, spec, ob, ops, named) {
        Ok(()) => {}
        Err(refused) => return Err(refused),
    }
    let readings = readings_after(grounding.alloc, &grounding.atoms, 0)?;
    let things = things_of(grounding.alloc, spec)?;
    add_equal(
        grounding,
        named.sorts.as_slice(),
        readings.as_slice(),
        things.as_slice(),
    )
}

// The ground problem of which the entry is made.
fn finish(
    spec: &Spec,
    ob: &Obligation,
    ops: &[u8],
    named: Named,
    begun: Begun,
) -> Result<Grounded, GroundRefused>
    requires member { IsObligation spec.now ob.now }
    requires ops { ops.now ≡ breaking.operations_of ob.now }
    requires calls { named.calls ≡ calls_of spec.now ob.now }
    requires constants { constants_in named ≡ constants_of spec.now ob.now }
    requires begun { IsBegun spec.now ob.now begun }
    ensures ground { IsGround spec.now ob.now result }
    ensures entry { IfOk result (HasEntry spec.now) }
{
    let Begun {
        mut grounding,
        part,
        ..
    } = begun;
    let added = add_all(&mut grounding, spec, ob, ops, &named);
    or_drop!(added; part, grounding, named);
    drop(named.chosen);
    Ok(Grounded {
        consts: named.sorts,
        calls: named.calls,
        elements: named.elements,
        atoms: grounding.atoms,
        formulas: grounding.formulas,
        part,
    })
}

/// The ground problem of an obligation of the specification, as `ground` makes it. It goes on from an entry that was kept, where this
/// obligation has the same.
pub fn ground_from(
    alloc: Global,
    spec: &Spec,
    ob: &Obligation,
    kept: Option<Entry>,
) -> Result<Grounded, GroundRefused>
    requires member { IsObligation spec.now ob.now }
    requires kept { IfSome kept (IsEntry spec.now) }
    ensures ground { IsGround spec.now ob.now result }
    ensures entry { IfOk result (HasEntry spec.now) }
{
    let Ok(ops) = operations_of(alloc, ob) else {
        drop(kept);
        return Err(GroundRefused::Memory);
    };
    let result = ground_ops(alloc, spec, ob, ops.as_slice(), kept);
    drop(ops);
    result
}

// The same, where these are the operations that are called.
fn ground_ops(
    alloc: Global,
    spec: &Spec,
    ob: &Obligation,
    ops: &[u8],
    kept: Option<Entry>,
) -> Result<Grounded, GroundRefused>
    requires member { IsObligation spec.now ob.now }
    requires ops { ops.now ≡ breaking.operations_of ob.now }
    requires kept { IfSome kept (IsEntry spec.now) }
    ensures ground { IsGround spec.now ob.now result }
    ensures entry { IfOk result (HasEntry spec.now) }
{
    let Ok(arguments) = numbered(alloc, spec, ob, ops) else {
        drop(kept);
        return Err(GroundRefused::Memory);
    };
    let Ok(named) = constants(alloc, spec, ob) else {
        drop(kept);
        drop(arguments);
        return Err(GroundRefused::Memory);
    };
    match begin(alloc, spec, ob, &named, arguments, kept) {
        Ok(begun) => finish(spec, ob, ops, named, begun),
        Err(refused) => {
            drop(named);
            Err(refused)
        }
    }
}

/// The ground problem of an obligation of the specification. It has too many formulas exactly where the list has more than 20,000.
pub fn ground(alloc: Global, spec: &Spec, ob: &Obligation) -> Result<Grounded, GroundRefused>
    requires { IsObligation spec.now ob.now }
    ensures { IsGround spec.now ob.now result }
{
    ground_from(alloc, spec, ob, None)
}
