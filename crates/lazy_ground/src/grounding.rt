// The ground problem of an obligation: the whole of it where it has few pairs of readings, and else the lazy one. The formulas are counted
// before those on equal readings are made: where they are too many, none of these is.
ghost use Rattle.std.specs.Prelude.{◌≡◌, ◌≤◌, ◌++◌, [], length, map, IfOk, IfSome};
ghost use Rattle.std.specs.List.{flat_map};
ghost use Rattle.obligation_list.specs.Obligations.{IsObligation, things};
ghost use Rattle.obligation_list.specs.declared.obligation.Obligation.{Obligation};
ghost use Rattle.ground_problem.specs.{Problem.{formulas_of, most_formulas}, Equality.{congruence}};
ghost use Rattle.ground_atoms.specs.Symbols.{reading_of};
ghost use Rattle.ground_numbers.specs.Numbers.{Table};
ghost use Rattle.ground_groups.specs.Limited.{Makes};
ghost use Rattle.lazy_ground.specs.{Front.{IsFront, ArePairsFor}, Pairs.{pairs_of, AllNumbered}};
ghost use Rattle.lazy_ground.specs.Named.{AllFit, AreFound, known_after};
ghost use Rattle.lazy_ground.specs.Kept.{IsKeptPairs, IsKept, HasLazyKept, HasKept};
ghost use Rattle.lazy_ground.specs.Kept.{HasEitherClauses};
ghost use Rattle.lazy_ground.specs.Lazy.{IsGroundEither};
ghost use Rattle.spec_core.specs.Specification.{Specification};
ghost use Rattle.instances.specs.Entry.{IsEntry, entry_with};

use crate::choosing::{choose, has_too_many, has_too_many_beside};
use crate::front::{Front, FrontAndPairs, make_front};
use crate::keeping::KeptPairs;
use crate::numbering::number_all_pairs;
use crate::pairs::ReadingPairs;
use ground_atoms::{Atoms, GroundCall, GroundFormula, NamedReading};
use ground_groups::{GroundRefused, Grounding, Named, things_of};
use instances::{Entry, EntryPart, Grounded, add_congruence};
use items::Items;
use obligation_list::Obligation;
use spec_core::{Spec, Thing};
use std::alloc::{AllocError, Global};

/// The ground problem of an obligation, without the formulas on equal readings of relations: the atoms and the integer names by their
/// numbers; the formulas in front of those that the pairs stand for; the pairs of each relation; the formulas behind them; the sorts
/// of the constants, the calls at them and the elements of the conclusion; the readings at the entry; and how much of the atoms and of
/// the formulas in front is the entry's.
#[derive(Drop)]
pub struct LazyGround {
    pub atoms: Atoms,
    pub front: Items<GroundFormula>,
    pub pairs: Items<ReadingPairs>,
    pub behind: Items<GroundFormula>,
    pub sorts: Items<u8>,
    pub calls: Items<GroundCall>,
    pub elements: Items<u32>,
    pub readings: Items<NamedReading>,
    pub part: Option<EntryPart>,
}

/// A ground problem, whole or lazy; or that there are too many formulas, with what is left for the next obligation.
#[derive(Drop)]
pub enum EitherGround {
    Whole(Grounded),
    Lazy(LazyGround),
    TooMany(Kept),
}

/// What the ground problem of one obligation leaves for the next one.
#[derive(Drop)]
pub struct Kept {
    pub entry: Option<Entry>,
    pub pairs: Option<KeptPairs>,
}

impl Kept {
    /// Nothing, which is what the first obligation goes on from.
    pub fn none() -> Kept
        ensures { (d : Specification) → IsKept d result }
    {
        Kept {
            entry: None,
            pairs: None,
        }
    }
}

// The entry in what was made of it and more; nothing where nothing says how much of that it is.
fn entry_of(
    sorts: Items<u8>,
    atoms: Atoms,
    formulas: Items<GroundFormula>,
    part: Option<EntryPart>,
) -> Option<Entry>
    ensures entry { (d : Specification) → IfSome part (λ p. IsEntry d (entry_with sorts atoms formulas p))
        → IfSome result (IsEntry d) }
    ensures atoms { IfSome result (λ e. e.atoms ≡ atoms) }
{
    match part {
        Some(part) => Some(Entry {
            sorts,
            atoms,
            formulas,
            part,
        }),
        None => {
            drop(sorts);
            drop(atoms);
            drop(formulas);
            None
        }
    }
}

// Pairs of readings, to be kept with these; nothing where none were made.
fn kept_with(readings: Items<NamedReading>, pairs: Option<Items<ReadingPairs>>) -> Option<KeptPairs>
    requires { IfSome pairs (λ ss. IsKeptPairs (record { readings = readings; pairs = ss })) }
    ensures pairs { IfSome result IsKeptPairs }
    ensures numbers { (o : Table) → IfSome pairs (AllNumbered o)
        → IfSome result (λ k. AllNumbered o k.pairs) }
{
    match pairs {
        Some(pairs) => Some(KeptPairs { readings, pairs }),
        None => {
            drop(readings);
            None
        }
    }
}

impl Front {
    // What it leaves for the next obligation, with the pairs of its readings, where they were made.
    fn into_kept(self, pairs: Option<Items<ReadingPairs>>) -> Kept
        requires { IfSome pairs (ArePairsFor self) }
        ensures { (d : Specification) (ob : Obligation) → IsFront d ob self → IsKept d result }
    {
        let Front {
            named,
            grounding,
            readings,
            part,
        } = self;
        drop(named.calls);
        drop(named.chosen);
        drop(named.elements);
        Kept {
            entry: entry_of(named.sorts, grounding.atoms, grounding.formulas, part),
            pairs: kept_with(readings, pairs),
        }
    }
}

impl LazyGround {
    /// What it leaves for the next obligation.
    pub fn into_kept(self) -> Kept
        ensures { (d : Specification) → HasLazyKept d self → IsKept d result }
    {
        let LazyGround {
            atoms,
            front,
            pairs,
            behind,
            sorts,
            calls,
            elements,
            readings,
            part,
        } = self;
        drop(behind);
        drop(calls);
        drop(elements);
        Kept {
            entry: entry_of(sorts, atoms, front, part),
            pairs: Some(KeptPairs { readings, pairs }),
        }
    }
}

impl EitherGround {
    /// What it leaves for the next obligation.
    pub fn into_kept(self) -> Kept
        ensures { (d : Specification) → HasKept d self → IsKept d result }
    {
        match self {
            EitherGround::Whole(ground) => Kept {
                entry: ground.into_entry(),
                pairs: None,
            },
            EitherGround::Lazy(ground) => ground.into_kept(),
            EitherGround::TooMany(kept) => kept,
        }
    }
}

// The whole ground problem, of which the front is made.
fn whole(
    spec: &Spec,
    ob: &Obligation,
    front: Front,
    all: &[Thing],
) -> Result<EitherGround, GroundRefused>
    requires front { IsFront spec.now ob.now front }
    requires things { all.now ≡ things spec.now }
    ensures ground { IsGroundEither spec.now ob.now result }
    ensures kept { IfOk result (HasKept spec.now) }
{
    let (_spec, _ob) = (spec, ob);
    let Front {
        named,
        mut grounding,
        readings,
        part,
    } = front;
    let added = add_congruence(&mut grounding, readings.as_slice(), all);
    drop(readings);
    or_drop!(added; part, named, grounding);
    drop(named.chosen);
    Ok(EitherGround::Whole(Grounded {
        consts: named.sorts,
        calls: named.calls,
        elements: named.elements,
        atoms: grounding.atoms,
        formulas: grounding.formulas,
        part,
    }))
}

// The formulas on equal readings of counters, made behind those that these pairs stand for: what these name gets its numbers first.
fn add_behind(
    behind: &mut Grounding,
    readings: &[NamedReading],
    pairs: &[ReadingPairs],
    counters: &[Thing],
) -> Result<(), GroundRefused>
    requires none { behind.old.formulas ≡ [] }
    requires numbered { AllNumbered behind.old.atoms.table pairs.now }
    requires fit { AllFit pairs.now }
    ensures { Makes result (known_after behind.old.atoms (flat_map pairs_of pairs.now))
        (congruence (map reading_of readings.now) counters.now) behind.new }
{
    number_all_pairs(&mut behind.atoms, pairs)?;
    add_congruence(behind, readings, counters)
}

// The lazy ground problem, of which the front and the pairs are made.
fn lazily(
    spec: &Spec,
    ob: &Obligation,
    front: Front,
    pairs: Items<ReadingPairs>,
    relations: &[Thing],
    counters: &[Thing],
) -> Result<EitherGround, GroundRefused>
    requires few { length (formulas_of spec.now ob.now) ≤ most_formulas }
    requires front { IsFront spec.now ob.now front }
    requires pairs { AreFound front.grounding.atoms.table (map reading_of front.readings)
        relations.now pairs }
    requires things { relations.now ++ counters.now ≡ things spec.now }
    ensures ground { IsGroundEither spec.now ob.now result }
    ensures kept { IfOk result (HasKept spec.now) }
{
    let (_spec, _ob) = (spec, ob);
    let _relations = relations;
    let Front {
        named,
        grounding,
        readings,
        part,
    } = front;
    let front = grounding.formulas;
    let mut behind = Grounding::new(grounding.alloc, grounding.atoms);
    let added = add_behind(&mut behind, readings.as_slice(), pairs.as_slice(), counters);
    or_drop!(added; pairs, part, readings, front, named, behind);
    drop(named.chosen);
    Ok(EitherGround::Lazy(LazyGround {
        atoms: behind.atoms,
        front,
        pairs,
        behind: behind.formulas,
        sorts: named.sorts,
        calls: named.calls,
        elements: named.elements,
        readings,
        part,
    }))
}

// The lazy ground problem, of which the front and the pairs are made; or that there are too many formulas.
fn lazily_within(
    spec: &Spec,
    ob: &Obligation,
    front: Front,
    pairs: Items<ReadingPairs>,
    relations: &[Thing],
    counters: &[Thing],
) -> Result<EitherGround, GroundRefused>
    requires front { IsFront spec.now ob.now front }
    requires pairs { AreFound front.grounding.atoms.table (map reading_of front.readings)
        relations.now pairs }
    requires things { relations.now ++ counters.now ≡ things spec.now }
    ensures ground { IsGroundEither spec.now ob.now result }
    ensures kept { IfOk result (HasKept spec.now) }
{
    if has_too_many_beside(spec, ob, &front, pairs.as_slice(), relations, counters) {
        return Ok(EitherGround::TooMany(front.into_kept(Some(pairs))));
    }
    lazily(spec, ob, front, pairs, relations, counters)
}

// The whole ground problem, of which the front is made; or that there are too many formulas.
fn whole_within(
    spec: &Spec,
    ob: &Obligation,
    front: Front,
    all: &[Thing],
) -> Result<EitherGround, GroundRefused>
    requires front { IsFront spec.now ob.now front }
    requires things { all.now ≡ things spec.now }
    ensures ground { IsGroundEither spec.now ob.now result }
    ensures kept { IfOk result (HasKept spec.now) }
{
    if has_too_many(spec, ob, &front, all) {
        return Ok(EitherGround::TooMany(front.into_kept(None)));
    }
    whole(spec, ob, front, all)
}

// The ground problem, of which the front is made: whole or lazy, as is chosen; or that there are too many formulas.
fn as_chosen(
    alloc: Global,
    spec: &Spec,
    ob: &Obligation,
    front: Front,
    all: &[Thing],
    kept: Option<Items<ReadingPairs>>,
) -> Result<EitherGround, GroundRefused>
    requires front { IsFront spec.now ob.now front }
    requires things { all.now ≡ things spec.now }
    requires kept { IfSome kept (ArePairsFor front) }
    ensures ground { IsGroundEither spec.now ob.now result }
    ensures kept { IfOk result (HasKept spec.now) }
{
    let count = spec.relations.len().min(all.len());
    let (relations, counters) = all.split_at(count);
    match choose(alloc, &front, relations, kept) {
        Ok(Some(pairs)) => lazily_within(spec, ob, front, pairs, relations, counters),
        Ok(None) => whole_within(spec, ob, front, all),
        Err(AllocError) => {
            drop(front);
            Err(GroundRefused::Memory)
        }
    }
}

/// The ground problem of an obligation of the specification, as `ground_lazily` makes it. It goes on from what the problem of another
/// obligation left, as far as this one has the same.
pub fn ground_lazily_from(
    alloc: Global,
    spec: &Spec,
    ob: &Obligation,
    kept: Kept,
) -> Result<EitherGround, GroundRefused>
    requires member { IsObligation spec.now ob.now }
    requires kept { IsKept spec.now kept }
    ensures ground { IsGroundEither spec.now ob.now result }
    ensures kept { IfOk result (HasKept spec.now) }
    ensures clauses { IfOk result HasEitherClauses }
{
    let Ok(all) = things_of(alloc, spec) else {
        drop(kept);
        return Err(GroundRefused::Memory);
    };
    let made = make_front(alloc, spec, ob, kept);
    let FrontAndPairs { front, pairs } = or_drop!(made; all);
    let result = as_chosen(alloc, spec, ob, front, all.as_slice(), pairs);
    drop(all);
    result
}

/// The ground problem of an obligation of the specification. It is whole where there are few pairs of readings. It has too many formulas
/// exactly where the list has more than 20,000: those on equal readings are counted before any of them is made, and what was made of the
/// entry is left then; a list that is too long without them is refused, and leaves nothing.
pub fn ground_lazily(
    alloc: Global,
    spec: &Spec,
    ob: &Obligation,
) -> Result<EitherGround, GroundRefused>
    requires { IsObligation spec.now ob.now }
    ensures ground { IsGroundEither spec.now ob.now result }
    ensures clauses { IfOk result HasEitherClauses }
{
    ground_lazily_from(alloc, spec, ob, Kept::none())
}
