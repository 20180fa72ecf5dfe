// The whole ground problem, completed from the lazy one.
//
// Where a search doesn't prove the obligation, all formulas are asked for. Those that the pairs stand for are made now, and put between
// those in front and those behind. They are made as in any ground problem, which asks for numbers by guesses that are mostly right. They
// name nothing new, so that nothing that was made is made anew.
ghost use Rattle.std.specs.Prelude.{◌≡◌, ◌<◌, ◌+◌, ◌++◌, [], length, map, drop, slice_index_or};
ghost use Rattle.std.specs.Prelude.{IfOk, OnOk};
ghost use Rattle.std.specs.List.{flat_map};
ghost use Rattle.spec_core.specs.Specification.{Specification};
ghost use Rattle.spec_core.specs.declared.update.Thing.TheVariants as thing;
ghost use Rattle.ground_problem.specs.Equality as equality;
ghost use Rattle.ground_numbers.specs.Numbers.{numbered};
ghost use Rattle.ground_atoms.specs.Formulas.{form_of};
ghost use Rattle.instances.specs.Ground.{IsGrounded};
ghost use Rattle.lazy_ground.specs.{Pairs.{pair_forms}, Lazy.{IsLazyGround}};
ghost use Rattle.lazy_ground.specs.Named.{IsNamed, AllNamed};
ghost use Rattle.lazy_ground.specs.Kept.{HasLazyKept, HasWholeKept, IsKept};

use crate::grounding::{Kept, LazyGround};
use crate::keeping::KeptPairs;
use crate::pairs::ReadingPairs;
use ground_atoms::{Atoms, GroundFormula};
use instances::{Grounded, congruent};
use items::Items;
use obligation_list::Obligation;
use spec_core::{Spec, Thing};
use std::alloc::{AllocError, Global};

/// The whole ground problem of an obligation, and the pairs of its readings at the entry, for the next obligation.
#[derive(Drop)]
pub struct WholeGround {
    pub ground: Grounded,
    pub pairs: KeptPairs,
}

impl WholeGround {
    /// What it leaves for the next obligation.
    pub fn into_kept(self) -> Kept
        ensures { (d : Specification) → HasWholeKept d self → IsKept d result }
    {
        let WholeGround { ground, pairs } = self;
        Kept {
            entry: ground.into_entry(),
            pairs: Some(pairs),
        }
    }
}

// The formula of the tuples at two places, which names nothing new.
fn formula_at(
    atoms: &mut Atoms,
    alloc: Global,
    pairs: &ReadingPairs,
    earlier: usize,
    later: usize,
) -> Result<GroundFormula, AllocError>
    requires earlier { earlier < later }
    requires later { later < length pairs.now.tuples }
    requires named { IsNamed atoms.old.table pairs.now }
    ensures atoms { OnOk result (atoms.new ≡ atoms.old) }
    ensures formula { IfOk result (λ f. form_of f
        ≡ numbered atoms.old.table (equality.congruent (thing.Relation pairs.now.relation)
        (slice_index_or pairs.now.tuples earlier []) (slice_index_or pairs.now.tuples later []))) }
{
    let tuples = pairs.tuples.as_slice();
    congruent(
        atoms,
        alloc,
        Thing::Relation(pairs.relation),
        tuples[earlier].as_slice(),
        tuples[later].as_slice(),
    )
}

// Appends the formulas of the tuple at a place and each behind it.
fn add_with_later(
    atoms: &mut Atoms,
    alloc: Global,
    pairs: &ReadingPairs,
    earlier: usize,
    out: &mut Items<GroundFormula>,
) -> Result<(), AllocError>
    requires earlier { earlier < length pairs.now.tuples }
    requires named { IsNamed atoms.old.table pairs.now }
    ensures atoms { OnOk result (atoms.new ≡ atoms.old) }
    ensures formulas { OnOk result (map form_of out.new ≡ map form_of out.old
        ++ map (numbered atoms.old.table) (map (equality.congruent (thing.Relation pairs.now.relation)
        (slice_index_or pairs.now.tuples earlier [])) (drop (earlier + 1) pairs.now.tuples))) }
{
    let count = pairs.tuples.len();
    for later in earlier + 1..count {
        let formula = formula_at(atoms, alloc, pairs, earlier, later)?;
        out.push(formula)?;
    }
    Ok(())
}

// Appends the formulas of every two of a relation's tuples.
fn add_pairs(
    atoms: &mut Atoms,
    alloc: Global,
    pairs: &ReadingPairs,
    out: &mut Items<GroundFormula>,
) -> Result<(), AllocError>
    requires { IsNamed atoms.old.table pairs.now }
    ensures atoms { OnOk result (atoms.new ≡ atoms.old) }
    ensures formulas { OnOk result
        (map form_of out.new ≡ map form_of out.old ++ pair_forms atoms.old.table pairs.now) }
{
    for earlier in 0..pairs.tuples.len() {
        add_with_later(atoms, alloc, pairs, earlier, out)?;
    }
    Ok(())
}

// Appends the formulas of every two tuples of each of these relations.
fn add_all_pairs(
    atoms: &mut Atoms,
    alloc: Global,
    pairs: &[ReadingPairs],
    out: &mut Items<GroundFormula>,
) -> Result<(), AllocError>
    requires { AllNamed atoms.old.table pairs.now }
    ensures atoms { OnOk result (atoms.new ≡ atoms.old) }
    ensures formulas { OnOk result (map form_of out.new
        ≡ map form_of out.old ++ flat_map (pair_forms atoms.old.table) pairs.now) }
{
    for some in pairs {
        add_pairs(atoms, alloc, some, out)?;
    }
    Ok(())
}

// Formulas, and others behind them.
fn joined(
    front: Items<GroundFormula>,
    behind: Items<GroundFormula>,
) -> Result<Items<GroundFormula>, AllocError>
    ensures { IfOk result (λ all. all ≡ front ++ behind) }
{
    let mut all = front.into_vec();
    let mut more = behind.into_vec();
    let added = all.append(&mut more);
    drop(more);
    or_drop!(added; all);
    Ok(Items::from_vec(all))
}

// The formulas in front, those of all pairs, and those behind.
fn all_formulas(
    atoms: &mut Atoms,
    alloc: Global,
    front: Items<GroundFormula>,
    pairs: &[ReadingPairs],
    behind: Items<GroundFormula>,
) -> Result<Items<GroundFormula>, AllocError>
    requires { AllNamed atoms.old.table pairs.now }
    ensures atoms { OnOk result (atoms.new ≡ atoms.old) }
    ensures formulas { IfOk result (λ all. map form_of all ≡ map form_of front
        ++ (flat_map (pair_forms atoms.old.table) pairs.now ++ map form_of behind)) }
{
    let mut formulas = front;
    let added = add_all_pairs(atoms, alloc, pairs, &mut formulas);
    or_drop!(added; formulas, behind);
    joined(formulas, behind)
}

impl LazyGround {
    /// The whole ground problem that it stands for: the formulas of all pairs are made, and put where they belong. No other formula is
    /// made anew, and no number changes.
    pub fn into_whole(
        self,
        alloc: Global,
        spec: &Spec,
        ob: &Obligation,
    ) -> Result<WholeGround, AllocError>
        requires { IsLazyGround spec.now ob.now self }
        ensures ground { IfOk result (λ whole. IsGrounded spec.now ob.now whole.ground) }
        ensures kept { HasLazyKept spec.now self → IfOk result (HasWholeKept spec.now) }
    {
        let (_spec, _ob) = (spec, ob);
        let LazyGround {
            mut atoms,
            front,
            pairs,
            behind,
            sorts,
            calls,
            elements,
            readings,
            part,
        } = self;
        let made = all_formulas(&mut atoms, alloc, front, pairs.as_slice(), behind);
        let formulas = or_drop!(made; part, readings, elements, calls, sorts, pairs, atoms);
        Ok(WholeGround {
            ground: Grounded {
                consts: sorts,
                calls,
                elements,
                atoms,
                formulas,
                part,
            },
            pairs: KeptPairs { readings, pairs },
        })
    }
}
