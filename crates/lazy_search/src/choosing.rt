// Some clauses of a lazy ground problem, with the numbers that they have among all.
ghost use Rattle.std.specs.Prelude.{◌≡◌, ◌≤◌, ◌+◌, ◌++◌, ℕ, List, length, map, take, drop, OnOk};
ghost use Rattle.std.specs.{Prelude.{[], true, IfOk, IfSome}, List.{range_with_len, list_all}};
ghost use Rattle.proof_lines.specs.declared.clause.Lit.{Lit as PlainLit};
ghost use Rattle.ground_numbers.specs.Clauses.{all_clauses, all_names};
ghost use Rattle.ground_atoms.specs.Formulas.{form_of};
ghost use Rattle.lazy_ground.specs.{Lazy.{lazy_forms, ArePairs}, Kept.{HasClauses}};
ghost use Rattle.clausify.specs.Kept.{AreClausesOf};
ghost use Rattle.lazy_search.specs.Chosen.{AreAt, StandFrom, IsBehind, is_implied, IsLayout};
ghost use Rattle.lazy_search.specs.Refuting.{AreSizes, AreOf};

use crate::agreeing::PairAt;
use crate::counting::Sizes;
use crate::places::{Layout, Place, behind_single, firsts_of, place_of_pair};
use clausify::{KeptClauses, write_clauses};
use ground_atoms::GroundFormula;
use instances::kept_clauses;
use items::{Items, or_drop};
use lazy_ground::{LazyGround, pair_formula};
use proof_lines::Clause;
use std::alloc::{AllocError, Global};

/// Some clauses, and the number that each has among all.
#[derive(Drop)]
pub struct Chosen {
    pub clauses: Items<Clause>,
    pub numbers: Vec<u32>,
}

// Adds so many numbers, from one on.
fn add_numbers(numbers: &mut Vec<u32>, from: u32, many: usize) -> Result<(), AllocError>
    ensures { OnOk result (numbers.new.items ≡ numbers.old.items ++ range_with_len from many) }
{
    for place in 0..many {
        let Ok(further) = u32::try_from(place) else {
            return Err(AllocError);
        };
        let Some(number) = from.checked_add(further) else {
            return Err(AllocError);
        };
        numbers.push(number)?;
    }
    Ok(())
}

// Whether a formula says that two atoms imply a third one.
fn is_implied(form: &GroundFormula) -> bool
    ensures { result ≡ is_implied form.now }
{
    match form {
        GroundFormula::Implied(_, _, _) => true,
        GroundFormula::Truth(_) => false,
        GroundFormula::Lit(_, _) => false,
        GroundFormula::NotAtom(_) => false,
        GroundFormula::BothAtoms(_, _) => false,
        GroundFormula::AtomImplies(_, _) => false,
        GroundFormula::Congruent { .. } => false,
        GroundFormula::Not(_) => false,
        GroundFormula::And(_) => false,
        GroundFormula::Or(_) => false,
    }
}

// The place from which on all formulas say that two atoms imply a third one; it isn't among the first so many.
fn implied_from(forms: &[GroundFormula], count: usize) -> usize
    ensures within { result ≤ length forms.now }
    ensures implied { list_all is_implied (drop result forms.now) ≡ true }
{
    let mut from = forms.len();
    while from > count {
        if !is_implied(&forms[from - 1]) {
            return from;
        }
        from -= 1;
    }
    from
}

// The formulas behind so many.
pub(crate) fn forms_behind(forms: &[GroundFormula], count: usize) -> &[GroundFormula]
    ensures { map form_of result.now ≡ drop count (map form_of forms.now) }
{
    if count > forms.len() {
        return &[];
    }
    &forms[count..]
}

// Of how many formulas of the entry the clauses are at hand: they are the first ones.
fn count_kept(ground: &LazyGround) -> usize {
    match kept_clauses(&ground.part) {
        Some((_, count)) => count,
        None => 0,
    }
}

impl Chosen {
    // None yet, with room for so many.
    fn with_room(alloc: Global, many: usize) -> Result<Chosen, AllocError>
        ensures clauses { IfOk result (λ chosen. chosen.clauses ≡ []) }
        ensures numbers { IfOk result (λ chosen. chosen.numbers.items ≡ []) }
    {
        let clauses = Items::from_vec(Vec::with_capacity(alloc, many)?);
        let numbers = or_drop!(Vec::with_capacity(alloc, many); clauses);
        Ok(Chosen { clauses, numbers })
    }

    // Adds the clauses of some formulas, which stand from a place on, and answers the place behind them.
    fn add(
        &mut self,
        alloc: Global,
        at: Place,
        forms: &[GroundFormula],
    ) -> Result<Place, AllocError>
        ensures chosen { OnOk result ((all : List (List PlainLit))
            → StandFrom all at.clause (all_clauses at.name (map form_of forms.now))
            → AreAt all self.old.clauses self.old.numbers.items
            → AreAt all self.new.clauses self.new.numbers.items) }
        ensures clause { IfOk result (λ next. next.clause
            ≡ at.clause + length (all_clauses at.name (map form_of forms.now))) }
        ensures name { IfOk result (λ next. next.name
            ≡ at.name + all_names (map form_of forms.now)) }
    {
        let before = self.clauses.len();
        let name = write_clauses(alloc, at.name, forms, &mut self.clauses)?;
        let more = self.clauses.len() - before;
        add_numbers(&mut self.numbers, at.clause, more)?;
        let Ok(more) = u32::try_from(more) else {
            return Err(AllocError);
        };
        let Some(clause) = at.clause.checked_add(more) else {
            return Err(AllocError);
        };
        Ok(Place { clause, name })
    }

    // Adds the clauses of the formulas behind the first so many, whose clauses were kept and aren't added, and answers the place behind
    // them.
    fn add_behind(
        &mut self,
        alloc: Global,
        name: u32,
        forms: &[GroundFormula],
        count: usize,
        kept: &KeptClauses,
    ) -> Result<Place, AllocError>
        requires within { kept.now.first ≤ name }
        requires kept { AreClausesOf (take count (map form_of forms.now)) kept.now }
        ensures chosen { OnOk result ((all : List (List PlainLit))
            → StandFrom all 0 (all_clauses name (map form_of forms.now))
            → AreAt all self.old.clauses self.old.numbers.items
            → AreAt all self.new.clauses self.new.numbers.items) }
        ensures behind { IfOk result (IsBehind name (map form_of forms.now)) }
    {
        let Ok(clause) = u32::try_from(kept.clauses.len()) else {
            return Err(AllocError);
        };
        let Some(after) = name.checked_add(kept.names) else {
            return Err(AllocError);
        };
        let at = Place {
            clause,
            name: after,
        };
        let next = self.add(alloc, at, forms_behind(forms, count))?;
        Ok(next)
    }

    // Adds the clauses of the first so many formulas in front of the pairs, but for those of the entry that are at hand, and answers the
    // place behind all of them.
    fn add_front(
        &mut self,
        alloc: Global,
        ground: &LazyGround,
        name: u32,
        from: usize,
    ) -> Result<Place, AllocError>
        requires within { from ≤ length ground.now.front }
        requires clauses { HasClauses ground.now }
        ensures chosen { OnOk result ((all : List (List PlainLit))
            → StandFrom all 0 (all_clauses name (map form_of (take from ground.now.front)))
            → AreAt all self.old.clauses self.old.numbers.items
            → AreAt all self.new.clauses self.new.numbers.items) }
        ensures behind { IfOk result (IsBehind name (map form_of (take from ground.now.front))) }
    {
        let front = &ground.front.as_slice()[..from];
        match kept_clauses(&ground.part) {
            Some((kept, count)) if kept.first <= name && count <= from => {
                self.add_behind(alloc, name, front, count, kept)
            }
            _ => self.add(alloc, Place { clause: 0, name }, front),
        }
    }

    // Adds the clauses of the formulas in front of the pairs and of those behind them, without those of the entry's formulas and of the last
    // ones that say that two atoms imply a third one, and answers where all stand.
    fn add_around(
        &mut self,
        alloc: Global,
        ground: &LazyGround,
        name: u32,
    ) -> Result<Option<Layout>, AllocError>
        requires pairs { ArePairs ground.now.atoms.table ground.now.pairs }
        requires clauses { HasClauses ground.now }
        ensures chosen { IfOk result (λ found. IfSome found (λ layout.
            AreAt (all_clauses name (lazy_forms ground.now))
            self.old.clauses self.old.numbers.items
            → AreAt (all_clauses name (lazy_forms ground.now))
            self.new.clauses self.new.numbers.items)) }
        ensures layout { IfOk result (λ found. IfSome found
            (λ layout. IsLayout ground.now name layout)) }
    {
        let front = ground.front.as_slice();
        let from = implied_from(front, count_kept(ground));
        let transitive = self.add_front(alloc, ground, name, from)?;
        let Some(first) = behind_single(transitive, front.len() - from) else {
            return Ok(None);
        };
        let Some((firsts, pairs_end)) = firsts_of(alloc, first, ground.pairs.as_slice())? else {
            return Ok(None);
        };
        match self.add(alloc, pairs_end, ground.behind.as_slice()) {
            Ok(behind) => Ok(Some(Layout {
                firsts,
                behind,
                transitive,
                from,
            })),
            Err(error) => {
                drop(firsts);
                Err(error)
            }
        }
    }

    // Adds the clause of the entry that stands at a place among those that are at hand. It says whether it did: it does not where none
    // stands there.
    fn add_kept(
        &mut self,
        alloc: Global,
        ground: &LazyGround,
        sizes: &Sizes,
        place: u32,
    ) -> Result<bool, AllocError>
        requires clauses { HasClauses ground.now }
        requires sizes { AreSizes ground.now sizes.now }
        requires chosen { AreOf ground.now self.now }
        ensures { OnOk result (AreOf ground.now self.new) }
    {
        let Some((kept, _)) = kept_clauses(&ground.part) else {
            return Ok(false);
        };
        let Some(clause) = kept.at(alloc, sizes.first, place as usize)? else {
            return Ok(false);
        };
        self.clauses.push(clause)?;
        self.numbers.push(place)?;
        Ok(true)
    }

    // Adds the clause that has a number, where it is one of those that aren't written at once: of the last formulas in front of the pairs,
    // which say that two atoms imply a third one. It says whether it is.
    fn add_transitive(
        &mut self,
        alloc: Global,
        ground: &LazyGround,
        layout: &Layout,
        number: u32,
    ) -> Result<bool, AllocError>
        requires layout { IsLayout ground.now (length ground.now.atoms.table.atoms) layout.now }
        requires chosen { AreOf ground.now self.now }
        ensures { OnOk result (AreOf ground.now self.new) }
    {
        let Some(place) = number.checked_sub(layout.transitive.clause) else {
            return Ok(false);
        };
        let Some(at) = layout.from.checked_add(place as usize) else {
            return Ok(false);
        };
        if at >= ground.front.len() {
            return Ok(false);
        }
        let own = Place {
            clause: number,
            name: layout.transitive.name,
        };
        self.add(alloc, own, &ground.front.as_slice()[at..at + 1])?;
        Ok(true)
    }

    /// Adds the clause that has a number, where it is one of the entry's that are at hand, or says that equality is transitive. It says
    /// whether it did.
    pub fn add_numbered(
        &mut self,
        alloc: Global,
        ground: &LazyGround,
        sizes: &Sizes,
        layout: &Layout,
        number: u32,
    ) -> Result<bool, AllocError>
        requires clauses { HasClauses ground.now }
        requires sizes { AreSizes ground.now sizes.now }
        requires layout { IsLayout ground.now (length ground.now.atoms.table.atoms) layout.now }
        requires chosen { AreOf ground.now self.now }
        ensures { OnOk result (AreOf ground.now self.new) }
    {
        if self.add_kept(alloc, ground, sizes, number)? {
            return Ok(true);
        }
        self.add_transitive(alloc, ground, layout, number)
    }

    /// Adds the clauses of two tuples of a relation. It says whether it did: it does not where the formula isn't told, a place isn't there,
    /// or numbers don't reach.
    pub fn add_pair(
        &mut self,
        alloc: Global,
        ground: &LazyGround,
        layout: &Layout,
        pair: PairAt,
    ) -> Result<bool, AllocError>
        requires { ArePairs ground.now.atoms.table ground.now.pairs }
        ensures { OnOk result ((name : ℕ) → IsLayout ground.now name layout.now
            → AreAt (all_clauses name (lazy_forms ground.now))
            self.old.clauses self.old.numbers.items
            → AreAt (all_clauses name (lazy_forms ground.now))
            self.new.clauses self.new.numbers.items) }
    {
        let PairAt {
            relation,
            earlier,
            later,
        } = pair;
        if relation >= ground.pairs.len() || relation >= layout.firsts.len() {
            return Ok(false);
        }
        let pairs = &ground.pairs.as_slice()[relation];
        if earlier >= later || later >= pairs.tuples.len() {
            return Ok(false);
        }
        let first = layout.firsts[relation];
        let Some(at) = place_of_pair(first, pairs.tuples.len(), earlier, later) else {
            return Ok(false);
        };
        let Some(form) = pair_formula(&ground.atoms, alloc, pairs, earlier, later)? else {
            return Ok(false);
        };
        let forms = [form];
        let added = self.add(alloc, at, &forms);
        drop(forms);
        match added {
            Ok(_) => Ok(true),
            Err(error) => Err(error),
        }
    }
}

// About how many clauses the formulas have that are written at once: all but those of the entry, of pairs, and that equality is transitive.
fn count_written(ground: &LazyGround) -> usize {
    let front = ground.front.as_slice();
    let kept = count_kept(ground);
    let own = implied_from(front, kept).saturating_sub(kept);
    own.saturating_mul(2)
        .saturating_add(ground.behind.len().saturating_mul(3))
}

/// The clauses of the formulas in front of the pairs and of those behind them, and where the pairs' clauses stand; nothing where numbers
/// don't reach. `name` is the number of the first atom that names a part. Clauses of the entry that are at hand and those that say that
/// equality is transitive are left out: `add_numbered` adds each.
pub fn chosen_front(
    alloc: Global,
    ground: &LazyGround,
    name: u32,
) -> Result<Option<(Chosen, Layout)>, AllocError>
    requires pairs { ArePairs ground.now.atoms.table ground.now.pairs }
    requires clauses { HasClauses ground.now }
    ensures chosen { IfOk result (λ answer. IfSome answer (λ found.
        AreAt (all_clauses name (lazy_forms ground.now)) found.0.clauses found.0.numbers.items)) }
    ensures layout { IfOk result (λ answer. IfSome answer
        (λ found. IsLayout ground.now name found.1)) }
{
    let mut chosen = Chosen::with_room(alloc, count_written(ground))?;
    match chosen.add_around(alloc, ground, name) {
        Ok(Some(layout)) => Ok(Some((chosen, layout))),
        Ok(None) => {
            drop(chosen);
            Ok(None)
        }
        Err(error) => {
            drop(chosen);
            Err(error)
        }
    }
}
