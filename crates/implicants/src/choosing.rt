// The literals over atoms with rows by which clauses are true.
ghost use Rattle.std.specs.Prelude.{◌≡◌, ◌<◌, ◌⊎◌, ℕ, [], true, false, None, length};
ghost use Rattle.std.specs.Prelude.{slice_index_or, OnOk, IfOk, IfSome, MatchOption};
ghost use Rattle.std.specs.List.{list_any, list_all};
ghost use Rattle.proof_lines.specs.Clauses.{has};
ghost use Rattle.line_rows.specs.Steps.{has_row};
ghost use Rattle.sat_core.specs.Trails.{in_trail};
ghost use Rattle.implicants.specs.Implicants.{plain_value, holds_by, is_met, IsImplicant};
ghost use Rattle.implicants.specs.Choosing.{is_sign, is_marked, is_candidate, AreChosen, IsAdded};
ghost use Rattle.implicants.specs.Choosing.{IsCovered, IsUnmet, AreCovered};

use items::Items;
use proof_lines::{AtomKind, Clause, Lit, Problem};
use sat_core::Trail;
use std::alloc::{AllocError, Global};

/// The literals that were chosen, and by atom the sign with which it was.
#[derive(Drop)]
pub struct Chosen {
    pub lits: Items<Lit>,
    pub signs: Vec<Option<bool>>,
}

/// Whether a literal's atom stands for a row.
pub(crate) fn has_row(atoms: &[AtomKind], lit: Lit) -> bool
    ensures { result ≡ has_row atoms.now lit }
{
    match atoms.get(lit.atom as usize) {
        Some(AtomKind::Row(_)) => true,
        _ => false,
    }
}

/// The value of a plain atom; one beyond the list is false.
pub fn plain_value(values: &[bool], atom: u32) -> bool
    ensures { result ≡ plain_value values.now atom }
{
    match values.get(atom as usize) {
        Some(value) => *value,
        None => false,
    }
}

fn sign_at(signs: &[Option<bool>], atom: u32) -> Option<bool>
    ensures { result ≡ slice_index_or signs.now atom None }
{
    match signs.get(atom as usize) {
        Some(sign) => *sign,
        None => None,
    }
}

fn is_sign(sign: Option<bool>, positive: bool) -> bool
    ensures { result ≡ is_sign sign positive }
{
    match sign {
        Some(sign) => sign == positive,
        None => false,
    }
}

// Makes room for the sign of an atom.
fn widen(signs: &mut Vec<Option<bool>>, atom: u32) -> Result<(), AllocError>
    ensures kept { (a : ℕ) → slice_index_or signs.new.items a None
        ≡ slice_index_or signs.old.items a None }
    ensures wide { OnOk result (atom < length signs.new.items) }
{
    while signs.len() <= atom as usize {
        signs.push(None)?;
    }
    Ok(())
}

fn note_rank(ranks: &mut Vec<usize>, atom: u32, rank: usize) -> Result<(), AllocError> {
    while ranks.len() <= atom as usize {
        ranks.push(usize::MAX)?;
    }
    ranks[atom as usize] = rank;
    Ok(())
}

// How early each atom stands in a list of literals.
fn ranks_of(alloc: Global, order: &[Lit]) -> Result<Vec<usize>, AllocError> {
    let mut ranks = Vec::new(alloc);
    for (rank, lit) in order.iter().enumerate() {
        note_rank(&mut ranks, lit.atom, rank)?;
    }
    Ok(ranks)
}

fn rank_at(ranks: &[usize], atom: u32) -> usize {
    match ranks.get(atom as usize) {
        Some(rank) => *rank,
        None => usize::MAX,
    }
}

// Whether a literal's atom stands for a row and the trail has the literal.
fn is_candidate(atoms: &[AtomKind], trail: &Trail, lit: Lit) -> bool
    ensures { result ≡ is_candidate atoms.now trail.now lit }
{
    has_row(atoms, lit) && trail.holds(lit)
}

// A literal has no row, and is true.
fn is_plainly_true(atoms: &[AtomKind], values: &[bool], lit: Lit) -> bool {
    !has_row(atoms, lit) && plain_value(values, lit.atom) == lit.positive
}

// The one candidate of a clause that no plain literal makes true, where it has just one.
fn only_in(atoms: &[AtomKind], values: &[bool], trail: &Trail, lits: &[Lit]) -> Option<Lit>
    ensures { IfSome result (λ l. in_trail trail.now l ≡ true) }
{
    let mut found = None;
    for lit in lits {
        if is_plainly_true(atoms, values, *lit) {
            return None;
        }
        if !is_candidate(atoms, trail, *lit) {
            continue;
        }
        if found.is_some() {
            return None;
        }
        found = Some(*lit);
    }
    found
}

fn earlier(ranks: &[usize], lit: Lit, best: Option<Lit>) -> Lit
    ensures { (result ≡ lit) ⊎ (best ≡ Some result) }
{
    match best {
        Some(other) if rank_at(ranks, other.atom) <= rank_at(ranks, lit.atom) => other,
        _ => lit,
    }
}

// The candidate of a clause that stands first.
fn first_in(atoms: &[AtomKind], trail: &Trail, ranks: &[usize], lits: &[Lit]) -> Option<Lit>
    ensures { MatchOption result (list_any (is_candidate atoms.now trail.now) lits.now ≡ false)
        (λ l. (has lits.now l ≡ true) × (is_candidate atoms.now trail.now l ≡ true)) }
{
    let mut best = None;
    for lit in lits {
        if is_candidate(atoms, trail, *lit) {
            best = Some(earlier(ranks, *lit, best));
        }
    }
    best
}

fn atoms_of(problem: &Problem) -> &[AtomKind]
    ensures { result.now ≡ problem.now.atoms }
{
    problem.atoms.as_slice()
}

fn clause_count(problem: &Problem) -> usize
    ensures { result ≡ length problem.now.clauses }
{
    problem.clauses.len()
}

fn lits_at(problem: &Problem, number: usize) -> &[Lit]
    requires { number < length problem.now.clauses }
    ensures { result.now ≡ slice_index_or problem.now.clauses number [] }
{
    problem.clauses.as_slice()[number].lits()
}

impl Chosen {
    // Nothing is chosen.
    fn new(alloc: Global) -> Chosen
        ensures lits { result.lits ≡ [] }
        ensures signs { result.signs.items ≡ [] }
    {
        Chosen {
            lits: Items::new(alloc),
            signs: Vec::new(alloc),
        }
    }

    fn is_marked(&self, lit: Lit) -> bool
        ensures { result ≡ is_marked self.now.signs.items lit }
    {
        is_sign(sign_at(self.signs.as_slice(), lit.atom), lit.positive)
    }

    // Chooses a literal of the trail, unless it is chosen.
    fn add(&mut self, trail: &Trail, lit: Lit) -> Result<(), AllocError>
        requires chosen { AreChosen trail.now self.old }
        requires in_it { in_trail trail.now lit ≡ true }
        ensures { OnOk result (IsAdded trail.now lit self.old self.new) }
    {
        if self.is_marked(lit) {
            return Ok(());
        }
        widen(&mut self.signs, lit.atom)?;
        self.signs[lit.atom as usize] = Some(lit.positive);
        self.lits.push(lit)?;
        Ok(())
    }

    // Chooses the literals of the trail over atoms that a problem doesn't have.
    fn add_beyond(
        &mut self,
        atoms: &[AtomKind],
        trail: &Trail,
        order: &[Lit],
    ) -> Result<(), AllocError>
        requires { AreChosen trail.now self.old }
        ensures { OnOk result (AreChosen trail.now self.new) }
    {
        for lit in order {
            if lit.atom as usize >= atoms.len() && trail.holds(*lit) {
                self.add(trail, *lit)?;
            }
        }
        Ok(())
    }

    // Chooses the literals without which some clause isn't true.
    fn add_needed(
        &mut self,
        atoms: &[AtomKind],
        values: &[bool],
        trail: &Trail,
        clauses: &[Clause],
    ) -> Result<(), AllocError>
        requires { AreChosen trail.now self.old }
        ensures { OnOk result (AreChosen trail.now self.new) }
    {
        for clause in clauses {
            if let Some(lit) = only_in(atoms, values, trail, clause.lits()) {
                self.add(trail, lit)?;
            }
        }
        Ok(())
    }

    fn holds(&self, atoms: &[AtomKind], values: &[bool], lit: Lit) -> bool
        ensures { result ≡ holds_by atoms.now values.now (is_marked self.now.signs.items) lit }
    {
        if has_row(atoms, lit) {
            self.is_marked(lit)
        } else {
            plain_value(values, lit.atom) == lit.positive
        }
    }

    fn meets(&self, atoms: &[AtomKind], values: &[bool], lits: &[Lit]) -> bool
        ensures { result ≡ is_met atoms.now values.now (is_marked self.now.signs.items) lits.now }
    {
        lits.iter().any(|lit| self.holds(atoms, values, *lit))
    }

    // Sees to it that a clause has a literal that holds. Answers whether it can have one.
    fn cover(
        &mut self,
        atoms: &[AtomKind],
        values: &[bool],
        trail: &Trail,
        ranks: &[usize],
        lits: &[Lit],
    ) -> Result<bool, AllocError>
        requires { AreChosen trail.now self.old }
        ensures { IfOk result
            (λ b. IsCovered b atoms.now values.now trail.now lits.now self.old self.new) }
    {
        if self.meets(atoms, values, lits) {
            return Ok(true);
        }
        match first_in(atoms, trail, ranks, lits) {
            Some(lit) => {
                self.add(trail, lit)?;
                Ok(true)
            }
            None => Ok(false),
        }
    }

    // Sees to it that each clause has one. Answers whether all can.
    fn cover_all(
        &mut self,
        problem: &Problem,
        values: &[bool],
        trail: &Trail,
        ranks: &[usize],
    ) -> Result<bool, AllocError>
        requires { AreChosen trail.now self.old }
        ensures { IfOk result
            (λ b. AreCovered b problem.now.atoms problem.now.clauses values.now trail.now
            self.new) }
    {
        let atoms = atoms_of(problem);
        for i in 0..clause_count(problem) {
            let lits = lits_at(problem, i);
            if !self.cover(atoms, values, trail, ranks, lits)? {
                return Ok(false);
            }
        }
        Ok(true)
    }
}

/// Literals of a trail over atoms with rows, which with the values of the plain atoms are an implicant of a problem's clauses. `order`
/// has the trail's literals over atoms with rows, the earliest first; what it says is a hint. Nothing where some clause has no literal
/// that holds by the values or is on the trail.
pub fn choose(
    alloc: Global,
    problem: &Problem,
    trail: &Trail,
    order: &[Lit],
    values: &[bool],
) -> Result<Option<Items<Lit>>, AllocError>
    ensures on_the_trail { IfOk result (λ found. IfSome found
        (λ lits. list_all (in_trail trail.now) lits ≡ true)) }
    ensures implicant { IfOk result
        (λ found. MatchOption found
        (IsUnmet problem.now.atoms problem.now.clauses values.now trail.now)
        (λ lits. IsImplicant problem.now.atoms problem.now.clauses values.now lits)) }
{
    let ranks = ranks_of(alloc, order)?;
    let mut chosen = Chosen::new(alloc);
    let atoms = atoms_of(problem);
    chosen.add_beyond(atoms, trail, order)?;
    chosen.add_needed(atoms, values, trail, problem.clauses.as_slice())?;
    if !chosen.cover_all(problem, values, trail, ranks.as_slice())? {
        return Ok(None);
    }
    let Chosen { lits, signs } = chosen;
    drop(signs);
    Ok(Some(lits))
}
