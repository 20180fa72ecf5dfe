// Clauses that are kept for other problems, whose formulas begin with the same ones.
//
// Only the atoms that name parts have other numbers there: they come behind all other atoms, of which another problem may have more. So a
// clause is copied as it stands where it has no such atom, and else with the numbers of these raised. A problem that needs few of them finds
// these by the atoms that they name, and has each by its place.
ghost use Rattle.std.specs.Prelude.{◌≡◌, ◌≤◌, ◌+◌, ◌++◌, [], true, IfOk, IfSome, OnOk, List, Some};
ghost use Rattle.std.specs.{Prelude.{drop, map, slice_get, take}, List.{list_all}};
ghost use Rattle.proof_lines.specs.{Problems.{atoms_below}, Clauses.{join}};
ghost use Rattle.ground_numbers.specs.Numbered.{Numbered, is_below};
ghost use Rattle.ground_numbers.specs.Clauses.{all_clauses, all_names};
ghost use Rattle.ground_atoms.specs.Formulas.{form_of};
ghost use Rattle.clausify.specs.Kept.{AreClausesOf, raised, all_raised};

use crate::by_atom::ClausesByAtom;
use crate::listing::write_clauses;
use ground_atoms::GroundFormula;
use items::Items;
use proof_lines::{Clause, Lit};
use std::alloc::{AllocError, Global};

/// The clauses of some formulas. `first` is the number of the first atom that names a part, and so many atoms name parts. Where the clauses
/// that name an atom stand is a hint.
#[derive(Drop)]
pub struct KeptClauses {
    pub first: u32,
    pub names: u32,
    pub clauses: Items<Clause>,
    pub by_atom: ClausesByAtom,
}

/// The clauses of some formulas, to be kept. `first` is a number that no atom of the formulas reaches.
pub fn keep_clauses(
    alloc: Global,
    first: u32,
    forms: &[GroundFormula],
) -> Result<KeptClauses, AllocError>
    requires { list_all (is_below first) (map form_of forms.now) ≡ true }
    ensures { IfOk result (AreClausesOf (map form_of forms.now)) }
{
    let room = Vec::with_capacity(alloc, forms.len())?;
    let mut clauses = Items::from_vec(room);
    let end = write_clauses(alloc, first, forms, &mut clauses)?;
    let by_atom = ClausesByAtom::of(alloc, end, clauses.as_slice())?;
    Ok(KeptClauses {
        first,
        names: end - first,
        clauses,
        by_atom,
    })
}

// A literal, where the numbers of atoms from the first on are raised by so many.
fn raised(first: u32, more: u32, lit: Lit) -> Result<Lit, AllocError>
    ensures { IfOk result (λ l. l ≡ raised first more lit) }
{
    if lit.atom < first {
        return Ok(lit);
    }
    let Some(atom) = lit.atom.checked_add(more) else {
        return Err(AllocError);
    };
    Ok(Lit {
        atom,
        positive: lit.positive,
    })
}

// Whether all atoms of a clause come before the first that names a part.
fn is_below(first: u32, clause: &Clause) -> bool
    ensures { result ≡ atoms_below first clause.now }
{
    clause.lits().iter().all(|lit| lit.atom < first)
}

// The clause of a clause's literals, raised.
fn raise(alloc: Global, first: u32, more: u32, clause: &Clause) -> Result<Clause, AllocError>
    ensures { IfOk result (λ c. c ≡ join [] (map (raised first more) clause.now)) }
{
    let mut made = Clause::empty(alloc);
    for lit in clause.lits() {
        made.insert(raised(first, more, *lit)?)?;
    }
    Ok(made)
}

#[tactic(auto, using(crate::proofs::Raised::clause_stays))]
// A copy of a clause, with its literals raised.
fn raised_copy(alloc: Global, first: u32, more: u32, clause: &Clause) -> Result<Clause, AllocError>
    ensures { IfOk result (λ c. c ≡ map (raised first more) clause.now) }
{
    if is_below(first, clause) {
        return clause.copy(alloc);
    }
    clause.law_distinct();
    raise(alloc, first, more, clause)
}

impl KeptClauses {
    /// The clause that stands at a place among those of the formulas, where the first atom that names a part has this number; nothing where
    /// none stands there, or the number is lower than the one that it had.
    pub fn at(&self, alloc: Global, name: u32, place: usize) -> Result<Option<Clause>, AllocError>
        ensures { (fs : List Numbered) → AreClausesOf fs self.now → IfOk result
            (λ found. IfSome found (λ c. slice_get (all_clauses name fs) place ≡ Some c)) }
    {
        if name < self.first || place >= self.clauses.len() {
            return Ok(None);
        }
        let clause = &self.clauses.as_slice()[place];
        let copy = raised_copy(alloc, self.first, name - self.first, clause)?;
        Ok(Some(copy))
    }
}

// Appends copies of clauses, with their literals raised.
fn raise_all(
    alloc: Global,
    first: u32,
    more: u32,
    clauses: &[Clause],
    out: &mut Items<Clause>,
) -> Result<(), AllocError>
    ensures { OnOk result (out.new ≡ out.old ++ all_raised first more clauses.now) }
{
    for clause in clauses {
        out.push(raised_copy(alloc, first, more, clause)?)?;
    }
    Ok(())
}

// Appends copies of clauses.
fn copy_all(alloc: Global, clauses: &[Clause], out: &mut Items<Clause>) -> Result<(), AllocError>
    ensures { OnOk result (out.new ≡ out.old ++ clauses.now) }
{
    for clause in clauses {
        out.push(clause.copy(alloc)?)?;
    }
    Ok(())
}

// Appends the clauses of the formulas whose clauses were kept. `next` is the first naming atom.
fn copy_kept(
    alloc: Global,
    next: u32,
    kept: &KeptClauses,
    out: &mut Items<Clause>,
) -> Result<(), AllocError>
    requires { kept.now.first ≤ next }
    ensures { OnOk result ((fs : List Numbered) → AreClausesOf fs kept.now
        → out.new ≡ out.old ++ all_clauses next fs) }
{
    let clauses = kept.clauses.as_slice();
    if kept.names == 0 {
        return copy_all(alloc, clauses, out);
    }
    raise_all(alloc, kept.first, next - kept.first, clauses, out)
}

// The formulas behind so many.
fn forms_behind(forms: &[GroundFormula], count: usize) -> &[GroundFormula]
    ensures { map form_of result.now ≡ drop count (map form_of forms.now) }
{
    if count > forms.len() {
        return &[];
    }
    &forms[count..]
}

// Appends the clauses of these formulas in turn, where those of the first so many were kept. `next` is the first naming atom, and the
// answer the next one.
fn write_behind(
    alloc: Global,
    next: u32,
    forms: &[GroundFormula],
    count: usize,
    kept: &KeptClauses,
    out: &mut Items<Clause>,
) -> Result<u32, AllocError>
    requires within { kept.now.first ≤ next }
    requires kept { AreClausesOf (take count (map form_of forms.now)) kept.now }
    ensures made { OnOk result (out.new ≡ out.old ++ all_clauses next (map form_of forms.now)) }
    ensures next { IfOk result (λ n. n ≡ next + all_names (map form_of forms.now)) }
{
    copy_kept(alloc, next, kept, out)?;
    let Some(after) = next.checked_add(kept.names) else {
        return Err(AllocError);
    };
    write_clauses(alloc, after, forms_behind(forms, count), out)
}

/// Appends the clauses of these formulas in turn, as `write_clauses` does. Where clauses of the first so many were kept, these are copied.
pub fn write_from(
    alloc: Global,
    next: u32,
    forms: &[GroundFormula],
    kept: Option<(&KeptClauses, usize)>,
    out: &mut Items<Clause>,
) -> Result<u32, AllocError>
    requires { IfSome kept (λ k. AreClausesOf (take k.1 (map form_of forms.now)) k.0.now) }
    ensures made { OnOk result (out.new ≡ out.old ++ all_clauses next (map form_of forms.now)) }
    ensures next { IfOk result (λ n. n ≡ next + all_names (map form_of forms.now)) }
{
    match kept {
        Some((kept, count)) if kept.first <= next => {
            write_behind(alloc, next, forms, count, kept, out)
        }
        _ => write_clauses(alloc, next, forms, out),
    }
}
