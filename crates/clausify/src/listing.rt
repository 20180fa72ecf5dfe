// The clauses of a list of formulas, and the atoms that name their parts.
ghost use Rattle.std.specs.Prelude.{◌≡◌, ◌+◌, ◌++◌, true, IfOk, OnOk, map};
ghost use Rattle.ground_numbers.specs.Numbered.{disjunction};
ghost use Rattle.ground_numbers.specs.Clauses.{unsettled, folded, fold_any, clauses_of, names_of};
ghost use Rattle.ground_numbers.specs.Clauses.{all_clauses, all_names};
ghost use Rattle.ground_atoms.specs.Formulas.{form_of};
ghost use Rattle.clausify.specs.Formulas.{is_plain, is_plain_if_unsettled, normal, folded_of};

use crate::bare::{Folded, is_plain};
use crate::folding::folded;
use crate::straight::{Congruence, write_congruent, write_implied};
use crate::writing::{write_either, write_folded, write_whole};
use ground_atoms::GroundFormula;
use items::Items;
use proof_lines::Clause;
use std::alloc::{AllocError, Global};

// Appends the clauses of "or" of a folded formula and a plain one.
fn write_beside(
    alloc: Global,
    next: u32,
    left: &Folded,
    right: &GroundFormula,
    out: &mut Items<Clause>,
) -> Result<u32, AllocError>
    requires left { is_plain_if_unsettled left.now ≡ true }
    requires right { is_plain right.now ≡ true }
    ensures made { OnOk result
        (out.new
        ≡ out.old
        ++ clauses_of next (fold_any (folded_of left.now) (unsettled (normal true (form_of right.now))))) }
    ensures next { IfOk result
        (λ n. n
        ≡ next
        + names_of (fold_any (folded_of left.now) (unsettled (normal true (form_of right.now))))) }
{
    match left {
        Folded::Settled(true) => Ok(next),
        Folded::Settled(false) => write_whole(alloc, true, None, next, right, out),
        Folded::Unsettled(plain) => write_either(alloc, next, plain, right, out),
    }
}

#[tactic(auto, using(crate::proofs::Plain::folded_beside))]
// Appends the clauses of "or" of a formula and a plain one, which is written as it stands.
fn write_or(
    alloc: Global,
    next: u32,
    left: &GroundFormula,
    right: &GroundFormula,
    out: &mut Items<Clause>,
) -> Result<u32, AllocError>
    requires { is_plain right.now ≡ true }
    ensures made { OnOk result
        (out.new
        ≡ out.old
        ++ clauses_of next (folded true (disjunction (form_of left.now) (form_of right.now)))) }
    ensures next { IfOk result
        (λ n. n ≡ next + names_of (folded true (disjunction (form_of left.now) (form_of right.now)))) }
{
    let plain = folded(alloc, true, left)?;
    write_beside(alloc, next, &plain, right, out)
}

// Appends the clauses of a formula whose parts stand apart in memory. `next` is the next naming atom. Most are plain, and then nothing
// is made but their clauses; of most others what follows an "or" is.
fn write_parts_of(
    alloc: Global,
    next: u32,
    form: &GroundFormula,
    out: &mut Items<Clause>,
) -> Result<u32, AllocError>
    ensures made { OnOk result (out.new ≡ out.old
        ++ clauses_of next (folded true (form_of form.now))) }
    ensures next { IfOk result (λ n. n ≡ next + names_of (folded true (form_of form.now))) }
{
    if is_plain(form) {
        return write_whole(alloc, true, None, next, form, out);
    }
    match form {
        GroundFormula::Or(parts) if is_plain(&parts.1) => {
            write_or(alloc, next, &parts.0, &parts.1, out)
        }
        _ => {
            let plain = folded(alloc, true, form)?;
            write_folded(alloc, next, &plain, out)
        }
    }
}

#[tactic(auto, using(crate::proofs::Written::congruent_clauses, crate::proofs::Written::congruent_names))]
// Appends the clauses of a formula. `next` is the next naming atom.
fn write_formula(
    alloc: Global,
    next: u32,
    form: &GroundFormula,
    out: &mut Items<Clause>,
) -> Result<u32, AllocError>
    ensures made { OnOk result (out.new ≡ out.old
        ++ clauses_of next (folded true (form_of form.now))) }
    ensures next { IfOk result (λ n. n ≡ next + names_of (folded true (form_of form.now))) }
{
    match form {
        GroundFormula::Implied(first, second, third) => {
            write_implied(alloc, *first, *second, *third, out)?;
            Ok(next)
        }
        GroundFormula::Congruent {
            places,
            agreement,
            equal,
            also,
            left,
            right,
        } => {
            let said = Congruence {
                places: *places,
                agreement: *agreement,
                equal: *equal,
                also: *also,
                left: *left,
                right: *right,
            };
            write_congruent(alloc, next, said, out)
        }
        _ => write_parts_of(alloc, next, form, out),
    }
}

/// Appends the clauses of these formulas in turn. `next` is the first naming atom, and the answer the next one.
pub fn write_clauses(
    alloc: Global,
    next: u32,
    forms: &[GroundFormula],
    out: &mut Items<Clause>,
) -> Result<u32, AllocError>
    ensures made { OnOk result (out.new ≡ out.old ++ all_clauses next (map form_of forms.now)) }
    ensures next { IfOk result (λ n. n ≡ next + all_names (map form_of forms.now)) }
{
    let mut at = next;
    for form in forms {
        at = write_formula(alloc, at, form, out)?;
    }
    Ok(at)
}
