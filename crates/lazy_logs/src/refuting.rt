// Whether a log refutes a lazy ground problem, by the part of it that the log names.
ghost use Rattle.std.specs.Prelude.{◌≡◌, length, IfOk, IsTrue};
ghost use Rattle.needed_clauses.specs.Renaming.{IsPart};
ghost use Rattle.lazy_ground.specs.{Lazy.{lazy_problem, ArePairs}, Kept.{HasClauses}};
ghost use Rattle.lazy_search.specs.{Chosen.{IsLayout}, Refuting.{AreSizes, AreOf}};
ghost use Rattle.lazy_logs.specs.Refuted.{Refutes};

use crate::choosing::{add_named, literals_used, number_of_empty, numbers_named, picks_of};
use crate::comparing::are_without_drops;
use crate::dropping::drops_well;
use crate::renaming::lines_in;
use items::{Items, or_drop};
use lazy_ground::LazyGround;
use lazy_search::counting::{Sizes, count_atoms, sizes_of};
use lazy_search::parts::{Part, part_of};
use lazy_search::{Chosen, Layout, chosen_front};
use needed_clauses::renumbering::{are_plain_lines, renumbered};
use proof_kernel::{KernelRefused, check_log};
use proof_lines::{Line, Problem};
use std::alloc::{AllocError, Global};

// Whether the kernel accepts lines on a problem, with an empty clause.
fn is_accepted(alloc: Global, problem: &Problem, lines: &[Line]) -> Result<bool, AllocError>
    ensures { IfOk result (λ b. IsTrue b → Refutes problem.now lines.now) }
{
    match check_log(alloc, problem, lines) {
        Ok(_) => Ok(true),
        Err(KernelRefused::Memory) => Err(AllocError),
        Err(_) => Ok(false),
    }
}

// Whether lines of a part, which are accepted there, are those of a log that drop no clause, and its others drop clauses as they may.
fn are_of_log(
    alloc: Global,
    ground: &LazyGround,
    sizes: &Sizes,
    part: &Part,
    own: Items<Line>,
    lines: &[Line],
) -> Result<bool, AllocError>
    requires sizes { AreSizes ground.now sizes.now }
    requires part { IsPart part.now.problem (lazy_problem ground.now) part.now.picks.numbers.items
        part.now.atoms.items }
    requires refuted { Refutes part.now.problem own }
    ensures { IfOk result (λ b. IsTrue b → Refutes (lazy_problem ground.now) lines.now) }
{
    let _ground = ground;
    if !are_plain_lines(own.as_slice()) {
        drop(own);
        return Ok(false);
    }
    let numbers = part.picks.numbers.as_slice();
    let atoms = part.atoms.as_slice();
    let log = renumbered(alloc, numbers, sizes.clauses, atoms, sizes.atoms, own)?;
    let same = are_without_drops(log.as_slice(), lines);
    drop(log);
    if !same {
        return Ok(false);
    }
    drops_well(alloc, sizes.clauses, lines)
}

// Whether a log is accepted on a part.
fn is_refuted_in(
    alloc: Global,
    ground: &LazyGround,
    sizes: &Sizes,
    part: &Part,
    lines: &[Line],
) -> Result<bool, AllocError>
    requires sizes { AreSizes ground.now sizes.now }
    requires part { IsPart part.now.problem (lazy_problem ground.now) part.now.picks.numbers.items
        part.now.atoms.items }
    ensures { IfOk result (λ b. IsTrue b → Refutes (lazy_problem ground.now) lines.now) }
{
    let Some(own) = lines_in(alloc, part, sizes.clauses, lines)? else {
        return Ok(false);
    };
    if !or_drop!(is_accepted(alloc, &part.problem, own.as_slice()); own) {
        drop(own);
        return Ok(false);
    }
    are_of_log(alloc, ground, sizes, part, own, lines)
}

// The numbers of the clauses that a log names, in rising order; of a log without lines that of an empty clause.
fn numbers_of(
    alloc: Global,
    ground: &LazyGround,
    sizes: &Sizes,
    chosen: &Chosen,
    lines: &[Line],
) -> Result<Vec<u32>, AllocError> {
    let mut numbers = numbers_named(alloc, lines, sizes.clauses)?;
    if lines.is_empty() {
        if let Some(number) = number_of_empty(ground, chosen) {
            numbers.push(number)?;
        }
    }
    Ok(numbers)
}

// Whether a log is accepted on the clauses that it names.
fn is_refuted_with(
    alloc: Global,
    ground: &LazyGround,
    sizes: &Sizes,
    layout: &Layout,
    chosen: &mut Chosen,
    lines: &[Line],
) -> Result<bool, AllocError>
    requires pairs { ArePairs ground.now.atoms.table ground.now.pairs }
    requires clauses { HasClauses ground.now }
    requires sizes { AreSizes ground.now sizes.now }
    requires layout { IsLayout ground.now (length ground.now.atoms.table.atoms) layout.now }
    requires chosen { AreOf ground.now chosen.now }
    ensures { IfOk result (λ b. IsTrue b → Refutes (lazy_problem ground.now) lines.now) }
{
    let numbers = numbers_of(alloc, ground, sizes, chosen, lines)?;
    or_drop!(add_named(alloc, ground, sizes, layout, chosen, numbers.as_slice()); numbers);
    let Some(picks) = picks_of(alloc, chosen, numbers)? else {
        return Ok(false);
    };
    let others = or_drop!(literals_used(alloc, lines); picks);
    let made = part_of(alloc, ground, sizes, chosen, picks, others.as_slice());
    drop(others);
    let Some(part) = made? else {
        return Ok(false);
    };
    let told = is_refuted_in(alloc, ground, sizes, &part, lines);
    drop(part);
    told
}

/// Whether a log is known to refute a lazy ground problem: the kernel accepts it there, and an empty clause is among the clauses. Where
/// it isn't known, nothing is said.
pub fn is_refuted_by(alloc: Global, ground: &LazyGround, lines: &[Line]) -> Result<bool, AllocError>
    requires pairs { ArePairs ground.now.atoms.table ground.now.pairs }
    requires clauses { HasClauses ground.now }
    ensures { IfOk result (λ b. IsTrue b → Refutes (lazy_problem ground.now) lines.now) }
{
    let Some(first) = count_atoms(&ground.atoms) else {
        return Ok(false);
    };
    let Some((mut chosen, layout)) = chosen_front(alloc, ground, first)? else {
        return Ok(false);
    };
    let Some(sizes) = sizes_of(first, &layout) else {
        return Ok(false);
    };
    is_refuted_with(alloc, ground, &sizes, &layout, &mut chosen, lines)
}
