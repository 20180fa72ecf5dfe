// The rounds of a search that takes the clauses of more pairs of readings as it needs them.
ghost use Rattle.std.specs.Prelude.{ℕ, true, IfOk, IfSome, OnOk};
ghost use Rattle.spec_core.specs.Specification.{Specification};
ghost use Rattle.obligation_list.specs.declared.obligation.Obligation.{Obligation as TheObligation};
ghost use Rattle.obligation_list.specs.Obligations.{IsObligation};
ghost use Rattle.sat_core.specs.Answers.{IsRefuted};
ghost use Rattle.needed_clauses.specs.Renaming.{IsPart};
ghost use Rattle.lazy_ground.specs.{Lazy.{lazy_problem, ArePairs}, Kept.{HasClauses}};
ghost use Rattle.lazy_search.specs.Refuting.{AreOf, IsMeasured, IsLazyAnswer, IsStep};
ghost use Rattle.lazy_search.specs.Refuting.{IsLazyAnswerTo, IsStepTo};

use crate::agreeing::{PairAt, disagreeing};
use crate::choosing::forms_behind;
use crate::counting::{count_atoms, sizes_of};
use crate::lessening::lessened;
use crate::measured::Measured;
use crate::parts::{Part, part_of};
use crate::picking::Picked;
use crate::trying::{Aim, broken_by};
use crate::{Chosen, chosen_front};
use instances::kept_clauses;
use items::{Items, or_drop};
use lazy_ground::LazyGround;
use needed_clauses::renumbering::{are_plain_lines, renumbered};
use obligation_list::{Obligation, Witness};
use proof_lines::Line;
use sat_core::Answer;
use spec_core::Spec;
use std::alloc::{AllocError, Global};

// So many rounds at most: each is a search, and most problems of the examples need one or two.
const ROUNDS: u32 = 12;

// After so many rounds all chosen clauses are searched.
const PICKY_ROUNDS: u32 = 5;

// So many lines of a log at most, in a round.
const FEW_LINES: u32 = 2000;

/// What a search of a lazy ground problem comes to.
#[derive(Drop)]
pub enum LazyAnswer {
    /// This log shows that the problem has no interpretation.
    Refuted(Items<Line>),
    /// This breaks the obligation.
    Broken(Witness),
    /// The chosen clauses have an interpretation in which all pairs agree, so the problem probably has one. Nothing is promised of it.
    Satisfiable,
    /// Nothing was found in a few lines.
    Unknown,
}

/// Clauses that an interpretation of those that were searched makes false: whether there are chosen ones, which are picked now; the numbers
/// of the entry's, and of those that say that equality is transitive; and pairs that have some.
#[derive(Drop)]
pub struct MoreClauses {
    pub is_picking: bool,
    pub numbers: Vec<u32>,
    pub pairs: Vec<PairAt>,
}

/// What a round comes to.
#[derive(Drop)]
pub enum Step {
    /// This is the answer.
    Answered(LazyAnswer),
    /// These clauses are to be searched too.
    MoreClauses(MoreClauses),
}

fn few_of(budget: u32) -> u32 {
    if budget < FEW_LINES {
        budget
    } else {
        FEW_LINES
    }
}

// What a log of a part comes to.
fn judge_log(
    alloc: Global,
    measured: &Measured<'_>,
    part: &Part,
    log: Items<Line>,
    few: u32,
    aim: &Aim<'_>,
) -> Result<Step, AllocError>
    requires measured { IsMeasured measured.now }
    requires part { IsPart part.now.problem (lazy_problem measured.now.ground.now)
        part.now.picks.numbers.items part.now.atoms.items }
    requires refuted { IsRefuted true part.now.problem few log }
    ensures { IfOk result (λ step. IsStepTo aim.now measured.now.ground.now step) }
{
    if log.len() > aim.budget as usize || !are_plain_lines(log.as_slice()) {
        drop(log);
        return Ok(Step::Answered(LazyAnswer::Unknown));
    }
    let numbers = part.picks.numbers.as_slice();
    let atoms = part.atoms.as_slice();
    let sizes = measured.sizes;
    let lines = renumbered(alloc, numbers, sizes.clauses, atoms, sizes.atoms, log)?;
    Ok(Step::Answered(LazyAnswer::Refuted(lines)))
}

// Chooses of the entry's clauses and of those that say that equality is transitive such as truth values of a part make false, and adds
// their numbers. It says whether there are any of the latter.
fn choose_false(
    measured: &Measured<'_>,
    picked: &mut Picked,
    part: &Part,
    truths: &[bool],
    numbers: &mut Vec<u32>,
) -> Result<bool, AllocError> {
    let forms = forms_behind(measured.ground.front.as_slice(), measured.layout.from);
    let first = measured.layout.transitive.clause;
    let some = picked.choose_transitive(forms, first, part, truths, numbers)?;
    if let Some((kept, _)) = kept_clauses(&measured.ground.part) {
        picked.choose_false(kept, measured.sizes.first, part, truths, numbers)?;
    }
    Ok(some)
}

// What truth values of a part come to. Where equality isn't transitive by them, no pairs are looked for: tuples may seem equal then that
// aren't.
fn judge_found(
    alloc: Global,
    measured: &Measured<'_>,
    chosen: &Chosen,
    picked: &mut Picked,
    part: &Part,
    truths: &[bool],
) -> Result<Step, AllocError>
    ensures { IfOk result (λ step. (d : Specification) (ob : TheObligation) (budget : ℕ)
        → IsStep d ob measured.now.ground.now budget step) }
{
    let is_picking = picked.pick_false(chosen, part, truths);
    let mut numbers = Vec::new(alloc);
    let some = or_drop!(choose_false(measured, picked, part, truths, &mut numbers); numbers);
    let pairs = if some {
        Vec::new(alloc)
    } else {
        or_drop!(disagreeing(alloc, measured.ground, part, truths); numbers)
    };
    if !is_picking && numbers.is_empty() && pairs.is_empty() {
        drop(numbers);
        drop(pairs);
        return Ok(Step::Answered(LazyAnswer::Satisfiable));
    }
    Ok(Step::MoreClauses(MoreClauses {
        is_picking,
        numbers,
        pairs,
    }))
}

// What a search of a part comes to.
fn search_part(
    alloc: Global,
    measured: &Measured<'_>,
    chosen: &Chosen,
    picked: &mut Picked,
    part: &Part,
    aim: &Aim<'_>,
) -> Result<Step, AllocError>
    requires measured { IsMeasured measured.now }
    requires member { IsObligation aim.now.spec.now aim.now.ob.now }
    requires part { IsPart part.now.problem (lazy_problem measured.now.ground.now)
        part.now.picks.numbers.items part.now.atoms.items }
    ensures { IfOk result (λ step. IsStepTo aim.now measured.now.ground.now step) }
{
    let few = few_of(aim.budget);
    match watched_search::search(alloc, &part.problem, few) {
        Answer::Unsat(log) => judge_log(alloc, measured, part, log, few, aim),
        Answer::Sat(found) => {
            let found = lessened(alloc, measured.ground, part, found)?;
            let step = match broken_by(alloc, aim, measured.ground, part, &found) {
                Ok(Some(witness)) => Ok(Step::Answered(LazyAnswer::Broken(witness))),
                Ok(None) => {
                    let truths = found.truths.as_slice();
                    judge_found(alloc, measured, chosen, picked, part, truths)
                }
                Err(AllocError) => Err(AllocError),
            };
            drop(found);
            step
        }
        Answer::Memory => Err(AllocError),
        other => {
            drop(other);
            Ok(Step::Answered(LazyAnswer::Unknown))
        }
    }
}

// A search of the chosen clauses that are picked.
fn search_picked(
    alloc: Global,
    measured: &Measured<'_>,
    chosen: &Chosen,
    picked: &mut Picked,
    aim: &Aim<'_>,
) -> Result<Step, AllocError>
    requires measured { IsMeasured measured.now }
    requires member { IsObligation aim.now.spec.now aim.now.ob.now }
    requires chosen { AreOf measured.now.ground.now chosen.now }
    ensures { IfOk result (λ step. IsStepTo aim.now measured.now.ground.now step) }
{
    let picks = picked.picks(alloc, chosen.numbers.as_slice())?;
    let (ground, sizes) = (measured.ground, measured.sizes);
    let Some(part) = part_of(alloc, ground, sizes, chosen, picks, &[])? else {
        return Ok(Step::Answered(LazyAnswer::Unknown));
    };
    let step = search_part(alloc, measured, chosen, picked, &part, aim);
    drop(part);
    step
}

// Adds the clauses of these pairs. It says whether it added any.
fn add_pairs(
    alloc: Global,
    measured: &Measured<'_>,
    chosen: &mut Chosen,
    pairs: &[PairAt],
) -> Result<bool, AllocError>
    requires measured { IsMeasured measured.now }
    requires chosen { AreOf measured.now.ground.now chosen.now }
    ensures { OnOk result (AreOf measured.now.ground.now chosen.new) }
{
    let mut some = false;
    for pair in pairs {
        if chosen.add_pair(alloc, measured.ground, measured.layout, *pair)? {
            some = true;
        }
    }
    Ok(some)
}

// Adds the clauses with these numbers, of the entry's and of those that say that equality is transitive. It says whether it added any.
fn add_numbered(
    alloc: Global,
    measured: &Measured<'_>,
    chosen: &mut Chosen,
    numbers: &[u32],
) -> Result<bool, AllocError>
    requires measured { IsMeasured measured.now }
    requires chosen { AreOf measured.now.ground.now chosen.now }
    ensures { OnOk result (AreOf measured.now.ground.now chosen.new) }
{
    let (ground, sizes, layout) = (measured.ground, measured.sizes, measured.layout);
    let mut some = false;
    for number in numbers {
        if chosen.add_numbered(alloc, ground, sizes, layout, *number)? {
            some = true;
        }
    }
    Ok(some)
}

// Adds what is to be searched too. It says whether there is anything new.
fn add_more(
    alloc: Global,
    measured: &Measured<'_>,
    chosen: &mut Chosen,
    more: &MoreClauses,
) -> Result<bool, AllocError>
    requires measured { IsMeasured measured.now }
    requires chosen { AreOf measured.now.ground.now chosen.now }
    ensures { OnOk result (AreOf measured.now.ground.now chosen.new) }
{
    let has_numbered = add_numbered(alloc, measured, chosen, more.numbers.as_slice())?;
    let has_pairs = add_pairs(alloc, measured, chosen, more.pairs.as_slice())?;
    Ok(more.is_picking || has_numbered || has_pairs)
}

// Picks the clauses for the next round: the new ones, and after some rounds all.
fn pick_next(
    alloc: Global,
    measured: &Measured<'_>,
    chosen: &mut Chosen,
    picked: &mut Picked,
    round: u32,
) -> Result<(), AllocError>
    requires measured { IsMeasured measured.now }
    requires chosen { AreOf measured.now.ground.now chosen.now }
    ensures { OnOk result (AreOf measured.now.ground.now chosen.new) }
{
    if round < PICKY_ROUNDS {
        return picked.pick_new(chosen.clauses.len());
    }
    let numbers = picked.choose_others(alloc, measured.layout.transitive.clause)?;
    add_numbered(alloc, measured, chosen, numbers.as_slice())?;
    picked.pick_all(chosen.clauses.len())
}

// A round: a search, and what is to be searched too in the next one. Nothing is answered where another round is to come.
fn search_round(
    alloc: Global,
    measured: &Measured<'_>,
    chosen: &mut Chosen,
    picked: &mut Picked,
    aim: &Aim<'_>,
) -> Result<Option<LazyAnswer>, AllocError>
    requires measured { IsMeasured measured.now }
    requires chosen { AreOf measured.now.ground.now chosen.now }
    requires member { IsObligation aim.now.spec.now aim.now.ob.now }
    ensures answer { IfOk result (λ found. IfSome found
        (IsLazyAnswerTo aim.now measured.now.ground.now)) }
    ensures chosen { OnOk result (AreOf measured.now.ground.now chosen.new) }
{
    let more = match search_picked(alloc, measured, chosen, picked, aim)? {
        Step::Answered(answer) => return Ok(Some(answer)),
        Step::MoreClauses(more) => more,
    };
    if !add_more(alloc, measured, chosen, &more)? {
        return Ok(Some(LazyAnswer::Unknown));
    }
    Ok(None)
}

// Rounds until there is an answer, or nothing more to be chosen.
fn rounds(
    alloc: Global,
    measured: &Measured<'_>,
    chosen: &mut Chosen,
    picked: &mut Picked,
    aim: &Aim<'_>,
) -> Result<LazyAnswer, AllocError>
    requires measured { IsMeasured measured.now }
    requires chosen { AreOf measured.now.ground.now chosen.now }
    requires member { IsObligation aim.now.spec.now aim.now.ob.now }
    ensures answer { IfOk result (λ answer. IsLazyAnswerTo aim.now measured.now.ground.now answer) }
    ensures chosen { OnOk result (AreOf measured.now.ground.now chosen.new) }
{
    for round in 0..ROUNDS {
        if let Some(answer) = search_round(alloc, measured, chosen, picked, aim)? {
            return Ok(answer);
        }
        pick_next(alloc, measured, chosen, picked, round)?;
    }
    Ok(LazyAnswer::Unknown)
}

// How many clauses the entry has at least, where a search without them comes first.
const MANY: usize = 64;

// Whether a search without the clauses of the entry comes first: where these are many, and the obligation is on two calls. Two calls mostly
// commute, and one mostly leaves the other's precondition, whatever the invariants say.
fn is_first_without_entry(ground: &LazyGround) -> bool {
    match &ground.part {
        Some(part) => ground.calls.len() > 1 && part.clauses.clauses.len() >= MANY,
        None => false,
    }
}

// Adds the clauses with these numbers, and picks them.
fn add_picked(
    alloc: Global,
    measured: &Measured<'_>,
    chosen: &mut Chosen,
    picked: &mut Picked,
    numbers: Vec<u32>,
) -> Result<(), AllocError>
    requires measured { IsMeasured measured.now }
    requires chosen { AreOf measured.now.ground.now chosen.now }
    ensures { OnOk result (AreOf measured.now.ground.now chosen.new) }
{
    let added = add_numbered(alloc, measured, chosen, numbers.as_slice());
    drop(numbers);
    added?;
    picked.pick_new(chosen.clauses.len())
}

// Adds of the entry's clauses those that are searched first.
fn add_entry(
    alloc: Global,
    measured: &Measured<'_>,
    chosen: &mut Chosen,
    picked: &mut Picked,
) -> Result<(), AllocError>
    requires measured { IsMeasured measured.now }
    requires chosen { AreOf measured.now.ground.now chosen.now }
    ensures { OnOk result (AreOf measured.now.ground.now chosen.new) }
{
    let Some((kept, _)) = kept_clauses(&measured.ground.part) else {
        return Ok(());
    };
    let numbers = picked.choose_kept(alloc, &measured.ground.atoms, kept)?;
    add_picked(alloc, measured, chosen, picked, numbers)
}

// A search of some clauses in front and behind, and of more as they are needed; where a search without the entry's comes first, these join
// them where that doesn't refute the problem.
fn search_chosen(
    alloc: Global,
    measured: &Measured<'_>,
    chosen: &mut Chosen,
    aim: &Aim<'_>,
) -> Result<LazyAnswer, AllocError>
    requires measured { IsMeasured measured.now }
    requires member { IsObligation aim.now.spec.now aim.now.ob.now }
    requires chosen { AreOf measured.now.ground.now chosen.now }
    ensures { IfOk result (λ answer. IsLazyAnswerTo aim.now measured.now.ground.now answer) }
{
    let forms = forms_behind(measured.ground.front.as_slice(), measured.layout.from);
    let first = measured.layout.transitive.clause;
    let mut picked = Picked::first(alloc, &measured.ground.atoms, chosen, forms)?;
    let numbers = or_drop!(picked.first_transitive(alloc, first); picked);
    or_drop!(add_picked(alloc, measured, chosen, &mut picked, numbers); picked);
    if is_first_without_entry(measured.ground) {
        match or_drop!(search_round(alloc, measured, chosen, &mut picked, aim); picked) {
            Some(LazyAnswer::Satisfiable) => {}
            Some(LazyAnswer::Unknown) => {}
            Some(answer) => {
                drop(picked);
                return Ok(answer);
            }
            None => {
                or_drop!(picked.pick_new(chosen.clauses.len()); picked);
                let answer = rounds(alloc, measured, chosen, &mut picked, aim);
                drop(picked);
                return answer;
            }
        }
    }
    or_drop!(add_entry(alloc, measured, chosen, &mut picked); picked);
    let answer = rounds(alloc, measured, chosen, &mut picked, aim);
    drop(picked);
    answer
}

/// A search of the lazy ground problem of an obligation, with logs of at most `budget` lines: a log that shows that the problem has no
/// interpretation; or a witness that breaks the obligation; or whether the problem probably has an interpretation. Nothing is found where
/// a few searches of a few lines don't find it.
pub fn search_lazily(
    alloc: Global,
    spec: &Spec,
    ob: &Obligation,
    ground: &LazyGround,
    budget: u32,
) -> Result<LazyAnswer, AllocError>
    requires member { IsObligation spec.now ob.now }
    requires pairs { ArePairs ground.now.atoms.table ground.now.pairs }
    requires clauses { HasClauses ground.now }
    ensures { IfOk result
        (λ answer. IsLazyAnswer spec.now ob.now (lazy_problem ground.now) budget answer) }
{
    let Some(first) = count_atoms(&ground.atoms) else {
        return Ok(LazyAnswer::Unknown);
    };
    let Some((mut chosen, layout)) = chosen_front(alloc, ground, first)? else {
        return Ok(LazyAnswer::Unknown);
    };
    let Some(sizes) = sizes_of(first, &layout) else {
        return Ok(LazyAnswer::Unknown);
    };
    let measured = Measured {
        ground,
        sizes: &sizes,
        layout: &layout,
    };
    let aim = Aim { spec, ob, budget };
    search_chosen(alloc, &measured, &mut chosen, &aim)
}
