// The upgraded log, from its end on: a clause that no line behind names is named last where it is met.

ghost use Rattle.std.specs.Prelude.{◌≡◌, ℕ, ◌++◌, ◌||◌, ◌==◌, List, [], ◌∷◌, not, if◌then◌else◌};
ghost use Rattle.std.specs.{Prelude.{reverse, IfOk, OnOk, nat_eq}, HashSet.{contains}};
ghost use Rattle.proof_lines.specs.declared.line.Line.{Line as Given};
ghost use Rattle.report_upgrader.specs.UpgradedLogs.{is_named, last_named as last_named_of};
ghost use Rattle.report_upgrader.specs.UpgradedLogs.{drop_line, unless_drop, upgraded};

use items::Items;
use proof_lines::line::Line;
use std::alloc::{AllocError, Global};
use std::collections::HashSet;

/// Adds a number to a list, where it wasn't seen yet.
fn note(seen: &mut HashSet<u32>, number: u32, list: &mut Items<u32>) -> Result<(), AllocError>
    ensures list { OnOk result (list.new ≡ list.old
        ++ (if contains nat_eq seen.old number then [] else number ∷ [])) }
    ensures seen { OnOk result ((n : ℕ) → contains nat_eq seen.new n
        ≡ ((number == n) || contains nat_eq seen.old n)) }
{
    match seen.insert(number) {
        Ok(true) => list.push(number),
        Ok(false) => Ok(()),
        Err(_) => Err(AllocError),
    }
}

/// The clauses that a line names and that weren't seen yet, in rising order. Then they are seen.
fn last_named(alloc: Global, seen: &mut HashSet<u32>, line: &Line) -> Result<Items<u32>, AllocError>
    ensures list { (later : List Given) → ((n : ℕ) → contains nat_eq seen.old n ≡ is_named later n)
        → IfOk result (λ list. list ≡ last_named_of line.now later) }
    ensures seen { (later : List Given) → ((n : ℕ) → contains nat_eq seen.old n ≡ is_named later n)
        → OnOk result ((n : ℕ) → contains nat_eq seen.new n ≡ is_named (line.now ∷ later) n) }
{
    let mut list = Items::new(alloc);
    if let Line::Resolve { left, right, .. } = line {
        note(seen, (*left).min(*right), &mut list)?;
        note(seen, (*left).max(*right), &mut list)?;
    }
    Ok(list)
}

/// Adds a copy of a line, unless it is a Drop line, behind a Drop line of the clauses that it names last: the log is written from
/// its end.
fn put(
    alloc: Global,
    seen: &mut HashSet<u32>,
    line: &Line,
    out: &mut Vec<Line>,
) -> Result<(), AllocError>
    ensures out { (later : List Given) → ((n : ℕ) → contains nat_eq seen.old n ≡ is_named later n)
        → OnOk result
        (out.new.items
        ≡ out.old.items
        ++ reverse (unless_drop line.now ++ drop_line (last_named_of line.now later))) }
    ensures seen { (later : List Given) → ((n : ℕ) → contains nat_eq seen.old n ≡ is_named later n)
        → OnOk result ((n : ℕ) → contains nat_eq seen.new n ≡ is_named (line.now ∷ later) n) }
{
    if let Line::Drop { .. } = line {
        return Ok(());
    }
    let clauses = last_named(alloc, seen, line)?;
    if clauses.len() > 0 {
        out.push(Line::Drop { clauses })?;
    }
    out.push(line.copy(alloc)?)?;
    Ok(())
}

/// The upgraded log: the log without its Drop lines, with a Drop line behind each line that names clauses which no later line
/// names. It holds these clauses, in rising order, each once.
pub fn upgrade_log(alloc: Global, lines: &[Line]) -> Result<Items<Line>, AllocError>
    ensures { IfOk result (λ log. log ≡ upgraded lines.now) }
{
    let mut seen: HashSet<u32> = HashSet::new(alloc);
    let mut out = Vec::new(alloc);
    let mut i = lines.len();
    while i > 0 {
        i -= 1;
        put(alloc, &mut seen, &lines[i], &mut out)?;
    }
    out.reverse();
    Ok(Items::from_vec(out))
}
