// Fresh logs: no line drops a clause, and the clause of each line contains no earlier one, holds no atom both ways and isn't
// empty.
//
// A clause that lies within another subsumes it. Whether an earlier clause subsumes a later one is forward subsumption, which is what an
// index serves here.
//
// An index finds the earlier clauses that lie within a clause. A literal has a spot, and an earlier clause stands in the list of the
// spot of one of its literals: the rarest, which fewest of the clauses before it had. A clause that lies within another shares that
// literal with it, so it stands in a list of the other's spots. Its entry has the spots of the three next rarest literals too, so that a
// look at some marks passes over nearly all entries, without a look at their clauses. Clauses without literals stand in the list of spot
// 0, which is always looked through. Where there is no memory for the index, each clause is compared with each earlier one.
//
// A clause that was compared with many clauses of the lists stands in a block in place of a list: it has most literals in common with
// them, and so have those to come. src/blocks.rt says how one look tells of the clauses of a whole block.
//
// Which literal is the rarest is told by a count for each spot. To take the shortest list instead would be to fill the lists of the
// literals that most clauses have, as long as these are empty, and those are looked through for most clauses.
//
// The spots of a clause are marked while it is looked at. So whether an earlier clause may lie within it is one pass over the earlier
// one, from where the last such pass ended to a literal without a mark, and whether it may hold an atom both ways is one pass over its own
// literals. Where all are marked the lists are compared, once for a log that isn't fresh.
ghost use Rattle.std.specs.Prelude.{◌≡◌, ◌+◌, ◌*◌, ◌^◌, ◌<◌, ◌≤◌, ◌||◌, ◌++◌, ◌∷◌, true, cond, is_none, IfOk, OnOk, drop, take, length, is_some, map, slice_index_or, slice_set, Some, None, []};
ghost use Rattle.std.specs.List.{list_all, list_any};
ghost use Rattle.proof_lines.specs.{Clauses.{sub, holds_both_ways}, Numbers.{stands_in}};
ghost use Rattle.log_freshness.specs.Freshness.{live_of, is_new, each_new};
ghost use Rattle.log_freshness.specs.Index.{HasNoEntry, HasNoMark, slot_new, PutsOne, finds, finds_marked, marked, all_marked, lits_marked, any_opposite_marked, marked_both_ways, marked_within, marked_slot_within, sign_number, slot_within, spot, spots, with_marks, MarksAre};
ghost use Rattle.log_freshness.specs.Blocks.{finds_in_blocks, BlocksFit};
ghost use Rattle.log_freshness.specs.Puts.{IndexFits, IsIndexOf, PutsClause};

use crate::blocks::{Blocks, any_in_blocks, is_crowded, is_for_blocks, no_blocks, put_in_blocks};
use crate::store::ClauseStore;
use items::Items;
use proof_lines::clause::{Lit, holds_both_ways, is_within};
use std::alloc::{AllocError, Global};

// How many places before the last one a search for a literal without a mark begins.
const MOST_SHIFT: usize = 2;

/// What shortens looks at clauses and decides nothing.
#[derive(Drop)]
pub struct Hints {
    /// Where the last search for a literal without a mark ended.
    pub place: usize,
    /// How many clauses of the lists were compared with the last clause literal by literal.
    pub compared: usize,
    /// Spots that ruled out clauses of blocks.
    pub telling: Vec<usize>,
}

/// A look at a clause: its literals, whose spots are marked, and those that may lie within it.
#[derive(Clone, Copy)]
pub struct Look<'a> {
    /// How many spots there are.
    pub count: usize,
    pub marks: &'a [bool],
    pub slots: &'a ClauseStore,
    pub lits: &'a [Lit],
}

/// An earlier clause in a list of the index: its number, and the spots of three of its literals, or 0 where it has fewer.
#[derive(Clone, Copy)]
pub struct Entry {
    number: usize,
    second: usize,
    third: usize,
    fourth: usize,
}

// Earlier clauses, each in a list or in a block.
#[derive(Drop)]
struct Index {
    // How many spots there are.
    count: usize,
    // How many of the clauses have a literal of each spot.
    seen: Vec<usize>,
    // The list of each spot.
    lists: Vec<Items<Entry>>,
    blocks: Blocks,
}

fn sign_number(positive: bool) -> usize
    ensures is { result ≡ sign_number positive }
    ensures few { result ≤ 2 }
{
    if positive { 2 } else { 1 }
}

/// The spot of a literal, of so many spots.
pub fn spot(count: usize, lit: Lit) -> usize
    requires { 0 < count }
    ensures is { result ≡ spot count lit }
    ensures below { result < count }
{
    let number = 2 * lit.atom as usize + sign_number(lit.positive);
    if number < count {
        number
    } else {
        number % count
    }
}

/// Whether a spot is marked. The first one counts as marked always.
pub fn is_marked(marks: &[bool], at: usize) -> bool
    ensures { result ≡ marked marks.now at }
{
    at == 0 || (at < marks.len() && marks[at])
}

// Whether the spots of an entry are marked.
fn all_marked(marks: &[bool], entry: Entry) -> bool
    ensures { result ≡ all_marked marks.now entry }
{
    is_marked(marks, entry.second)
        && (is_marked(marks, entry.third) && is_marked(marks, entry.fourth))
}

// The place of a literal whose spot isn't marked, the first, if there is one.
fn first_unmarked(count: usize, marks: &[bool], lits: &[Lit]) -> Option<usize>
    requires { 0 < count }
    ensures { lits_marked count marks.now lits.now ≡ is_none result }
{
    for (i, lit) in lits.iter().enumerate() {
        if !is_marked(marks, spot(count, *lit)) {
            return Some(i);
        }
    }
    None
}

// The place of a literal whose spot isn't marked, if there is one: the first from a place on, or the first of all.
fn unmarked_from(count: usize, marks: &[bool], lits: &[Lit], start: usize) -> Option<usize>
    requires some { 0 < count }
    requires within { start ≤ length lits.now }
    ensures { lits_marked count marks.now lits.now ≡ is_none result }
{
    match first_unmarked(count, marks, &lits[start..]) {
        Some(at) => Some(start.saturating_add(at)),
        None => first_unmarked(count, marks, &lits[..start]),
    }
}

// Whether the spots of all literals are marked. Of clauses that have most literals in common many lack the same one, at nearly the same
// place, so the search begins shortly before the place where the last one was found.
fn lits_marked(count: usize, marks: &[bool], lits: &[Lit], hint: &mut usize) -> bool
    requires { 0 < count }
    ensures { result ≡ lits_marked count marks.now lits.now }
{
    let start = (*hint).saturating_sub(MOST_SHIFT).min(lits.len());
    match unmarked_from(count, marks, lits, start) {
        Some(at) => {
            *hint = at;
            false
        }
        None => true,
    }
}

// Whether the spot of some literal's opposite is marked.
fn any_opposite_marked(count: usize, marks: &[bool], lits: &[Lit]) -> bool
    requires { 0 < count }
    ensures { result ≡ any_opposite_marked count marks.now lits.now }
{
    lits.iter()
        .any(|lit| is_marked(marks, spot(count, lit.opposite())))
}

// Whether a clause has a marked opposite and holds an atom both ways.
fn marked_both_ways(count: usize, marks: &[bool], lits: &[Lit]) -> bool
    requires { 0 < count }
    ensures { result ≡ marked_both_ways count marks.now lits.now }
{
    any_opposite_marked(count, marks, lits) && holds_both_ways(lits)
}

/// Whether the clause of a number has marked spots alone and lies within the one looked at.
pub fn marked_slot_within(look: &Look<'_>, number: usize, hint: &mut usize) -> bool
    requires { 0 < look.now.count }
    ensures { result ≡ marked_slot_within look.now.count look.now.marks.now look.now.lits.now
        (slice_index_or look.now.slots.now number None) }
{
    match look.slots.get(number) {
        Some(clause) => {
            lits_marked(look.count, look.marks, clause, hint) && is_within(clause, look.lits)
        }
        None => false,
    }
}

// Sets marks on the spots of literals, or takes them away.
fn mark(marks: &mut Vec<bool>, count: usize, lits: &[Lit], value: bool)
    requires some { 0 < count }
    requires sized { length marks.old.items ≡ count }
    ensures is { marks.new.items ≡ with_marks count marks.old.items lits.now value }
    ensures sized { length marks.new.items ≡ count }
{
    for lit in lits {
        marks[spot(count, *lit)] = value;
    }
}

fn list_at(lists: &[Items<Entry>], at: usize) -> &[Entry]
    ensures { result.now ≡ slice_index_or lists.now at [] }
{
    match lists.get(at) {
        Some(list) => list.as_slice(),
        None => &[],
    }
}

// Whether an entry and its clause have marked spots alone, and this lies within the one looked at.
fn is_entry_within(look: &Look<'_>, entry: Entry, hints: &mut Hints) -> bool
    requires { 0 < look.now.count }
    ensures { result ≡ marked_within look.now.count look.now.marks.now look.now.slots.now
        look.now.lits.now entry }
{
    if !all_marked(look.marks, entry) {
        return false;
    }
    hints.compared = hints.compared.saturating_add(1);
    marked_slot_within(look, entry.number, &mut hints.place)
}

fn any_within(look: &Look<'_>, entries: &[Entry], hints: &mut Hints) -> bool
    requires { 0 < look.now.count }
    ensures { result ≡ list_any (marked_within look.now.count look.now.marks.now look.now.slots.now
        look.now.lits.now) entries.now }
{
    for entry in entries {
        if is_entry_within(look, *entry, hints) {
            return true;
        }
    }
    false
}

// Whether a marked entry of a list of a clause's spots names a clause that subsumes it.
fn finds_marked(look: &Look<'_>, lists: &[Items<Entry>], hints: &mut Hints) -> bool
    requires { 0 < look.now.count }
    ensures { result ≡ finds_marked look.now.count look.now.marks.now look.now.slots.now lists.now
        look.now.lits.now }
{
    any_within(look, list_at(lists, 0), hints) || finds_at_literals(look, lists, hints)
}

// Whether an entry of the lists of a clause's own literals names one that subsumes it.
fn finds_at_literals(look: &Look<'_>, lists: &[Items<Entry>], hints: &mut Hints) -> bool
    requires { 0 < look.now.count }
    ensures { result ≡ list_any (λ k. list_any (marked_within look.now.count look.now.marks.now
        look.now.slots.now look.now.lits.now) (slice_index_or lists.now k []))
        (map (spot look.now.count) look.now.lits.now) }
{
    for lit in look.lits {
        if any_within(look, list_at(lists, spot(look.count, *lit)), hints) {
            return true;
        }
    }
    false
}

// Whether one of the earlier clauses, in a list or in a block, lies within a clause whose spots are marked.
fn finds_either(look: &Look<'_>, index: &Index, hints: &mut Hints) -> bool
    requires some { 0 < look.now.count }
    requires marks { MarksAre look.now.count look.now.marks.now look.now.lits.now }
    requires fits { BlocksFit look.now.count look.now.slots.now index.now.blocks }
    ensures { result
        ≡ (finds look.now.count look.now.slots.now index.now.lists.items look.now.lits.now
        || finds_in_blocks look.now.slots.now index.now.blocks look.now.lits.now) }
{
    let listed = finds_marked(look, index.lists.as_slice(), hints);
    if listed {
        return true;
    }
    any_in_blocks(look, &index.blocks, hints)
}

// Whether one of the earlier clauses lies within a clause.
fn finds(
    index: &Index,
    marks: &mut Vec<bool>,
    slots: &ClauseStore,
    lits: &[Lit],
    hints: &mut Hints,
) -> bool
    requires fits { IndexFits slots.now index.now }
    requires sized { length marks.old.items ≡ index.now.count }
    requires clear { HasNoMark marks.old.items }
    ensures is { result ≡ (finds index.now.count slots.now index.now.lists.items lits.now
        || finds_in_blocks slots.now index.now.blocks lits.now) }
    ensures sized { length marks.new.items ≡ index.now.count }
    ensures clear { HasNoMark marks.new.items }
{
    hints.compared = 0;
    mark(marks, index.count, lits, true);
    let look = Look {
        count: index.count,
        marks: marks.as_slice(),
        slots,
        lits,
    };
    let found = finds_either(&look, index, hints);
    mark(marks, index.count, lits, false);
    found
}

// Whether a clause holds an atom both ways.
fn is_both_ways(count: usize, marks: &mut Vec<bool>, lits: &[Lit]) -> bool
    requires some { 0 < count }
    requires sized { length marks.old.items ≡ count }
    requires clear { HasNoMark marks.old.items }
    ensures is { result ≡ holds_both_ways lits.now }
    ensures sized { length marks.new.items ≡ count }
    ensures clear { HasNoMark marks.new.items }
{
    mark(marks, count, lits, true);
    let both = marked_both_ways(count, marks.as_slice(), lits);
    mark(marks, count, lits, false);
    both
}

// Whether a spot is none of three.
fn is_other(at: usize, first: usize, second: usize, third: usize) -> bool {
    at != first && at != second && at != third
}

// How many of the clauses that were put into the index have a literal of a spot.
fn seen_at(seen: &[usize], at: usize) -> usize {
    match seen.get(at) {
        Some(clauses) => *clauses,
        None => 0,
    }
}

// Counts a clause at the spots of its literals. The counts choose lists and decide nothing, so no clause speaks of them.
fn count_in(count: usize, seen: &mut Vec<usize>, lits: &[Lit])
    requires { 0 < count }
{
    for lit in lits {
        if let Some(clauses) = seen.get_mut(spot(count, *lit)) {
            *clauses = clauses.saturating_add(1);
        }
    }
}

// Of the spots of a clause but three, that which fewest clauses before have; 0 where there is none.
fn rarest(
    count: usize,
    seen: &[usize],
    lits: &[Lit],
    first: usize,
    second: usize,
    third: usize,
) -> usize
    requires { 0 < count }
    ensures below { result < count }
    ensures among { stands_in (spots count lits.now) result ≡ true }
{
    let mut best = 0;
    let mut fewest = usize::MAX;
    for lit in lits {
        let at = spot(count, *lit);
        let clauses = seen_at(seen, at);
        if is_other(at, first, second, third) && clauses < fewest {
            best = at;
            fewest = clauses;
        }
    }
    best
}

fn put_at(lists: &mut Vec<Items<Entry>>, at: usize, entry: Entry) -> Result<(), AllocError>
    requires { at < length lists.old.items }
    ensures { OnOk result (lists.new.items ≡ slice_set lists.old.items at
        (slice_index_or lists.old.items at [] ++ entry ∷ [])) }
{
    lists[at].push(entry)?;
    Ok(())
}

// Puts a clause into the list of the rarest of its spots.
fn put(index: &mut Index, number: usize, lits: &[Lit]) -> Result<(), AllocError>
    requires some { 0 < index.old.count }
    requires listed { length index.old.lists.items ≡ index.old.count }
    ensures count { index.new.count ≡ index.old.count }
    ensures blocks { index.new.blocks ≡ index.old.blocks }
    ensures puts { OnOk result (PutsOne index.old.count lits.now number index.old.lists.items
        index.new.lists.items) }
{
    let count = index.count;
    let seen = index.seen.as_slice();
    let first = rarest(count, seen, lits, 0, 0, 0);
    let second = rarest(count, seen, lits, first, 0, 0);
    let third = rarest(count, seen, lits, first, second, 0);
    let fourth = rarest(count, seen, lits, first, second, third);
    let entry = Entry {
        number,
        second,
        third,
        fourth,
    };
    count_in(count, &mut index.seen, lits);
    put_at(&mut index.lists, first, entry)
}

// Puts a clause into the index: into a block where it wants one, and else into a list.
fn put_clause(
    alloc: Global,
    index: &mut Index,
    number: usize,
    lits: &[Lit],
    crowded: bool,
) -> Result<(), AllocError>
    requires some { 0 < index.old.count }
    requires listed { length index.old.lists.items ≡ index.old.count }
    requires room { length index.old.blocks.last.numbers < 128 }
    requires sized { length index.old.blocks.last.masks.items ≡ index.old.count }
    ensures { OnOk result (PutsClause lits.now number index.old index.new) }
{
    if is_for_blocks(index.count, lits, crowded) {
        return put_in_blocks(alloc, index.count, &mut index.blocks, number, lits);
    }
    put(index, number, lits)
}

// Puts the clause of a number into the index, unless it was dropped.
fn put_slot(
    alloc: Global,
    index: &mut Index,
    slots: &ClauseStore,
    number: usize,
    crowded: bool,
) -> Result<(), AllocError>
    requires fits { IndexFits slots.now index.old }
    requires there { number < length slots.now }
    ensures count { OnOk result (index.new.count ≡ index.old.count) }
    ensures fits { OnOk result (IndexFits slots.now index.new) }
    ensures next { OnOk result (IsIndexOf slots.now index.old (live_of (take number slots.now))
        → IsIndexOf slots.now index.new (live_of (take (number + 1) slots.now))) }
{
    match slots.get(number) {
        Some(clause) => put_clause(alloc, index, number, clause, crowded),
        None => Ok(()),
    }
}

fn empty_lists(alloc: Global, count: usize) -> Result<Vec<Items<Entry>>, AllocError>
    ensures sized { IfOk result (λ lists. length lists.items ≡ count) }
    ensures empty { IfOk result (λ lists. HasNoEntry lists.items) }
{
    let mut lists = Vec::new(alloc);
    for i in 0..count {
        lists.push(Items::new(alloc))?;
    }
    Ok(lists)
}

// Puts the clauses before a number into an empty index.
fn put_before(
    alloc: Global,
    index: &mut Index,
    slots: &ClauseStore,
    number: usize,
) -> Result<(), AllocError>
    requires fits { IndexFits slots.now index.old }
    requires there { number ≤ length slots.now }
    requires none { IsIndexOf slots.now index.old [] }
    ensures fits { OnOk result (IndexFits slots.now index.new) }
    ensures is { OnOk result (IsIndexOf slots.now index.new (live_of (take number slots.now))) }
{
    for i in 0..number {
        put_slot(alloc, index, slots, i, false)?;
    }
    Ok(())
}

// Whether the clause of a number, if it wasn't dropped, is new among those before it.
fn is_slot_new(
    index: &Index,
    marks: &mut Vec<bool>,
    slots: &ClauseStore,
    number: usize,
    hints: &mut Hints,
) -> bool
    requires fits { IndexFits slots.now index.now }
    requires sized { length marks.old.items ≡ index.now.count }
    requires clear { HasNoMark marks.old.items }
    requires there { number < length slots.now }
    requires before { IsIndexOf slots.now index.now (live_of (take number slots.now)) }
    ensures is { result ≡ slot_new (live_of (take number slots.now))
        (slice_index_or slots.now number None) }
    ensures sized { length marks.new.items ≡ index.now.count }
    ensures clear { HasNoMark marks.new.items }
{
    match slots.get(number) {
        Some(clause) => {
            let found = finds(index, marks, slots, clause, hints);
            let both = is_both_ways(index.count, marks, clause);
            !found && !both && !clause.is_empty()
        }
        None => true,
    }
}

// Whether each clause from a number on is new, by an index of those before the number.
fn each_new_after(
    alloc: Global,
    index: &mut Index,
    slots: &ClauseStore,
    given: usize,
) -> Result<bool, AllocError>
    requires fits { IndexFits slots.now index.old }
    requires there { given ≤ length slots.now }
    requires before { IsIndexOf slots.now index.old (live_of (take given slots.now)) }
    ensures { IfOk result (λ b. b ≡ each_new (live_of (take given slots.now))
        (live_of (drop given slots.now))) }
{
    let mut marks = vec![in alloc; false; index.count]?;
    let mut hints = Hints {
        place: 0,
        compared: 0,
        telling: Vec::new(alloc),
    };
    for i in given..slots.len() {
        if !is_slot_new(index, &mut marks, slots, i, &mut hints) {
            return Ok(false);
        }
        let crowded = is_crowded(hints.compared, i.saturating_sub(given), &index.blocks);
        put_slot(alloc, index, slots, i, crowded)?;
    }
    Ok(true)
}

fn each_new_by_index(
    alloc: Global,
    count: usize,
    slots: &ClauseStore,
    given: usize,
) -> Result<bool, AllocError>
    requires some { 0 < count }
    requires there { given ≤ length slots.now }
    ensures { IfOk result (λ b. b ≡ each_new (live_of (take given slots.now))
        (live_of (drop given slots.now))) }
{
    let seen = vec![in alloc; 0; count]?;
    let lists = empty_lists(alloc, count)?;
    let blocks = no_blocks(alloc, count)?;
    let mut index = Index {
        count,
        seen,
        lists,
        blocks,
    };
    put_before(alloc, &mut index, slots, given)?;
    each_new_after(alloc, &mut index, slots, given)
}

// Whether the clause of a number lies within another.
fn is_slot_within(slots: &ClauseStore, number: usize, lits: &[Lit]) -> bool
    ensures { result ≡ slot_within lits.now (slice_index_or slots.now number None) }
{
    match slots.get(number) {
        Some(clause) => is_within(clause, lits),
        None => false,
    }
}

// Whether one of the clauses before a number lies within another.
fn holds_one_within(slots: &ClauseStore, number: usize, lits: &[Lit]) -> bool
    requires { number ≤ length slots.now }
    ensures { result ≡ list_any (λ d. sub d lits.now) (live_of (take number slots.now)) }
{
    for i in 0..number {
        if is_slot_within(slots, i, lits) {
            return true;
        }
    }
    false
}

// Whether no clause before a number subsumes a clause, and this holds no atom both ways and isn't empty.
fn is_new(slots: &ClauseStore, number: usize, lits: &[Lit]) -> bool
    requires { number ≤ length slots.now }
    ensures { result ≡ is_new (live_of (take number slots.now)) lits.now }
{
    !holds_one_within(slots, number, lits) && !holds_both_ways(lits) && !lits.is_empty()
}

// The same without an index: each clause is compared with each earlier one.
fn each_new_by_scan(slots: &ClauseStore, given: usize) -> bool
    requires { given ≤ length slots.now }
    ensures { result ≡ each_new (live_of (take given slots.now)) (live_of (drop given slots.now)) }
{
    for i in given..slots.len() {
        if let Some(clause) = slots.get(i) {
            if !is_new(slots, i, clause) {
                return false;
            }
        }
    }
    true
}

/// Whether each clause from a number on is new among those before it. `atoms` is the number of atoms; with another number the
/// answer is the same and takes longer.
pub fn each_new(alloc: Global, atoms: usize, slots: &ClauseStore, given: usize) -> bool
    requires few { atoms < 2 ^ 32 }
    requires there { given ≤ length slots.now }
    ensures { result ≡ each_new (live_of (take given slots.now)) (live_of (drop given slots.now)) }
{
    match each_new_by_index(alloc, 2 * atoms + 1, slots, given) {
        Ok(new) => new,
        Err(_) => each_new_by_scan(slots, given),
    }
}

/// Whether no clause was dropped.
pub fn none_dropped(slots: &ClauseStore) -> bool
    ensures { result ≡ list_all (λ o. is_some o) slots.now }
{
    for i in 0..slots.len() {
        if slots.get(i).is_none() {
            return false;
        }
    }
    true
}
