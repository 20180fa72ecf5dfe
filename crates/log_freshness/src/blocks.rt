// Blocks of clauses, by which one look tells of many clauses that none of them lies within another clause.
//
// A block has up to 128 clauses, and a mask for each spot: the bit of a place is set where the clause at this place has a literal of the
// spot. While a clause is looked at its spots are marked, and a clause that lies within it has marked spots alone. So the mask of a spot
// without a mark rules out all its places at once. Clauses that aren't ruled out are looked at one by one; mostly there is none.
//
// Where clauses have most literals in common, a list of those with one of them has nearly all. But then nearly all have each literal
// that a clause lacks, and so few masks rule out a whole block. Those that did are asked first in the next block, then all. What is asked
// of a block is at most one mask for each spot and each spot that is asked first, whatever its clauses are.
//
// The masks of a block take 16 bytes for each spot. A clause of a block has at least one in 64 of all spots, and so a block's masks take
// no more than the literals of its clauses, or than 64 literals would for each.
ghost use Rattle.std.specs.Prelude.{◌≡◌, ◌++◌, ◌∷◌, ◌<◌, ◌≤◌, ◌||◌, [], true, false, None, Some, IfOk, OnOk, length, slice_index_or};
ghost use Rattle.std.specs.{Int.{bit_at}, List.{list_any}};
ghost use Rattle.log_freshness.specs.Index.{MarksAre};
ghost use Rattle.log_freshness.specs.Blocks.{number_within, block_within, finds_in_blocks, AllFit, BlockFits, BlocksFit, RulesOut, AreNotWithin, BitsAre, PutsNumber, PutsInBlocks, MovesLast, IsEmptyBlock, HasNoClause};

use crate::freshness::{Hints, Look, is_marked, marked_slot_within, spot};
use items::Items;
use proof_lines::clause::Lit;
use std::alloc::{AllocError, Global};
use std::mem;

// How many clauses a block has at most, one for each bit of a mask.
const PLACES: usize = 128;

// A clause of a block has at least one in so many of all spots, or would have with so many literals.
const MOST_SHARE: usize = 64;

const FEW_LITS: usize = 64;

// A clause of a block was compared with at least so many clauses of the lists, and with at least one in so many of those of the log.
const MANY_COMPARED: usize = 64;

const COMPARED_SHARE: usize = 16;

// How many spots are kept that ruled out places.
const MOST_TELLING: usize = 64;

/// Some clauses by their numbers, and for each spot the places of the clauses that have a literal of it, as bits.
#[derive(Drop)]
pub struct Block {
    numbers: Items<usize>,
    masks: Vec<u128>,
}

/// All blocks: those that have no room, and one that has.
#[derive(Drop)]
pub struct Blocks {
    full: Vec<Block>,
    last: Block,
}

/// Whether a clause, which was compared with so many clauses of the lists, is to stand in a block, behind so many lines: where many of the
/// lists' clauses have most literals in common with it.
pub fn is_crowded(compared: usize, lines: usize, blocks: &Blocks) -> bool {
    let listed = lines.saturating_sub(blocks.full.len().saturating_mul(PLACES));
    compared >= MANY_COMPARED && compared.saturating_mul(COMPARED_SHARE) >= listed
}

/// Whether a clause is to stand in a block: behind a crowd, and where of so many spots the masks of a block don't take much more than its
/// clauses.
pub fn is_for_blocks(count: usize, lits: &[Lit], crowded: bool) -> bool {
    crowded && lits.len().max(FEW_LITS).saturating_mul(MOST_SHARE) >= count
}

fn mask_at(masks: &[u128], at: usize) -> u128
    ensures { result ≡ slice_index_or masks.now at 0 }
{
    match masks.get(at) {
        Some(mask) => *mask,
        None => 0,
    }
}

// The places that a spot rules out: those of its mask, where it isn't marked.
fn ruled_out_at(marks: &[bool], masks: &[u128], at: usize) -> u128
    ensures { RulesOut marks.now masks.now result }
{
    if is_marked(marks, at) {
        return 0;
    }
    mask_at(masks, at)
}

// The places that some spots rule out. The spot that completes them comes before others.
fn ruled_out_first(marks: &[bool], masks: &[u128], telling: &mut Vec<usize>) -> u128
    ensures { RulesOut marks.now masks.now result }
{
    let mut out = 0;
    for i in 0..telling.len() {
        out |= ruled_out_at(marks, masks, telling[i]);
        if out == u128::MAX {
            telling.swap(i, i / 2);
            return out;
        }
    }
    out
}

// Keeps a spot that ruled out places, where there is room.
fn keep_telling(telling: &mut Vec<usize>, at: usize) {
    if telling.len() < MOST_TELLING {
        match telling.push(at) {
            Ok(()) => (),
            Err(_) => (),
        }
    }
}

// The places that some spots ruled out, and those that all others do.
fn ruled_out_by_all(marks: &[bool], masks: &[u128], first: u128, telling: &mut Vec<usize>) -> u128
    requires { RulesOut marks.now masks.now first }
    ensures { RulesOut marks.now masks.now result }
{
    let mut out = first;
    for at in 0..masks.len() {
        let more = out | ruled_out_at(marks, masks, at);
        if more != out {
            keep_telling(telling, at);
        }
        out = more;
        if out == u128::MAX {
            return out;
        }
    }
    out
}

fn ruled_out(marks: &[bool], masks: &[u128], telling: &mut Vec<usize>) -> u128
    ensures { RulesOut marks.now masks.now result }
{
    let first = ruled_out_first(marks, masks, telling);
    if first == u128::MAX {
        return first;
    }
    ruled_out_by_all(marks, masks, first, telling)
}

fn has_bit(mask: u128, place: usize) -> bool
    requires { place < 128 }
    ensures yes { result ≡ true → bit_at mask place ≡ 1 }
{
    (mask >> place) & 1 == 1
}

// Whether the clause of a number, which may have been ruled out, lies within the one looked at.
fn is_left_within(look: &Look<'_>, ruled: bool, number: usize, hint: &mut usize) -> bool
    requires some { 0 < look.now.count }
    requires marks { MarksAre look.now.count look.now.marks.now look.now.lits.now }
    requires out { ruled ≡ true
        → number_within look.now.slots.now look.now.lits.now number ≡ false }
    ensures { result ≡ number_within look.now.slots.now look.now.lits.now number }
{
    if ruled {
        return false;
    }
    marked_slot_within(look, number, hint)
}

// Whether one of the clauses of some numbers, of which those at set bits are ruled out, lies within
// the one looked at.
fn any_left_within(look: &Look<'_>, numbers: &[usize], out: u128, hint: &mut usize) -> bool
    requires some { 0 < look.now.count }
    requires marks { MarksAre look.now.count look.now.marks.now look.now.lits.now }
    requires few { length numbers.now ≤ 128 }
    requires out { AreNotWithin look.now.slots.now look.now.lits.now numbers.now out }
    ensures { result
        ≡ list_any (number_within look.now.slots.now look.now.lits.now) numbers.now }
{
    for (i, number) in numbers.iter().enumerate() {
        let ruled = has_bit(out, i);
        if is_left_within(look, ruled, *number, hint) {
            return true;
        }
    }
    false
}

// Whether one of the clauses of a block lies within the one looked at.
fn any_in_block(look: &Look<'_>, block: &Block, hints: &mut Hints) -> bool
    requires some { 0 < look.now.count }
    requires marks { MarksAre look.now.count look.now.marks.now look.now.lits.now }
    requires fits { BlockFits look.now.count look.now.slots.now block.now }
    ensures { result ≡ block_within look.now.slots.now look.now.lits.now block.now }
{
    let out = ruled_out(look.marks, block.masks.as_slice(), &mut hints.telling);
    if out == u128::MAX {
        return false;
    }
    let numbers = block.numbers.as_slice();
    any_left_within(look, numbers, out, &mut hints.place)
}

fn any_in_full(look: &Look<'_>, full: &[Block], hints: &mut Hints) -> bool
    requires some { 0 < look.now.count }
    requires marks { MarksAre look.now.count look.now.marks.now look.now.lits.now }
    requires fits { AllFit look.now.count look.now.slots.now full.now }
    ensures { result ≡ list_any (block_within look.now.slots.now look.now.lits.now) full.now }
{
    for block in full {
        if any_in_block(look, block, hints) {
            return true;
        }
    }
    false
}

/// Whether one of the clauses of all blocks lies within the one looked at.
pub fn any_in_blocks(look: &Look<'_>, blocks: &Blocks, hints: &mut Hints) -> bool
    requires some { 0 < look.now.count }
    requires marks { MarksAre look.now.count look.now.marks.now look.now.lits.now }
    requires fits { BlocksFit look.now.count look.now.slots.now blocks.now }
    ensures { result ≡ finds_in_blocks look.now.slots.now blocks.now look.now.lits.now }
{
    hints.telling.clear();
    any_in_full(look, blocks.full.as_slice(), hints) || any_in_block(look, &blocks.last, hints)
}

// Sets the bit of a place in the masks of the spots of literals.
fn set_bits(masks: &mut Vec<u128>, count: usize, lits: &[Lit], place: usize)
    requires some { 0 < count }
    requires within { place < 128 }
    requires sized { length masks.old.items ≡ count }
    ensures sized { length masks.new.items ≡ count }
    ensures bits { BitsAre count lits.now place masks.old.items masks.new.items }
{
    for lit in lits {
        let at = spot(count, *lit);
        let mask = mask_at(masks.as_slice(), at);
        masks[at] = mask | (1u128 << place);
    }
}

fn empty_block(alloc: Global, count: usize) -> Result<Block, AllocError>
    ensures { IfOk result (IsEmptyBlock count) }
{
    let masks = vec![in alloc; 0; count]?;
    Ok(Block {
        numbers: Items::new(alloc),
        masks,
    })
}

// Puts a clause into a block.
fn put_in_block(
    block: &mut Block,
    count: usize,
    number: usize,
    lits: &[Lit],
) -> Result<(), AllocError>
    requires some { 0 < count }
    requires room { length block.old.numbers < 128 }
    requires sized { length block.old.masks.items ≡ count }
    ensures { OnOk result (PutsNumber count lits.now number block.old block.new) }
{
    let place = block.numbers.len();
    block.numbers.push(number)?;
    set_bits(&mut block.masks, count, lits, place);
    Ok(())
}

// Puts the last block behind those without room, and a new one in its place.
fn move_last(alloc: Global, count: usize, blocks: &mut Blocks) -> Result<(), AllocError>
    ensures { OnOk result (MovesLast count blocks.old blocks.new) }
{
    let empty = empty_block(alloc, count)?;
    let last = mem::replace(&mut blocks.last, empty);
    blocks.full.push(last)?;
    Ok(())
}

/// Puts a clause into the blocks.
pub fn put_in_blocks(
    alloc: Global,
    count: usize,
    blocks: &mut Blocks,
    number: usize,
    lits: &[Lit],
) -> Result<(), AllocError>
    requires some { 0 < count }
    requires room { length blocks.old.last.numbers < 128 }
    requires sized { length blocks.old.last.masks.items ≡ count }
    ensures { OnOk result (PutsInBlocks count lits.now number blocks.old blocks.new) }
{
    put_in_block(&mut blocks.last, count, number, lits)?;
    if blocks.last.numbers.len() < PLACES {
        return Ok(());
    }
    move_last(alloc, count, blocks)
}

/// Blocks without clauses.
pub fn no_blocks(alloc: Global, count: usize) -> Result<Blocks, AllocError>
    ensures { IfOk result (HasNoClause count) }
{
    Ok(Blocks {
        full: Vec::new(alloc),
        last: empty_block(alloc, count)?,
    })
}
