// Clauses by their numbers, of which some were dropped; and which lines of a log are new: no line drops a clause, and the clause of each
// line contains no earlier one, holds no atom both ways and isn't empty.
//
// A log makes many thousands of clauses, most of them of a few literals. The literals of all of them stand in one list, so a clause takes
// no memory of its own and no call of the allocator. Dropped clauses keep their numbers; their literals go when they are more than half
// of all. No more than a stated number of literals is held (specs/Held). Contracts see the list of the clauses, with none where one was
// dropped (src/store; specs/Spans mirrors where the literals stand).
//
// That a clause contains no earlier one is forward subsumption. A log whose lines are all new can't go on for ever, so evidence of a
// spent budget has such a log. The layer says it of clauses by their numbers, and knows nothing of the rules of lines. It stands on
// `items` and `proof_lines`.
//
// Definitions: specs/Freshness. Two private indexes make the test fast, and no clause of a call names them: src/freshness.rt (lists of the
// literals of earlier clauses, specs/Index, specs/Puts) and src/blocks.rt (blocks of clauses with masks, specs/Blocks).
//
// Decisions:
// - Of the masks of a block it is proved that a set bit is right, and no more. Which clauses are in
//   blocks, and which literals are asked first, decides nothing.
// - Masks, and not sums of weights over literals: sums tell clauses of one length apart, but pass
//   half of them where lengths differ.
// - Dropped literals stay until they are more than half of all and than 4,096. Then the others are
//   put into a new list, before anything is dropped, so that a refusal changes nothing. What is held
//   is at most twice what isn't dropped and 8,192 literals, and each literal is copied about once
//   more.
// - At most 2^27 literals are held, which is 1 GiB: a line of 14 bytes can't ask for as much as it
//   likes. A clause beyond that is answered as want of memory.
#![tactic(auto)]

mod blocks;
mod freshness;
mod store;

pub use freshness::{each_new, none_dropped};
pub use store::ClauseStore;
