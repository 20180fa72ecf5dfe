// A clause search that promises nothing, for problems over plain atoms: whoever asks tests what it proposes.
//
// It stands on `proof_lines`, whose literals it numbers, and on `decision_queue`, which gets an atom back when its value is taken back.
//
// Each clause watches two of its literals, with a literal beside the watch that is looked at first (Eén and Sörensson, 2003). A literal or
// clause that isn't there reads as open or empty.
//
// It learns from conflicts as MiniSat does (Eén and Sörensson, 2003). A conflict is resolved back to the first clause with one literal of the last level (the first unique
// implication point), and that clause alone is kept and watched. The most active atom is decided, as it was last, and the search begins anew
// after so many conflicts as the sequence of Luby, Sinclair and Zuckerman (1993) says. A clause that is learned keeps literals that follow
// from its others: to resolve them away takes more lines than it saves.
//
// The search of `watched_search` keeps each resolvent of a chain and lets it watch, since the evidence of a spent budget asks for a trail
// that is settled for all of them. These are ten to twenty times as many clauses. Here only the steps of a chain are noted. Where the
// empty clause is reached, the chains that it needs are written as lines, and no others; so the log is shorter, too.
//
// Two such searches take turns, each from where it stopped: one decides by activity, the other by number and without beginning anew. By
// activity most problems take few conflicts. Pigeons in too few holes take a tenth as many by number, and give a shorter log.
//
// Where a log would be longer than the budget, there is a refutation, and another may be shorter. So the search is tried in other styles:
// first by lookahead, whose conflicts are few, then by activity with earlier restarts.
//
// A literal of level 0 gets a clause of its own, of that literal alone. A chain resolves such literals away by these, each by one line.
//
// The parts, in the order in which a reader needs them: `codes` (literals as numbers), `assignment` (the trail), `watching` (the clauses
// and what they watch), `lookahead` (what is tried before a decision), `chains` (the steps by which clauses were learned, and their
// lines), `analysis` (a conflict), `searching`.
//
// Decisions:
// - By number an atom gets the value that it had last, the first time false: with true, pigeons
//   take more conflicts.
// - Tried on an unproved model, with little gain in lines: a second search over the clauses that a
//   log uses, literals of level 0 left in learned clauses, resolutions dropped on atoms that are
//   resolved away again. Learned clauses derived anew by unit propagation made logs longer.
#![tactic(auto)]

mod analysis;
mod assignment;
mod chains;
mod codes;
mod lookahead;
mod searching;
mod watching;

pub use searching::{Proposal, propose};
