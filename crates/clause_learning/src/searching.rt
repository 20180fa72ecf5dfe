// The search, and what it proposes.
use crate::analysis::Analysis;
use crate::assignment::{Assignment, Truth};
use crate::chains::Chains;
use crate::codes::{code, opposite};
use crate::lookahead::{Lookahead, score};
use crate::watching::Clauses;
use decision_queue::{DecisionQueue, Order};
use items::Items;
use proof_lines::{AtomKind, Line, Problem};
use std::alloc::{AllocError, Global};
use std::cmp::min;

/// What the search proposes. Nothing is promised of it.
#[derive(Drop)]
pub enum Proposal {
    /// A log that should give the empty clause.
    Log(Items<Line>),
    /// Values of the atoms by which all clauses should be true.
    Values(Items<bool>),
    /// Neither was found.
    Nothing,
}

// The most atoms of a problem that is tried: each literal has a number.
const MOST_ATOMS: usize = 1 << 30;

// In which style a search is tried: in which order atoms are decided, unless it looks ahead; it begins anew after a multiple of so many
// conflicts, and what older conflicts added to the activity of an atom counts for less so many times with each.
#[derive(Clone, Copy)]
struct Style {
    order: Order,
    restart: u32,
    fades: u32,
    looks: bool,
}

// The two styles that take turns.
const BY_ACTIVITY: Style = Style {
    order: Order::Activity,
    restart: 100,
    fades: 1,
    looks: false,
};

const BY_NUMBER: Style = Style {
    order: Order::Number,
    restart: u32::MAX,
    fades: 1,
    looks: false,
};

// The styles for a shorter log.
const SHORTER: [Style; 2] = [
    Style {
        order: Order::Activity,
        restart: u32::MAX,
        fades: 1,
        looks: true,
    },
    Style {
        order: Order::Activity,
        restart: 20,
        fades: 2,
        looks: false,
    },
];

// After so many conflicts by activity it is the turn of the other order, for twice as many. Each turn ends after a multiple of the
// conflicts of the one before it.
const TURN: u32 = 256;

const GROWTH: u32 = 16;

const TURNS: u32 = 2;

// How many atoms are tried before one is decided by lookahead.
const LOOKS: u32 = 8;

// How many clauses lookahead may visit for each line of the budget.
const VISITS: usize = 256;

// Of so many members of the restart sequence one is looked for.
const LUBY_STEPS: u32 = 32;

// What a search came to.
#[derive(Drop)]
enum Tried {
    /// It proposes this.
    Ended(Proposal),
    /// The log is longer than the budget, or lookahead visited as many clauses as it may.
    Long,
    /// There were as many conflicts as it may have.
    Open,
}

// What a step came to.
#[derive(Clone, Copy)]
enum Progress {
    Continue,
    Refuted,
    Found,
    Stuck,
    BudgetExhausted,
}

// A literal that does less than its opposite, and how good a decision their atom is.
#[derive(Clone, Copy)]
struct Candidate {
    lit: u32,
    score: u64,
}

// What the literals of an atom do.
#[derive(Clone, Copy)]
enum Look {
    /// A conflict follows from this one.
    Fails(u32),
    /// None follows from either.
    Scores(Candidate),
}

#[derive(Drop)]
struct Search {
    clauses: Clauses,
    assignment: Assignment,
    analysis: Analysis,
    chains: Chains,
    queue: DecisionQueue,
    lookahead: Lookahead,
    noted: usize,
    style: Style,
    refuted: bool,
    conflicts: u32,
    restarts: u32,
    left: u32,
}

// A member of the sequence 1, 1, 2, 1, 1, 2, 4, ..: its places are counted from 0.
fn luby(place: u32) -> u32 {
    let mut size = 1u32;
    let mut power = 1u32;
    for _ in 0..LUBY_STEPS {
        if size > place {
            break;
        }
        size = size.saturating_mul(2).saturating_add(1);
        power = power.saturating_mul(2);
    }
    let mut rest = place;
    for _ in 0..LUBY_STEPS {
        if size <= 1 || size - 1 == rest {
            break;
        }
        size = (size - 1) / 2;
        power /= 2;
        if size > 0 {
            rest %= size;
        }
    }
    power
}

// The better of two decisions; of two that are as good, the first.
fn better(best: Option<Candidate>, other: Candidate) -> Candidate {
    match best {
        Some(best) if best.score >= other.score => best,
        _ => other,
    }
}

fn are_plain(problem: &Problem) -> bool {
    problem.atoms.iter().all(|atom| match atom {
        AtomKind::Plain => true,
        AtomKind::Row(_) => false,
    })
}

impl Search {
    fn new(
        alloc: Global,
        problem: &Problem,
        atoms: u32,
        style: Style,
    ) -> Result<Search, AllocError> {
        let clauses = Clauses::new(alloc, atoms)?;
        let assignment = Assignment::new(alloc, atoms)?;
        let analysis = Analysis::new(alloc, atoms)?;
        let lookahead = Lookahead::new(alloc, atoms)?;
        Ok(Search {
            clauses,
            assignment,
            analysis,
            chains: Chains::new(alloc, problem.clauses.len()),
            queue: DecisionQueue::new(alloc, style.order),
            lookahead,
            noted: 0,
            style,
            refuted: false,
            conflicts: 0,
            restarts: 0,
            left: style.restart,
        })
    }

    // Adds the clauses of the problem. Answers one of them that is false already, where one is.
    fn load(&mut self, alloc: Global, problem: &Problem) -> Result<Option<u32>, AllocError> {
        let mut lits = Vec::new(alloc);
        for clause in problem.clauses.as_slice() {
            lits.clear();
            for lit in clause.lits() {
                lits.push(code(*lit))?;
                self.queue.count(lit.atom)?;
            }
            self.clauses.add(lits.as_slice())?;
        }
        for number in 0..self.clauses.len() {
            let Ok(number) = u32::try_from(number) else {
                continue;
            };
            if let Some(conflict) = self.load_unit(number)? {
                return Ok(Some(conflict));
            }
        }
        Ok(None)
    }

    // Takes the literal of a clause that has one alone to be true.
    fn load_unit(&mut self, clause: u32) -> Result<Option<u32>, AllocError> {
        let lits = self.clauses.lits(clause);
        if lits.len() != 1 {
            return Ok(None);
        }
        let lit = lits[0];
        match self.assignment.truth(lit) {
            Truth::Open => {
                self.assignment.assign(lit, Some(clause))?;
                self.analysis.set_unit(lit, clause);
                Ok(None)
            }
            Truth::True => Ok(None),
            Truth::False => {
                self.note_fixed()?;
                Ok(Some(clause))
            }
        }
    }

    // Gives each literal of level 0 a clause of its own.
    fn note_fixed(&mut self) -> Result<(), AllocError> {
        for place in self.noted..self.assignment.trail.len() {
            if let Some(lit) = self.assignment.trail.get(place) {
                let lit = *lit;
                self.note(lit)?;
            }
        }
        self.noted = self.assignment.trail.len();
        Ok(())
    }

    fn note(&mut self, lit: u32) -> Result<(), AllocError> {
        let Some(reason) = self.assignment.cause(lit).reason else {
            return Ok(());
        };
        if self.clauses.lits(reason).len() <= 1 {
            self.analysis.set_unit(lit, reason);
            return Ok(());
        }
        self.analysis
            .reduce(&self.clauses, &mut self.chains, reason, Some(lit))?;
        let unit = self.clauses.add(&[lit])?;
        self.analysis.set_unit(lit, unit);
        Ok(())
    }

    // Finds what follows from the literals of the trail. A clause that is false then is answered.
    fn propagate(&mut self) -> Result<Option<u32>, AllocError> {
        for _ in 0..self.assignment.truths.len() {
            let Some(lit) = self.assignment.next() else {
                return Ok(None);
            };
            let found = self.clauses.follow(&mut self.assignment, opposite(lit))?;
            if found.is_some() {
                return Ok(found);
            }
        }
        Ok(None)
    }

    // Learns from a false clause.
    fn learn(&mut self, conflict: u32) -> Result<Progress, AllocError> {
        self.conflicts = self.conflicts.saturating_add(1);
        self.left = self.left.saturating_sub(1);
        if self.assignment.level() == 0 {
            self.note_fixed()?;
            self.analysis
                .reduce(&self.clauses, &mut self.chains, conflict, None)?;
            return Ok(Progress::Refuted);
        }
        for _ in 0..self.style.fades {
            self.queue.fade();
        }
        let learned = self.analysis.learn(
            &self.clauses,
            &self.assignment,
            &mut self.queue,
            &mut self.chains,
            conflict,
        )?;
        let Some(level) = learned else {
            return Ok(Progress::Stuck);
        };
        self.assignment.cut(level, &mut self.queue)?;
        let clause = self.clauses.add(self.analysis.lits.as_slice())?;
        self.lookahead.learn(clause, self.analysis.lits.len())?;
        if let Some(lit) = self.analysis.lits.first() {
            self.assignment.assign(*lit, Some(clause))?;
        }
        Ok(Progress::Continue)
    }

    // How much a literal does, unless a conflict follows from it.
    fn probe(&mut self, lit: u32) -> Result<Option<u64>, AllocError> {
        let level = self.assignment.level();
        let start = self.assignment.trail.len();
        self.assignment.decide(lit)?;
        let conflict = self.propagate()?;
        let done = self
            .lookahead
            .done_by(self.assignment.trail.as_slice(), start);
        self.assignment.cut(level, &mut self.queue)?;
        match conflict {
            Some(_) => Ok(None),
            None => Ok(Some(done)),
        }
    }

    // Tries both literals of an atom.
    fn look_at(&mut self, atom: u32) -> Result<Look, AllocError> {
        let negative = atom.saturating_mul(2);
        let positive = negative.saturating_add(1);
        let Some(left) = self.probe(negative)? else {
            return Ok(Look::Fails(negative));
        };
        let Some(right) = self.probe(positive)? else {
            return Ok(Look::Fails(positive));
        };
        let lit = if left > right { positive } else { negative };
        Ok(Look::Scores(Candidate {
            lit,
            score: score(left, right),
        }))
    }

    // The literal that is decided by lookahead, where an atom has no value.
    fn look(&mut self) -> Result<Option<u32>, AllocError> {
        self.lookahead
            .weigh(&self.clauses, self.assignment.truths.as_slice())?;
        let mut best = None;
        for _ in 0..LOOKS {
            let Some(atom) = self.lookahead.take(self.assignment.truths.as_slice()) else {
                break;
            };
            match self.look_at(atom)? {
                Look::Fails(lit) => return Ok(Some(lit)),
                Look::Scores(candidate) => best = Some(better(best, candidate)),
            }
        }
        match best {
            Some(candidate) => Ok(Some(candidate.lit)),
            None => Ok(None),
        }
    }

    // Decides by lookahead.
    fn decide_ahead(&mut self) -> Result<Progress, AllocError> {
        if self.lookahead.is_exhausted() {
            return Ok(Progress::BudgetExhausted);
        }
        match self.look()? {
            Some(lit) => {
                self.assignment.decide(lit)?;
                Ok(Progress::Continue)
            }
            None => Ok(Progress::Found),
        }
    }

    // Decides the most active atom, where one has no value.
    fn decide(&mut self) -> Result<Progress, AllocError> {
        if self.style.looks {
            return self.decide_ahead();
        }
        for _ in 0..self.assignment.truths.len() {
            let Some(atom) = self.queue.first() else {
                return Ok(Progress::Found);
            };
            self.queue.remove_first();
            let lit = self.assignment.last_of(atom);
            if self.assignment.truth(lit) == Truth::Open {
                self.assignment.decide(lit)?;
                return Ok(Progress::Continue);
            }
        }
        Ok(Progress::Found)
    }

    // Begins anew, where it is due.
    fn restart(&mut self) -> Result<(), AllocError> {
        if self.left == 0 {
            self.restarts = self.restarts.saturating_add(1);
            self.left = luby(self.restarts).saturating_mul(self.style.restart);
            self.assignment.cut(0, &mut self.queue)?;
        }
        Ok(())
    }

    // One step: what follows from the trail is found; then a conflict is learned from, or an atom is decided.
    fn advance(&mut self) -> Result<Progress, AllocError> {
        if let Some(conflict) = self.propagate()? {
            return self.learn(conflict);
        }
        if self.assignment.level() == 0 {
            self.note_fixed()?;
        }
        self.restart()?;
        self.decide()
    }

    // The values of all atoms.
    fn values(&self, alloc: Global, atoms: u32) -> Result<Items<bool>, AllocError> {
        let mut values = Items::new(alloc);
        for atom in 0..atoms {
            let lit = atom.saturating_mul(2).saturating_add(1);
            values.push(self.assignment.truth(lit) == Truth::True)?;
        }
        Ok(values)
    }

    fn log(&self, alloc: Global, budget: u32) -> Result<Tried, AllocError> {
        match self.chains.lines(alloc, budget)? {
            Some(lines) => Ok(Tried::Ended(Proposal::Log(lines))),
            None => Ok(Tried::Long),
        }
    }

    // Lets all atoms be decided, or all clauses count.
    fn prepare(&mut self, atoms: u32, budget: u32) -> Result<(), AllocError> {
        if self.style.looks {
            let visits = (budget as usize).saturating_mul(VISITS);
            return self
                .lookahead
                .begin(&self.clauses, self.assignment.truths.as_slice(), visits);
        }
        for atom in 0..atoms {
            self.queue.insert(atom, false)?;
        }
        Ok(())
    }

    // Takes up the clauses of the problem.
    fn begin(
        &mut self,
        alloc: Global,
        problem: &Problem,
        atoms: u32,
        budget: u32,
    ) -> Result<(), AllocError> {
        if let Some(conflict) = self.load(alloc, problem)? {
            self.learn(conflict)?;
            self.refuted = true;
            return Ok(());
        }
        self.prepare(atoms, budget)
    }

    // Goes on to the next conflict, or to an end.
    fn step(&mut self) -> Result<Progress, AllocError> {
        for _ in 0..self.assignment.truths.len().saturating_add(1) {
            let conflicts = self.conflicts;
            let progress = self.advance()?;
            if !matches!(progress, Progress::Continue) || self.conflicts != conflicts {
                return Ok(progress);
            }
        }
        Ok(Progress::Continue)
    }

    // Goes on until there is an answer, or there were so many conflicts in all.
    fn run(
        &mut self,
        alloc: Global,
        atoms: u32,
        budget: u32,
        most: u32,
    ) -> Result<Tried, AllocError> {
        if self.refuted {
            return self.log(alloc, budget);
        }
        for _ in self.conflicts..most {
            match self.step()? {
                Progress::Continue => {}
                Progress::Refuted => return self.log(alloc, budget),
                Progress::Found => {
                    let values = self.values(alloc, atoms)?;
                    return Ok(Tried::Ended(Proposal::Values(values)));
                },
                Progress::Stuck => return Ok(Tried::Ended(Proposal::Nothing)),
                Progress::BudgetExhausted => return Ok(Tried::Long),
            }
        }
        Ok(Tried::Open)
    }
}

// Lets two searches take turns, each from where it stopped. Where the log of the second is too long, the first goes on alone.
fn take_turns(
    alloc: Global,
    atoms: u32,
    budget: u32,
    active: &mut Search,
    numbered: &mut Search,
) -> Result<Tried, AllocError> {
    let mut turn = TURN;
    for _ in 0..TURNS {
        match numbered.run(alloc, atoms, budget, min(turn.saturating_mul(2), budget))? {
            Tried::Ended(proposal) => return Ok(Tried::Ended(proposal)),
            Tried::Long => break,
            Tried::Open => {}
        }
        turn = turn.saturating_mul(GROWTH);
        match active.run(alloc, atoms, budget, min(turn, budget))? {
            Tried::Ended(proposal) => return Ok(Tried::Ended(proposal)),
            Tried::Long => return Ok(Tried::Long),
            Tried::Open => {}
        }
    }
    active.run(alloc, atoms, budget, budget)
}

// Goes on with a search by activity after its first turn.
fn alternate(
    alloc: Global,
    problem: &Problem,
    atoms: u32,
    budget: u32,
    active: &mut Search,
) -> Result<Tried, AllocError> {
    let mut numbered = Search::new(alloc, problem, atoms, BY_NUMBER)?;
    let tried = match numbered.begin(alloc, problem, atoms, budget) {
        Ok(()) => take_turns(alloc, atoms, budget, active, &mut numbered),
        Err(error) => Err(error),
    };
    drop(numbered);
    tried
}

fn tried_first(
    alloc: Global,
    problem: &Problem,
    atoms: u32,
    budget: u32,
    active: &mut Search,
) -> Result<Tried, AllocError> {
    active.begin(alloc, problem, atoms, budget)?;
    match active.run(alloc, atoms, budget, min(TURN, budget))? {
        Tried::Ended(proposal) => Ok(Tried::Ended(proposal)),
        Tried::Long => Ok(Tried::Long),
        Tried::Open => alternate(alloc, problem, atoms, budget, active),
    }
}

// Tries a search by activity, and one by number in turn with it.
fn tried_by_turns(
    alloc: Global,
    problem: &Problem,
    atoms: u32,
    budget: u32,
) -> Result<Tried, AllocError> {
    let mut active = Search::new(alloc, problem, atoms, BY_ACTIVITY)?;
    let tried = tried_first(alloc, problem, atoms, budget, &mut active);
    drop(active);
    tried
}

// Tries a search in a style.
fn tried_in(
    alloc: Global,
    problem: &Problem,
    atoms: u32,
    budget: u32,
    style: Style,
) -> Result<Tried, AllocError> {
    let mut search = Search::new(alloc, problem, atoms, style)?;
    let tried = match search.begin(alloc, problem, atoms, budget) {
        Ok(()) => search.run(alloc, atoms, budget, budget),
        Err(error) => Err(error),
    };
    drop(search);
    tried
}

/// Searches a problem for values by which all clauses are true, or for a log of at most `budget` lines that shows that there are none. It
/// gives up after as many conflicts, in each style. Atoms that stand for rows aren't tried.
pub fn propose(alloc: Global, problem: &Problem, budget: u32) -> Result<Proposal, AllocError> {
    if problem.atoms.len() > MOST_ATOMS || !are_plain(problem) {
        return Ok(Proposal::Nothing);
    }
    let Ok(atoms) = u32::try_from(problem.atoms.len()) else {
        return Ok(Proposal::Nothing);
    };
    match tried_by_turns(alloc, problem, atoms, budget)? {
        Tried::Ended(proposal) => return Ok(proposal),
        Tried::Open => return Ok(Proposal::Nothing),
        Tried::Long => {}
    }
    for style in SHORTER {
        match tried_in(alloc, problem, atoms, budget, style)? {
            Tried::Ended(proposal) => return Ok(proposal),
            Tried::Open => return Ok(Proposal::Nothing),
            Tried::Long => {}
        }
    }
    Ok(Proposal::Nothing)
}
