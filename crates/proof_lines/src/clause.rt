// Literals, and clauses: sets of literals.
ghost use Rattle.std.specs.Prelude.{◌≡◌, ◌≤◌, ◌+◌, nat_lt, true, false, not, ◌&&◌, IfOk, OnOk, OnErr, [], ◌++◌, length, take, drop};
ghost use Rattle.proof_lines.specs.Marks.{HasMarks};
ghost use Rattle.proof_lines.specs.Clauses.{is_empty, has, resolvent, insert, join, lit_of, same_lit, sub, distinct, without, flip, negations, holds_both_ways};

use crate::literals::Literals;
use crate::marks::{SHORT_TABLE, are_few, is_among, mark_all, marks_for};
use std::alloc::{AllocError, Global};
use std::marker::Model;

// Of clauses that give at most so many literals a scan finds each in less time than a table of marks.
const SHORT: usize = 5;

// Where at most so many comparisons are needed, a scan finds each literal in less time than a table of marks.
const SCANNED: usize = 16;

/// An atom, or its negation. Atoms are numbered from 0.
#[derive(Clone, Copy, PartialEq, Eq, Debug)]
pub struct Lit {
    pub atom: u32,
    pub positive: bool,
}

impl Lit {
    /// The negation of a literal over the same atom.
    pub fn opposite(self) -> Lit
        ensures { result ≡ flip self }
    {
        Lit {
            atom: self.atom,
            positive: !self.positive,
        }
    }

    /// Whether two literals are one.
    pub fn same(self, other: Lit) -> bool
        ensures { result ≡ same_lit self other }
    {
        self.atom == other.atom && self.positive == other.positive
    }
}

/// A set of literals, which are alternatives: a clause is true where one of its literals is. Contracts see the list of its
/// literals, each once; their order has no meaning.
#[derive(Drop)]
pub struct Clause {
    lits: Literals,
}

impl Model for Clause {
    ghost use Rattle.std.specs.Prelude.{List, ◌≡◌, true};
    ghost use Rattle.proof_lines.specs.{declared.clause.Lit.{Lit}, Clauses.{distinct}};

    ghost Value = { List Lit };

    ghost view = { λ a. a.lits };

    ghost invariant = { λ a. distinct a.lits ≡ true };
}

impl Clause {
    /// The clause without literals, which is false.
    pub fn empty(alloc: Global) -> Clause
        ensures { result ≡ [] }
    {
        Clause {
            lits: Literals::new(alloc),
        }
    }

    /// Adds a literal, unless it is there.
    pub fn insert(&mut self, lit: Lit) -> Result<(), AllocError>
        ensures ok { OnOk result (self.new ≡ insert self.old lit) }
        ensures err { OnErr result (self.new ≡ self.old) }
    {
        if self.holds(lit) {
            return Ok(());
        }
        self.lits.push(lit)?;
        Ok(())
    }

    /// The clause of some literals; one that stands there again counts once.
    pub fn of(alloc: Global, lits: &[Lit]) -> Result<Clause, AllocError>
        ensures { IfOk result (λ c. c ≡ join [] lits.now) }
    {
        let mut clause = Clause::empty(alloc);
        for lit in lits {
            clause.insert(*lit)?;
        }
        Ok(clause)
    }

    /// The clause of the opposites of some literals.
    pub fn of_opposites(alloc: Global, lits: &[Lit]) -> Result<Clause, AllocError>
        ensures { IfOk result (λ c. c ≡ negations lits.now) }
    {
        let room = Literals::with_room(alloc, lits.len())?;
        let mut clause = Clause { lits: room };
        for lit in lits {
            clause.insert(lit.opposite())?;
        }
        Ok(clause)
    }

    /// The left clause without the positive literal of `atom`, joined with the right one without the negative literal. It
    /// follows from the two.
    pub fn resolvent(
        alloc: Global,
        left: &Clause,
        right: &Clause,
        atom: u32,
    ) -> Result<Clause, AllocError>
        ensures { IfOk result (λ c. c ≡ resolvent atom left.now right.now) }
    {
        let most = (left.lits().len() + right.lits().len()).saturating_sub(2);
        if most <= SHORT {
            return Clause::short_resolvent(alloc, left, right, atom);
        }
        Clause::long_resolvent(alloc, left, right, atom, most)
    }

    // The resolvent of clauses of few literals, which are looked for one by one.
    fn short_resolvent(
        alloc: Global,
        left: &Clause,
        right: &Clause,
        atom: u32,
    ) -> Result<Clause, AllocError>
        ensures { IfOk result (λ c. c ≡ resolvent atom left.now right.now) }
    {
        let up = Lit {
            atom,
            positive: true,
        };
        let mut clause = left.without(alloc, up)?;
        clause.insert_others(right.lits(), up.opposite())?;
        Ok(clause)
    }

    // The resolvent of clauses of any length, which has at most so many literals.
    fn long_resolvent(
        alloc: Global,
        left: &Clause,
        right: &Clause,
        atom: u32,
        most: usize,
    ) -> Result<Clause, AllocError>
        ensures { IfOk result (λ c. c ≡ resolvent atom left.now right.now) }
    {
        let up = Lit {
            atom,
            positive: true,
        };
        left.law_distinct();
        right.law_distinct();
        let (left, right) = (left.lits(), right.lits());
        let at = place_of(left, up);
        let mut lits = Vec::with_capacity(alloc, most)?;
        put_both(alloc, &mut lits, left, right, up, at)?;
        Ok(Clause {
            lits: Literals::from_vec(lits),
        })
    }

    // The clause without one literal.
    fn without(&self, alloc: Global, lit: Lit) -> Result<Clause, AllocError>
        ensures { IfOk result (λ c. c ≡ without lit self.now) }
    {
        self.law_distinct();
        let mut lits = Literals::new(alloc);
        push_others(&mut lits, self.lits(), lit)?;
        Ok(Clause { lits })
    }

    // Adds the literals other than one.
    fn insert_others(&mut self, lits: &[Lit], lit: Lit) -> Result<(), AllocError>
        ensures { OnOk result (self.new ≡ join self.old (without lit lits.now)) }
    {
        for x in lits {
            if !x.same(lit) {
                self.insert(*x)?;
            }
        }
        Ok(())
    }

    /// A copy of this clause.
    pub fn copy(&self, alloc: Global) -> Result<Clause, AllocError>
        ensures { IfOk result (λ c. c ≡ self.now) }
    {
        let lits = self.lits.copy(alloc)?;
        Ok(Clause { lits })
    }

    /// The literals, in no order that has a meaning.
    pub fn lits(&self) -> &[Lit]
        ensures { result.now ≡ self.now }
    {
        self.lits.as_slice()
    }

    /// Whether a literal is one of the clause.
    pub fn holds(&self, lit: Lit) -> bool
        ensures { result ≡ has self.now lit }
    {
        holds(self.lits.as_slice(), lit)
    }

    /// Whether it is the empty clause, which no interpretation makes true.
    pub fn is_empty(&self) -> bool
        ensures { result ≡ is_empty self.now }
    {
        self.lits.as_slice().is_empty()
    }

    /// The fact that the literals of a clause are different.
    pub fn law_distinct(&self)
        ensures { distinct self.now ≡ true }
    {
        let _ = &self.lits;
    }
}

/// Whether a literal is one of some literals.
pub fn holds(lits: &[Lit], lit: Lit) -> bool
    ensures { result ≡ has lits.now lit }
{
    lits.iter().any(|x| x.same(lit))
}

/// Whether each of the first literals is one of the second ones.
pub fn is_within(few: &[Lit], lits: &[Lit]) -> bool
    ensures { result ≡ sub few.now lits.now }
{
    few.iter().all(|x| holds(lits, *x))
}

/// Whether some atom stands in the list both ways.
pub fn holds_both_ways(lits: &[Lit]) -> bool
    ensures { result ≡ holds_both_ways lits.now }
{
    lits.iter().any(|x| holds(lits, x.opposite()))
}

// Appends the literals other than one, of which there are few.
fn push_others(out: &mut Literals, lits: &[Lit], lit: Lit) -> Result<(), AllocError>
    ensures { OnOk result (out.new ≡ out.old ++ without lit lits.now) }
{
    for x in lits {
        if !x.same(lit) {
            out.push(*x)?;
        }
    }
    Ok(())
}

// The place of a literal among different ones, or the number of these where it isn't there.
fn place_of(lits: &[Lit], lit: Lit) -> usize
    requires { distinct lits.now ≡ true }
    ensures there { nat_lt result (length lits.now) ≡ has lits.now lit }
    ensures around { without lit lits.now ≡ take result lits.now ++ drop (result + 1) lits.now }
    ensures within { result ≤ length lits.now }
{
    for (i, x) in lits.iter().enumerate() {
        if x.same(lit) {
            return i;
        }
    }
    lits.len()
}

// Appends the literals around a place, in two parts that are copied at once.
fn put_around(out: &mut Vec<Lit>, lits: &[Lit], at: usize) -> Result<(), AllocError>
    requires { at ≤ length lits.now }
    ensures { OnOk result
        (out.new.items ≡ out.old.items ++ (take at lits.now ++ drop (at + 1) lits.now)) }
{
    out.extend_from_slice(&lits[..at])?;
    if at < lits.len() {
        out.extend_from_slice(&lits[at + 1..])?;
    }
    Ok(())
}

// Adds a literal of the right clause to a resolvent. The right clause has it once, so it is there only where the left one has it.
fn put_new(
    out: &mut Vec<Lit>,
    marks: &[bool],
    left: &[Lit],
    up: Lit,
    lit: Lit,
) -> Result<(), AllocError>
    requires marks { HasMarks marks.now left.now }
    requires there { has out.old.items lit ≡ (not (same_lit lit up) && has left.now lit) }
    ensures { OnOk result (out.new.items ≡ insert out.old.items lit) }
{
    if is_among(marks, left, lit) && !lit.same(up) {
        return Ok(());
    }
    out.push(lit)?;
    Ok(())
}

// Adds the literals of the right clause, other than the opposite, to those of the left one, which have this table of marks.
fn put_right(
    out: &mut Vec<Lit>,
    marks: &[bool],
    left: &[Lit],
    right: &[Lit],
    up: Lit,
) -> Result<(), AllocError>
    requires marks { HasMarks marks.now left.now }
    requires left { out.old.items ≡ without up left.now }
    requires right { distinct right.now ≡ true }
    ensures { OnOk result (out.new.items ≡ join (without up left.now)
        (without (flip up) right.now)) }
{
    for lit in right {
        if !lit.same(up.opposite()) {
            put_new(out, marks, left, up, *lit)?;
        }
    }
    Ok(())
}

// The same, where there are so few that each is looked for.
fn put_looked_for(out: &mut Vec<Lit>, right: &[Lit], down: Lit) -> Result<(), AllocError>
    ensures { OnOk result (out.new.items ≡ join out.old.items (without down right.now)) }
{
    for lit in right {
        if !lit.same(down) && !holds(out.as_slice(), *lit) {
            out.push(*lit)?;
        }
    }
    Ok(())
}

// The same, with a table on the stack.
fn put_short(out: &mut Vec<Lit>, left: &[Lit], right: &[Lit], up: Lit) -> Result<(), AllocError>
    requires left { out.old.items ≡ without up left.now }
    requires right { distinct right.now ≡ true }
    ensures { OnOk result (out.new.items ≡ join (without up left.now)
        (without (flip up) right.now)) }
{
    let mut table = [false; SHORT_TABLE];
    mark_all(&mut table, left);
    put_right(out, &table, left, right, up)
}

// The same, with a table that has room for the greatest.
fn put_long(
    alloc: Global,
    out: &mut Vec<Lit>,
    left: &[Lit],
    right: &[Lit],
    up: Lit,
) -> Result<(), AllocError>
    requires left { out.old.items ≡ without up left.now }
    requires right { distinct right.now ≡ true }
    ensures { OnOk result (out.new.items ≡ join (without up left.now)
        (without (flip up) right.now)) }
{
    let marks = marks_for(alloc, left, right)?;
    put_right(out, marks.as_slice(), left, right, up)
}

// The same, by the way that takes least.
fn put_behind(
    alloc: Global,
    out: &mut Vec<Lit>,
    left: &[Lit],
    right: &[Lit],
    up: Lit,
) -> Result<(), AllocError>
    requires left { out.old.items ≡ without up left.now }
    requires right { distinct right.now ≡ true }
    ensures { OnOk result (out.new.items ≡ join (without up left.now)
        (without (flip up) right.now)) }
{
    if left.len().saturating_mul(right.len()) <= SCANNED {
        return put_looked_for(out, right, up.opposite());
    }
    if are_few(left.len(), right.len()) {
        return put_short(out, left, right, up);
    }
    put_long(alloc, out, left, right, up)
}

// Puts the resolvent of two clauses, of which the left one has the literal at a place, into an empty list.
fn put_both(
    alloc: Global,
    out: &mut Vec<Lit>,
    left: &[Lit],
    right: &[Lit],
    up: Lit,
    at: usize,
) -> Result<(), AllocError>
    requires none { out.old.items ≡ [] }
    requires within { at ≤ length left.now }
    requires around { without up left.now ≡ take at left.now ++ drop (at + 1) left.now }
    requires right { distinct right.now ≡ true }
    ensures { OnOk result (out.new.items ≡ join (without up left.now)
        (without (flip up) right.now)) }
{
    put_around(out, left, at)?;
    put_behind(alloc, out, left, right, up)
}

/// Puts the resolvent of two clauses over an atom into an empty list, where the left one has the atom and the right one its
/// negation, and tells whether they have. Where they haven't, nothing is put.
pub fn put_resolvent(
    alloc: Global,
    out: &mut Vec<Lit>,
    left: &[Lit],
    right: &[Lit],
    atom: u32,
) -> Result<bool, AllocError>
    requires none { out.old.items ≡ [] }
    requires left { distinct left.now ≡ true }
    requires right { distinct right.now ≡ true }
    ensures there { IfOk result (λ put. put
        ≡ (has left.now (lit_of atom true) && has right.now (lit_of atom false))) }
    ensures put { IfOk result (λ put. put ≡ true
        → out.new.items ≡ resolvent atom left.now right.now) }
    ensures none { IfOk result (λ put. put ≡ false → out.new.items ≡ []) }
{
    let up = Lit {
        atom,
        positive: true,
    };
    let at = place_of(left, up);
    if at >= left.len() || !holds(right, up.opposite()) {
        return Ok(false);
    }
    put_both(alloc, out, left, right, up, at)?;
    Ok(true)
}
