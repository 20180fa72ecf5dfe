// The literals of a clause: a few stand in the list itself, and more of them in memory of their own.
//
// Most clauses have two or three literals, and a search writes, copies and lets go of many thousands of them. These take no memory
// besides that of the list in which the clause stands. Which form a list has, contracts don't see.
//
// Three stand in the list itself: it takes 32 bytes then, no more than it would with room for two,
// since a list in memory and the word by which the two forms differ take as many.
ghost use Rattle.std.specs.Prelude.{◌≡◌, [], ◌∷◌, ◌++◌, ◌≤◌, true, false, OnOk, OnErr, IfOk};

use crate::clause::Lit;
use items::Items;
use std::alloc::{AllocError, Global};
use std::marker::Model;

// So many literals stand in the list itself.
const FEW: usize = 3;

// A list of more literals begins with room for so many.
const SOME: usize = 5;

// What stands in a place that no literal has.
const NONE: Lit = Lit {
    atom: 0,
    positive: false,
};

/// At most three literals, seen by contracts as the list of them. They are the first `count` of the front.
#[derive(Drop)]
struct FewLiterals {
    front: [Lit; 3],
    count: u32,
    alloc: Global,
}

impl Model for FewLiterals {
    ghost use Rattle.std.specs.Prelude.{List, ◌≤◌, take};
    ghost use Rattle.proof_lines.specs.declared.clause.Lit.{Lit};

    ghost Value = { List Lit };

    ghost view = { λ a. take a.count a.front };

    ghost invariant = { λ a. a.count ≤ 3 };
}

impl FewLiterals {
    fn new(alloc: Global) -> FewLiterals
        ensures { result ≡ [] }
    {
        FewLiterals {
            front: [NONE, NONE, NONE],
            count: 0,
            alloc,
        }
    }

    // Adds a literal at the end where there is a place for it, and tells whether there was.
    fn push(&mut self, lit: Lit) -> bool
        ensures put { result ≡ true → self.new ≡ self.old ++ lit ∷ [] }
        ensures full { result ≡ false → self.new ≡ self.old }
    {
        let at = self.count as usize;
        if at >= FEW {
            return false;
        }
        self.front[at] = lit;
        self.count += 1;
        true
    }

    fn as_slice(&self) -> &[Lit]
        ensures { result.now ≡ self.now }
    {
        &self.front[..self.count as usize]
    }

    fn copy(&self, alloc: Global) -> FewLiterals
        ensures { result ≡ self.now }
    {
        FewLiterals {
            front: self.front,
            count: self.count,
            alloc,
        }
    }

    // These literals and one more, in a list.
    fn and(&self, lit: Lit) -> Result<Items<Lit>, AllocError>
        ensures { IfOk result (λ lits. lits ≡ self.now ++ lit ∷ []) }
    {
        let mut lits = Vec::with_capacity(self.alloc, SOME)?;
        lits.extend_from_slice(self.as_slice())?;
        lits.push(lit)?;
        Ok(Items::from_vec(lits))
    }
}

/// Where the literals stand.
#[derive(Drop)]
enum Form {
    Few(FewLiterals),
    Many(Items<Lit>),
}

/// A growing list of literals, seen by contracts as the list of its elements.
#[derive(Drop)]
pub struct Literals {
    form: Form,
}

impl Model for Literals {
    ghost use Rattle.std.specs.Prelude.{List};
    ghost use Rattle.proof_lines.specs.{declared.clause.Lit.{Lit}, Forms.{literals}};

    ghost Value = { List Lit };

    ghost view = { λ a. literals a.form };
}

impl Literals {
    /// An empty list, which takes no memory until it is long.
    pub fn new(alloc: Global) -> Literals
        ensures { result ≡ [] }
    {
        Literals {
            form: Form::Few(FewLiterals::new(alloc)),
        }
    }

    /// An empty list for at most so many literals. With more it grows.
    pub fn with_room(alloc: Global, most: usize) -> Result<Literals, AllocError>
        ensures { IfOk result (λ lits. lits ≡ []) }
    {
        if most <= SOME {
            return Ok(Literals::new(alloc));
        }
        let lits = Vec::with_capacity(alloc, most)?;
        Ok(Literals::from_vec(lits))
    }

    /// The list of a vector's elements.
    pub fn from_vec(vec: Vec<Lit>) -> Literals
        ensures { result ≡ vec.items }
    {
        Literals {
            form: Form::Many(Items::from_vec(vec)),
        }
    }

    /// Adds a literal at the end. A refused one leaves the list as it was.
    pub fn push(&mut self, lit: Lit) -> Result<(), AllocError>
        ensures ok { OnOk result (self.new ≡ self.old ++ lit ∷ []) }
        ensures err { OnErr result (self.new ≡ self.old) }
    {
        let more = match &mut self.form {
            Form::Few(few) => {
                if few.push(lit) {
                    return Ok(());
                }
                few.and(lit)?
            }
            Form::Many(lits) => return lits.push(lit),
        };
        self.form = Form::Many(more);
        Ok(())
    }

    /// All literals, in their order.
    pub fn as_slice(&self) -> &[Lit]
        ensures { result.now ≡ self.now }
    {
        match &self.form {
            Form::Few(few) => few.as_slice(),
            Form::Many(lits) => lits.as_slice(),
        }
    }

    /// A copy of this list.
    pub fn copy(&self, alloc: Global) -> Result<Literals, AllocError>
        ensures { IfOk result (λ lits. lits ≡ self.now) }
    {
        match &self.form {
            Form::Few(few) => Ok(Literals {
                form: Form::Few(few.copy(alloc)),
            }),
            Form::Many(lits) => {
                let lits = Items::from_slice(alloc, lits.as_slice())?;
                Ok(Literals {
                    form: Form::Many(lits),
                })
            }
        }
    }
}
