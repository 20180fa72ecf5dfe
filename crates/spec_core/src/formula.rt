// Formulas and terms, as a specification writes them.

use items::Items;

/// What stands for an element: a constant, a parameter of the operation or a variable of the prefix, each by its place.
#[derive(Clone, Copy)]
pub enum Elem {
    Const(u8),
    Param(u8),
    Var(u8),
}

/// A comparison of two terms.
#[derive(Clone, Copy)]
pub enum Cmp {
    Less,
    AtMost,
    Equal,
    Unequal,
    AtLeast,
    Greater,
}

/// What a coefficient multiplies: the number 1, a whole-number parameter, or a counter's reading.
#[derive(Drop)]
pub enum Body {
    One,
    Param(u8),
    Count(u8, Items<Elem>),
}

/// A coefficient, from -1,000,000,000 to 1,000,000,000, times a body.
#[derive(Drop)]
pub struct Summand {
    pub coef: i64,
    pub body: Body,
}

/// A sum of at most 16 summands.
#[derive(Drop)]
pub struct Term {
    pub summands: Items<Summand>,
}

/// A formula. Contracts see it as its `Form`, wherever its parts lie in memory.
#[derive(Drop)]
pub enum Formula {
    True,
    False,
    Not(Box<Formula>),
    And(Box<Formula>, Box<Formula>),
    Or(Box<Formula>, Box<Formula>),
    Implies(Box<Formula>, Box<Formula>),
    Has(u8, Items<Elem>),
    Same(Elem, Elem),
    Differ(Elem, Elem),
    Compare(Term, Cmp, Term),
}
