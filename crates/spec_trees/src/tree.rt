// The tree of a specification: one variant for each alternative of the grammar, with names and
// numbers where they stand.

use items::Items;
use parser_combinators::Version;
use spec_core::Name;

/// A name and its place among the words, counted from 0.
#[derive(Drop)]
pub struct Mark {
    pub text: Name,
    pub word: u32,
}

/// A number and its place among the words, counted from 0.
#[derive(Drop)]
pub struct Figure {
    pub value: u128,
    pub word: u32,
}

/// A name with its arguments; without arguments there are no brackets.
#[derive(Drop)]
pub struct Reading {
    pub name: Mark,
    pub args: Items<Mark>,
}

/// What a summand adds.
#[derive(Drop)]
pub enum Product {
    Number(Figure),
    Times(Figure, Reading),
    Reading(Reading),
}

/// A summand. Its word is that of its number or name; behind the first summand it is the sign
/// before it.
#[derive(Drop)]
pub struct Summand {
    pub word: u32,
    pub product: Product,
}

/// What stands before a summand behind the first one.
#[derive(Clone, Copy, PartialEq, Eq, Debug)]
pub enum Sign {
    Plus,
    Minus,
}

/// A summand behind the first one, with the sign before it.
#[derive(Drop)]
pub struct Signed {
    pub sign: Sign,
    pub summand: Summand,
}

/// A sum; `minus` says that a `-` stands before it.
#[derive(Drop)]
pub struct Term {
    pub minus: bool,
    pub first: Summand,
    pub more: Items<Signed>,
}

/// What stands between the sides of a comparison: `=`, `!=`, `<`, `<=`, `>` or `>=`.
#[derive(Clone, Copy, PartialEq, Eq, Debug)]
pub enum Comparison {
    Equal,
    Unequal,
    Less,
    AtMost,
    Greater,
    AtLeast,
}

/// What joins two formulas in brackets.
#[derive(Clone, Copy, PartialEq, Eq, Debug)]
pub enum Connective {
    And,
    Or,
    Implies,
}

/// A formula, each with the place of its first word.
#[derive(Drop)]
pub enum Formula {
    True(u32),
    False(u32),
    Not(u32, Box<Formula>),
    Connect(u32, Box<Formula>, Connective, Box<Formula>),
    Has(u32, Reading),
    Compare(u32, Box<Term>, Comparison, Box<Term>),
}

/// A variable with its sort.
#[derive(Drop)]
pub struct Variable {
    pub name: Mark,
    pub sort: Mark,
}

/// Over what a quantified formula speaks: all elements of its sorts, or some.
#[derive(Clone, Copy, PartialEq, Eq, Debug)]
pub enum Quantifier {
    Forall,
    Exists,
}

/// A quantifier, its place, and one variable or more.
#[derive(Drop)]
pub struct Prefix {
    pub word: u32,
    pub quantifier: Quantifier,
    pub vars: Items<Variable>,
}

/// A formula with its variables.
#[derive(Drop)]
pub struct Prefixed {
    pub prefix: Option<Prefix>,
    pub body: Formula,
}

/// What may be asked of an initial value: `true`, `false`, or a number with or without a `-` before
/// it.
#[derive(Drop)]
pub enum Value {
    True,
    False,
    Number(bool, Figure),
}

/// What the parameters of an operation are.
#[derive(Drop)]
pub enum ParamKind {
    Sort(Mark),
    Int,
}

/// A parameter of an operation with its kind.
#[derive(Drop)]
pub struct Param {
    pub name: Mark,
    pub kind: ParamKind,
}

/// A place that an update names: an element, or `*` for each.
#[derive(Drop)]
pub enum Spot {
    One(Mark),
    Every,
}

/// How a takes line says that it takes its token; without a mode it takes it exclusively. Only the
/// second version has modes.
#[derive(Clone, Copy, PartialEq, Eq, Debug)]
pub enum Mode {
    Missing,
    Shared,
    Exclusive,
}

/// A line of an operation, each with the place of its first word.
#[derive(Drop)]
pub enum Line {
    Requires(u32, Prefixed),
    Insert(u32, Mark, Items<Spot>, Option<Formula>),
    Remove(u32, Mark, Items<Spot>, Option<Formula>),
    Add(u32, Mark, Items<Spot>, Term, Option<Formula>),
    Set(u32, Mark, Items<Spot>, Term, Option<Formula>),
    Takes(u32, Reading, Mode),
    /// Only the second version has this line.
    Observes(u32, Prefixed),
}

/// An item of a specification, each with the place of its first word.
#[derive(Drop)]
pub enum Item {
    Sort(u32, Mark),
    Const(u32, Mark, Mark),
    Relation(u32, Mark, Items<Mark>),
    Counter(u32, Mark, Items<Mark>),
    Initially(u32, Mark, Value),
    Token(u32, Mark, Items<Mark>),
    Conflict(u32, Reading, Reading),
    Invariant(u32, Mark, Prefixed),
    Operation(u32, Mark, Items<Param>, Items<Line>),
}

/// A specification as it is written.
#[derive(Drop)]
pub struct Tree {
    pub version: Version,
    pub items: Items<Item>,
}
