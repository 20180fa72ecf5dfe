// Operations: what a call may ask for, when, and what it does.

use crate::formula::Elem;
use crate::line::Prefixed;
use crate::name::Name;
use crate::update::Update;
use items::Items;

/// What an argument is: an element of a sort, or a whole number.
#[derive(Clone, Copy)]
pub enum Kind {
    Sort(u8),
    Int,
}

/// A parameter of an operation: an element of a sort, or a whole number.
#[derive(Drop)]
pub struct Param {
    pub name: Name,
    pub kind: Kind,
}

/// A token that a call takes. Two shared takings never conflict; in language version 1 none is shared.
#[derive(Drop)]
pub struct Take {
    pub token: u8,
    pub args: Items<Elem>,
    pub shared: bool,
}

/// An operation. `requires_` is its precondition; `observes`, empty in language version 1, is asked at the origin alone.
#[derive(Drop)]
pub struct Operation {
    pub name: Name,
    pub params: Items<Param>,
    pub requires_: Items<Prefixed>,
    pub updates: Items<Update>,
    pub takes: Items<Take>,
    pub observes: Items<Prefixed>,
}
