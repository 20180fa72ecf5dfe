// Formulas under a prefix: the lines that an invariant, a precondition or an observation is.

use crate::formula::Formula;
use items::Items;
use std::marker::Model;

/// How the variables of a line are bound.
#[derive(Clone, Copy)]
pub enum Prefix {
    Plain,
    Forall,
    Exists,
}

/// A formula under a prefix; `vars` has the sort of each variable. Contracts see it as a `Line`.
#[derive(Drop)]
pub struct Prefixed {
    pub prefix: Prefix,
    pub vars: Items<u8>,
    pub body: Formula,
}

impl Model for Prefixed {
    ghost use Rattle.std.specs.Coded.{codes};
    ghost use Rattle.spec_core.specs.{Code.{coded_form}, Form.{form_of}, Line.{Line}};

    ghost Value = { Line };

    ghost coded = { Prim.hlevel (codes, coded_form) };

    ghost view = { λ a. record { prefix = a.prefix; vars = a.vars; body = form_of a.body } };
}
