// What is declared so far: the parts of a specification in the making.

ghost use Rattle.std.specs.Prelude.{◌≡◌, true};
ghost use Rattle.spec_core.specs.Typed.{is_specification};

use items::Items;
use spec_core::{Const, Counter, Invariant, Name, Operation, Relation, Rule, Spec, Token};
use std::marker::Model;

/// The parts of a specification, which may be ill formed. Contracts see them as a `Specification`.
#[derive(Drop)]
pub struct Draft {
    pub version: u8,
    pub sorts: Items<Name>,
    pub consts: Items<Const>,
    pub relations: Items<Relation>,
    pub counters: Items<Counter>,
    pub tokens: Items<Token>,
    pub rules: Items<Rule>,
    pub invariants: Items<Invariant>,
    pub operations: Items<Operation>,
}

impl Model for Draft {
    ghost use Rattle.std.specs.Coded.{codes};
    ghost use Rattle.spec_core.specs.{Code.{coded_form}, Specification.{Specification}};

    ghost Value = { Specification };

    ghost coded = { Prim.hlevel (codes, coded_form) };

    ghost view = { λ a. record {
      version = a.version;
      sorts = a.sorts;
      consts = a.consts;
      relations = a.relations;
      counters = a.counters;
      tokens = a.tokens;
      rules = a.rules;
      invariants = a.invariants;
      operations = a.operations;
    } };
}

impl Draft {
    /// The specification of these parts, where they are well formed.
    pub fn into_spec(self) -> Spec
        requires { is_specification self ≡ true }
        ensures { result ≡ self }
    {
        Spec {
            version: self.version,
            sorts: self.sorts,
            consts: self.consts,
            relations: self.relations,
            counters: self.counters,
            tokens: self.tokens,
            rules: self.rules,
            invariants: self.invariants,
            operations: self.operations,
        }
    }
}
