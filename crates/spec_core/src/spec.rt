// Specifications, and what their parts refer to.

ghost use Rattle.std.specs.Prelude.{◌≡◌, true};
ghost use Rattle.spec_core.specs.Specification.{relation_places, counter_keys, token_places};
ghost use Rattle.spec_core.specs.{Specification.{places_of, op_of}, Typed.{is_specification}};

use crate::line::Prefixed;
use crate::name::Name;
use crate::operation::{Operation, Take};
use crate::update::{Thing, Update};
use items::Items;
use std::marker::Model;

/// A name for one element of a sort. Two constants may name the same element.
#[derive(Drop)]
pub struct Const {
    pub name: Name,
    pub sort: u8,
}

/// A relation, with the sort of each place. It begins alike at all tuples.
#[derive(Drop)]
pub struct Relation {
    pub name: Name,
    pub places: Items<u8>,
    pub initial: bool,
}

/// A counter, with the sort of each key. It begins alike at all keys.
#[derive(Drop)]
pub struct Counter {
    pub name: Name,
    pub keys: Items<u8>,
    pub initial: i64,
}

/// A token, with the sort of each place.
#[derive(Drop)]
pub struct Token {
    pub name: Name,
    pub places: Items<u8>,
}

/// A token with a rule variable at each place.
#[derive(Drop)]
pub struct Pattern {
    pub token: u8,
    pub vars: Items<u8>,
}

/// Two patterns whose tokens conflict, where one choice of elements for the rule variables gives both.
#[derive(Drop)]
pub struct Rule {
    pub left: Pattern,
    pub right: Pattern,
}

/// A line that is to be true in every state.
#[derive(Drop)]
pub struct Invariant {
    pub name: Name,
    pub line: Prefixed,
}

/// A whole specification, within the limits of the language. Contracts see it as a `Specification` that is well formed.
#[derive(Drop)]
pub struct Spec {
    pub version: u8,
    pub sorts: Items<Name>,
    pub consts: Items<Const>,
    pub relations: Items<Relation>,
    pub counters: Items<Counter>,
    pub tokens: Items<Token>,
    pub rules: Items<Rule>,
    pub invariants: Items<Invariant>,
    pub operations: Items<Operation>,
}

impl Model for Spec {
    ghost use Rattle.std.specs.{Prelude.{◌≡◌, true}, Coded.{codes}};
    ghost use Rattle.spec_core.specs.{Code.{coded_form}, Specification.{Specification}};
    ghost use Rattle.spec_core.specs.Typed.{is_specification};

    ghost Value = { Specification };

    ghost coded = { Prim.hlevel (codes, coded_form) };

    ghost view = { λ a. record {
      version = a.version;
      sorts = a.sorts;
      consts = a.consts;
      relations = a.relations;
      counters = a.counters;
      tokens = a.tokens;
      rules = a.rules;
      invariants = a.invariants;
      operations = a.operations;
    } };

    ghost invariant = { λ a. is_specification (record {
      version = a.version;
      sorts = a.sorts;
      consts = a.consts;
      relations = a.relations;
      counters = a.counters;
      tokens = a.tokens;
      rules = a.rules;
      invariants = a.invariants;
      operations = a.operations;
    }) ≡ true };
}

impl Spec {
    /// A fact for proofs: a specification that a program holds is well formed.
    pub fn well_formed(&self)
        ensures { is_specification self.now ≡ true }
    {
        let _version = self.version;
    }

    /// The requires lines of an operation; none where there is no such operation.
    pub fn requires_of(&self, op: u8) -> &[Prefixed]
        ensures { result.now ≡ (op_of self.now op).requires_ }
    {
        match self.operations.as_slice().get(op as usize) {
            Some(operation) => operation.requires_.as_slice(),
            None => &[],
        }
    }

    /// The observes lines of an operation; none where there is no such operation.
    pub fn observes_of(&self, op: u8) -> &[Prefixed]
        ensures { result.now ≡ (op_of self.now op).observes }
    {
        match self.operations.as_slice().get(op as usize) {
            Some(operation) => operation.observes.as_slice(),
            None => &[],
        }
    }

    /// The updates of an operation; none where there is no such operation.
    pub fn updates_of(&self, op: u8) -> &[Update]
        ensures { result.now ≡ (op_of self.now op).updates }
    {
        match self.operations.as_slice().get(op as usize) {
            Some(operation) => operation.updates.as_slice(),
            None => &[],
        }
    }

    /// The takes lines of an operation; none where there is no such operation.
    pub fn takes_of(&self, op: u8) -> &[Take]
        ensures { result.now ≡ (op_of self.now op).takes }
    {
        match self.operations.as_slice().get(op as usize) {
            Some(operation) => operation.takes.as_slice(),
            None => &[],
        }
    }

    /// The sorts of the places of a relation; none where there is no such relation.
    pub fn relation_places(&self, relation: u8) -> &[u8]
        ensures { result.now ≡ relation_places self.now relation }
    {
        match self.relations.as_slice().get(relation as usize) {
            Some(found) => found.places.as_slice(),
            None => &[],
        }
    }

    /// The sorts of the keys of a counter; none where there is no such counter.
    pub fn counter_keys(&self, counter: u8) -> &[u8]
        ensures { result.now ≡ counter_keys self.now counter }
    {
        match self.counters.as_slice().get(counter as usize) {
            Some(found) => found.keys.as_slice(),
            None => &[],
        }
    }

    /// The sorts of the places of a token; none where there is no such token.
    pub fn token_places(&self, token: u8) -> &[u8]
        ensures { result.now ≡ token_places self.now token }
    {
        match self.tokens.as_slice().get(token as usize) {
            Some(found) => found.places.as_slice(),
            None => &[],
        }
    }

    /// The sorts of the places of a relation or of the keys of a counter; none where there is no such thing.
    pub fn places_of(&self, thing: Thing) -> &[u8]
        ensures { result.now ≡ places_of self.now thing }
    {
        match thing {
            Thing::Relation(relation) => self.relation_places(relation),
            Thing::Counter(counter) => self.counter_keys(counter),
        }
    }
}
