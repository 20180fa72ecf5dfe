// The sort, the relations, the token, the conflict rule and the invariants of a generated specification.

ghost use Rattle.std.specs.Prelude.{◌≡◌, ◌≤◌, ◌+◌, [], ◌∷◌, IfOk, map, codes};
ghost use Rattle.spec_core.specs.{Form.{form_of, implies_form}, World.{below}};
ghost use Rattle.sample_specs.specs.Sample.{relation_at as relation_of, the_token};
ghost use Rattle.sample_specs.specs.Sample.{pattern as pattern_of, the_rule, needs as needs_of};
ghost use Rattle.sample_specs.specs.Sample.{from_one};

use crate::parts::{numbered, one, relation_holds};
use items::Items;
use spec_core::{Elem, Formula, Invariant, Name, Pattern, Prefix, Prefixed, Relation, Rule, Token};
use std::alloc::{AllocError, Global};

/// `sort Item`.
pub fn sorts(alloc: Global) -> Result<Items<Name>, AllocError>
    ensures { IfOk result (λ sorts. sorts ≡ codes "Item" ∷ []) }
{
    one(alloc, Name::new(alloc, b"Item")?)
}

// ---- relations

/// `relation r(i) ( Item )`.
fn relation_at(alloc: Global, i: u8) -> Result<Relation, AllocError>
    ensures { IfOk result (λ relation. relation ≡ relation_of i) }
{
    let name = numbered(alloc, b"r", i)?;
    let places = or_drop!(one(alloc, 0); name);
    Ok(Relation {
        name,
        places,
        initial: false,
    })
}

/// The relations `r0` to `r(n-1)`.
pub fn relations(alloc: Global, n: u8) -> Result<Items<Relation>, AllocError>
    ensures { IfOk result (λ relations. relations ≡ map relation_of (below n)) }
{
    let mut list = Items::new(alloc);
    for i in 0..n {
        list.push(relation_at(alloc, i)?)?;
    }
    Ok(list)
}

// ---- the token and its rule

/// `token t ( Item )`.
pub fn tokens(alloc: Global) -> Result<Items<Token>, AllocError>
    ensures { IfOk result (λ tokens. tokens ≡ the_token ∷ []) }
{
    let name = Name::new(alloc, b"t")?;
    let places = or_drop!(one(alloc, 0); name);
    one(alloc, Token { name, places })
}

/// `t ( x )`, in a rule.
fn pattern(alloc: Global) -> Result<Pattern, AllocError>
    ensures { IfOk result (λ pattern. pattern ≡ pattern_of) }
{
    let vars = one(alloc, 0)?;
    Ok(Pattern { token: 0, vars })
}

/// `conflict t ( x ) t ( x )`.
pub fn rules(alloc: Global) -> Result<Items<Rule>, AllocError>
    ensures { IfOk result (λ rules. rules ≡ the_rule ∷ []) }
{
    let left = pattern(alloc)?;
    let right = or_drop!(pattern(alloc); left);
    one(alloc, Rule { left, right })
}

// ---- invariants

fn implies(alloc: Global, left: Formula, right: Formula) -> Result<Formula, AllocError>
    ensures { IfOk result (λ made. form_of made ≡ implies_form (form_of left) (form_of right)) }
{
    let left = Box::new(alloc, left)?;
    let right = Box::new(alloc, right)?;
    Ok(Formula::Implies(left, right))
}

/// `forall x : Item . ( r(i+1) ( x ) implies r(i) ( x ) )`.
fn needs_line(alloc: Global, i: u8) -> Result<Prefixed, AllocError>
    requires small { i ≤ 12 }
    ensures { IfOk result (λ line. line ≡ (needs_of (i + 1)).line) }
{
    let later = relation_holds(alloc, i + 1, Elem::Var(0))?;
    let earlier = or_drop!(relation_holds(alloc, i, Elem::Var(0)); later);
    let body = implies(alloc, later, earlier)?;
    let vars = or_drop!(one(alloc, 0); body);
    Ok(Prefixed {
        prefix: Prefix::Forall,
        vars,
        body,
    })
}

/// `invariant needs(i+1)`.
fn needs(alloc: Global, i: u8) -> Result<Invariant, AllocError>
    requires small { i ≤ 12 }
    ensures { IfOk result (λ invariant. invariant ≡ needs_of (i + 1)) }
{
    let name = numbered(alloc, b"needs", i + 1)?;
    let line = or_drop!(needs_line(alloc, i); name);
    Ok(Invariant { name, line })
}

/// The invariants `needs1` to `needs(n-1)`.
pub fn invariants(alloc: Global, n: u8) -> Result<Items<Invariant>, AllocError>
    requires some { 1 ≤ n }
    requires few { n ≤ 12 }
    ensures { IfOk result (λ invariants. invariants ≡ map needs_of (from_one n)) }
{
    let mut list = Items::new(alloc);
    for i in 0..n - 1 {
        list.push(needs(alloc, i)?)?;
    }
    Ok(list)
}
