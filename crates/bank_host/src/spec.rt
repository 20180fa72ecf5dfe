// The specification of the bank, made as a record.

ghost use Rattle.std.specs.Prelude.{◌≡◌, ℤ, pos, negsuc, [], ◌∷◌, IfOk, codes};
ghost use Rattle.spec_core.specs.declared.formula.Elem.{Elem as Element};
ghost use Rattle.spec_core.specs.Form.{form_of, compare_form};
ghost use Rattle.spec_core.specs.declared.formula.Cmp.TheVariants.{AtLeast};
ghost use Rattle.bank_host.specs.Bank.{the_counter, the_token, pattern as pattern_of, the_rule};
ghost use Rattle.bank_host.specs.Bank.{nothing as nothing_of, amount_times as amount_times_of};
ghost use Rattle.bank_host.specs.Bank.{balance_of as balance_of_element, plain as plain_of};
ghost use Rattle.bank_host.specs.Bank.{solvent as solvent_of, no_debt as no_debt_line};
ghost use Rattle.bank_host.specs.Bank.{covered as covered_line, params as params_of};
ghost use Rattle.bank_host.specs.Bank.{add_to_balance as add_to_balance_of};
ghost use Rattle.bank_host.specs.Bank.{takes_purse as takes_purse_of, deposit as deposit_of};
ghost use Rattle.bank_host.specs.Bank.{withdraw as withdraw_of, bank};

use items::Items;
use spec_core::{
    Body, Change, Cmp, Counter, Elem, Formula, Invariant, Kind, Name, Operation, Param, Pattern,
    Prefix, Prefixed, Rule, Spec, Spot, Summand, Take, Term, Thing, Token, Update,
};
use std::alloc::{AllocError, Global};

/// A list of one member.
fn one<T: Drop>(alloc: Global, member: T) -> Result<Items<T>, AllocError>
    ensures { IfOk result (λ list. list ≡ member ∷ []) }
{
    let mut list = Items::new(alloc);
    list.push(member)?;
    Ok(list)
}

/// A list of two members.
fn two<T: Drop>(alloc: Global, first: T, second: T) -> Result<Items<T>, AllocError>
    ensures { IfOk result (λ list. list ≡ first ∷ second ∷ []) }
{
    let mut list = Items::new(alloc);
    list.push(first)?;
    list.push(second)?;
    Ok(list)
}

// ---- declarations

/// `counter balance ( Account )`.
fn counter(alloc: Global) -> Result<Counter, AllocError>
    ensures { IfOk result (λ counter. counter ≡ the_counter) }
{
    let name = Name::new(alloc, b"balance")?;
    let keys = one(alloc, 0)?;
    Ok(Counter {
        name,
        keys,
        initial: 0,
    })
}

/// `token purse ( Account )`.
fn token(alloc: Global) -> Result<Token, AllocError>
    ensures { IfOk result (λ token. token ≡ the_token) }
{
    let name = Name::new(alloc, b"purse")?;
    let places = one(alloc, 0)?;
    Ok(Token { name, places })
}

/// `purse ( x )`, in a rule.
fn pattern(alloc: Global) -> Result<Pattern, AllocError>
    ensures { IfOk result (λ pattern. pattern ≡ pattern_of) }
{
    let vars = one(alloc, 0)?;
    Ok(Pattern { token: 0, vars })
}

/// `conflict purse ( x ) purse ( x )`.
fn rule(alloc: Global) -> Result<Rule, AllocError>
    ensures { IfOk result (λ rule. rule ≡ the_rule) }
{
    let left = pattern(alloc)?;
    let right = pattern(alloc)?;
    Ok(Rule { left, right })
}

// ---- terms and lines

/// `0`.
fn nothing(alloc: Global) -> Result<Term, AllocError>
    ensures { IfOk result (λ term. term ≡ nothing_of) }
{
    let summands = one(
        alloc,
        Summand {
            coef: 0,
            body: Body::One,
        },
    )?;
    Ok(Term { summands })
}

/// The amount, with this coefficient.
fn amount_times(alloc: Global, coef: i64) -> Result<Term, AllocError>
    ensures { IfOk result (λ term. term ≡ amount_times_of coef) }
{
    let summands = one(
        alloc,
        Summand {
            coef,
            body: Body::Param(1),
        },
    )?;
    Ok(Term { summands })
}

/// `balance ( .. )`.
fn balance_of(alloc: Global, account: Elem) -> Result<Term, AllocError>
    ensures { IfOk result (λ term. term ≡ balance_of_element account) }
{
    let keys = one(alloc, account)?;
    let summands = one(
        alloc,
        Summand {
            coef: 1,
            body: Body::Count(0, keys),
        },
    )?;
    Ok(Term { summands })
}

/// `invariant solvent`.
fn solvent(alloc: Global) -> Result<Invariant, AllocError>
    ensures { IfOk result (λ invariant. invariant ≡ solvent_of) }
{
    let name = Name::new(alloc, b"solvent")?;
    let vars = one(alloc, 0)?;
    let balance = balance_of(alloc, Elem::Var(0))?;
    let nothing = nothing(alloc)?;
    let line = Prefixed {
        prefix: Prefix::Forall,
        vars,
        body: Formula::Compare(balance, Cmp::AtLeast, nothing),
    };
    Ok(Invariant { name, line })
}

/// A line without variables that compares two terms.
fn at_least(alloc: Global, left: Term, right: Term) -> Prefixed
    ensures { result ≡ plain_of (compare_form left AtLeast right) }
{
    Prefixed {
        prefix: Prefix::Plain,
        vars: Items::new(alloc),
        body: Formula::Compare(left, Cmp::AtLeast, right),
    }
}

/// `requires ( n >= 0 )`.
fn no_debt(alloc: Global) -> Result<Prefixed, AllocError>
    ensures { IfOk result (λ line. line ≡ no_debt_line) }
{
    let amount = amount_times(alloc, 1)?;
    let nothing = nothing(alloc)?;
    Ok(at_least(alloc, amount, nothing))
}

/// `requires ( balance ( a ) >= n )`.
fn covered(alloc: Global) -> Result<Prefixed, AllocError>
    ensures { IfOk result (λ line. line ≡ covered_line) }
{
    let balance = balance_of(alloc, Elem::Param(0))?;
    let amount = amount_times(alloc, 1)?;
    Ok(at_least(alloc, balance, amount))
}

// ---- operations

/// `( a : Account , n : int )`.
fn params(alloc: Global) -> Result<Items<Param>, AllocError>
    ensures { IfOk result (λ params. params ≡ params_of) }
{
    let account = Param {
        name: Name::new(alloc, b"a")?,
        kind: Kind::Sort(0),
    };
    let amount = Param {
        name: Name::new(alloc, b"n")?,
        kind: Kind::Int,
    };
    two(alloc, account, amount)
}

/// `add balance ( a )` with the amount, with this coefficient.
fn add_to_balance(alloc: Global, coef: i64) -> Result<Update, AllocError>
    ensures { IfOk result (λ update. update ≡ add_to_balance_of coef) }
{
    let at = one(alloc, Spot::One(Elem::Param(0)))?;
    let amount = amount_times(alloc, coef)?;
    Ok(Update {
        thing: Thing::Counter(0),
        at,
        change: Change::Add(amount),
        guard: Formula::True,
    })
}

/// `takes purse ( a )`.
fn takes_purse(alloc: Global) -> Result<Take, AllocError>
    ensures { IfOk result (λ take. take ≡ takes_purse_of) }
{
    let args = one(alloc, Elem::Param(0))?;
    Ok(Take {
        token: 0,
        args,
        shared: false,
    })
}

/// `operation deposit`.
fn deposit(alloc: Global) -> Result<Operation, AllocError>
    ensures { IfOk result (λ operation. operation ≡ deposit_of) }
{
    let name = Name::new(alloc, b"deposit")?;
    let params = params(alloc)?;
    let requires_ = one(alloc, no_debt(alloc)?)?;
    let updates = one(alloc, add_to_balance(alloc, 1)?)?;
    Ok(Operation {
        name,
        params,
        requires_,
        updates,
        takes: Items::new(alloc),
        observes: Items::new(alloc),
    })
}

/// `operation withdraw`.
fn withdraw(alloc: Global) -> Result<Operation, AllocError>
    ensures { IfOk result (λ operation. operation ≡ withdraw_of) }
{
    let name = Name::new(alloc, b"withdraw")?;
    let params = params(alloc)?;
    let requires_ = two(alloc, no_debt(alloc)?, covered(alloc)?)?;
    let updates = one(alloc, add_to_balance(alloc, -1)?)?;
    let takes = one(alloc, takes_purse(alloc)?)?;
    Ok(Operation {
        name,
        params,
        requires_,
        updates,
        takes,
        observes: Items::new(alloc),
    })
}

// ---- the whole

fn sorts(alloc: Global) -> Result<Items<Name>, AllocError>
    ensures { IfOk result (λ sorts. sorts ≡ codes "Account" ∷ []) }
{
    one(alloc, Name::new(alloc, b"Account")?)
}

fn counters(alloc: Global) -> Result<Items<Counter>, AllocError>
    ensures { IfOk result (λ counters. counters ≡ the_counter ∷ []) }
{
    one(alloc, counter(alloc)?)
}

fn tokens(alloc: Global) -> Result<Items<Token>, AllocError>
    ensures { IfOk result (λ tokens. tokens ≡ the_token ∷ []) }
{
    one(alloc, token(alloc)?)
}

fn rules(alloc: Global) -> Result<Items<Rule>, AllocError>
    ensures { IfOk result (λ rules. rules ≡ the_rule ∷ []) }
{
    one(alloc, rule(alloc)?)
}

fn invariants(alloc: Global) -> Result<Items<Invariant>, AllocError>
    ensures { IfOk result (λ invariants. invariants ≡ solvent_of ∷ []) }
{
    one(alloc, solvent(alloc)?)
}

fn operations(alloc: Global) -> Result<Items<Operation>, AllocError>
    ensures { IfOk result (λ operations. operations ≡ deposit_of ∷ withdraw_of ∷ []) }
{
    let deposit = deposit(alloc)?;
    let withdraw = or_drop!(withdraw(alloc); deposit);
    two(alloc, deposit, withdraw)
}

/// The specification of the bank.
pub fn bank_spec(alloc: Global) -> Result<Spec, AllocError>
    ensures { IfOk result (λ spec. spec ≡ bank) }
{
    let sorts = sorts(alloc)?;
    let counters = or_drop!(counters(alloc); sorts);
    let tokens = or_drop!(tokens(alloc); sorts, counters);
    let rules = or_drop!(rules(alloc); sorts, counters, tokens);
    let invariants = or_drop!(invariants(alloc); sorts, counters, tokens, rules);
    let operations = or_drop!(operations(alloc); sorts, counters, tokens, rules, invariants);
    let spec = Spec {
        version: 1,
        sorts,
        consts: Items::new(alloc),
        relations: Items::new(alloc),
        counters,
        tokens,
        rules,
        invariants,
        operations,
    };
    Ok(spec)
}
