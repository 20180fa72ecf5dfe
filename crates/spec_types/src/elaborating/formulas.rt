// The elements, terms and formulas of a specification, which trees without a fault are.

ghost use Rattle.std.specs.Prelude.{◌≡◌, ◌++◌, IfOk, OnOk, map};
ghost use Rattle.spec_core.specs.Form.{form_of as core_form_of, compare_form as core_compare_form};
ghost use Rattle.spec_trees.specs.Form.{form_of, compare_form, sentence_of, guard_of};
ghost use Rattle.typing_rules.specs.Scope.{var_sorts as var_sorts_of};
ghost use Rattle.typing_rules.specs.Terms.{elems_of as elems_of_marks};
ghost use Rattle.typing_rules.specs.Terms.{literal_of as literal_of_figure};
ghost use Rattle.typing_rules.specs.Terms.{unit_of as unit_of_sign, coef_of as coef_of_product};
ghost use Rattle.typing_rules.specs.Terms.{count_of as count_of_reading};
ghost use Rattle.typing_rules.specs.Terms.{amount_of as amount_of_reading};
ghost use Rattle.typing_rules.specs.Terms.{body_of as body_of_product};
ghost use Rattle.typing_rules.specs.Terms.{summand_of as summand_of_product};
ghost use Rattle.typing_rules.specs.Terms.{is_minus as is_minus_sign, signed_of as signed_of_tree};
ghost use Rattle.typing_rules.specs.Terms.{term_of as term_of_tree};
ghost use Rattle.typing_rules.specs.Formulas.{cmp_of as cmp_of_comparison};
ghost use Rattle.typing_rules.specs.Formulas.{elements_of as elements_of_sides};
ghost use Rattle.typing_rules.specs.Formulas.{is_unequal as is_unequal_of, connected_of};
ghost use Rattle.typing_rules.specs.Formulas.{atom_of as atom_of_reading};
ghost use Rattle.typing_rules.specs.Formulas.{formula_of as formula_of_form};
ghost use Rattle.typing_rules.specs.Formulas.{quantified as quantified_of};
ghost use Rattle.typing_rules.specs.Formulas.{prefix_of as prefix_of_tree};
ghost use Rattle.typing_rules.specs.Formulas.{sentence_of as line_of_sentence};
ghost use Rattle.typing_rules.specs.Lines.{guard_formula};
ghost use Rattle.spec_types.specs.{faults.Names.{meaning_in}, faults.Views.{scope_of}};

use crate::faults::{
    Names, Scope, elem_of, number_named, side_element, sort_number, vars_of, with_vars,
};
use items::{Items, or_drop};
use spec_core::{Body, Cmp, Elem, Prefix, Prefixed, Summand, Term};
use spec_trees as tree;
use spec_trees::{
    Comparison, Connective, Figure, Mark, Product, Quantifier, Reading, Sign, Signed, Variable,
};
use std::alloc::{AllocError, Global};

/// The elements that names stand for.
pub fn elems_of(
    alloc: Global,
    scope: &Scope<'_, '_>,
    marks: &[Mark],
) -> Result<Items<Elem>, AllocError>
    ensures { IfOk result (λ elems. elems ≡ elems_of_marks (scope_of scope.now) marks.now) }
{
    let mut elems = Items::new(alloc);
    for mark in marks {
        elems.push(elem_of(scope, mark))?;
    }
    Ok(elems)
}

// ---- terms

/// A number with its sign; what is too large stands for 0, and is refused.
pub fn literal_of(minus: bool, figure: &Figure) -> i64
    ensures { result ≡ literal_of_figure minus figure.now }
{
    if figure.value <= 1_000_000_000 {
        let value = figure.value as i64;
        if minus { 0 - value } else { value }
    } else {
        0
    }
}

fn unit_of(minus: bool) -> i64
    ensures { result ≡ unit_of_sign minus }
{
    if minus { -1 } else { 1 }
}

fn coef_of(minus: bool, product: &Product) -> i64
    ensures { result ≡ coef_of_product minus product.now }
{
    match product {
        Product::Number(figure) => literal_of(minus, figure),
        Product::Times(figure, _) => literal_of(minus, figure),
        Product::Reading(_) => unit_of(minus),
    }
}

fn count_of(alloc: Global, scope: &Scope<'_, '_>, reading: &Reading) -> Result<Body, AllocError>
    ensures { IfOk result (λ body. body ≡ count_of_reading (scope_of scope.now) reading.now) }
{
    let elems = elems_of(alloc, scope, reading.args.as_slice())?;
    let counter = scope.names.counter(reading.name.text.bytes());
    Ok(Body::Count(counter.unwrap_or(0), elems))
}

fn amount_of(alloc: Global, scope: &Scope<'_, '_>, reading: &Reading) -> Result<Body, AllocError>
    ensures { IfOk result (λ body. body ≡ amount_of_reading (scope_of scope.now) reading.now) }
{
    match reading.args.as_slice() {
        [] => match number_named(scope, reading.name.text.bytes()) {
            Some(place) => Ok(Body::Param(place)),
            None => count_of(alloc, scope, reading),
        },
        [_, ..] => count_of(alloc, scope, reading),
    }
}

fn body_of(alloc: Global, scope: &Scope<'_, '_>, product: &Product) -> Result<Body, AllocError>
    ensures { IfOk result (λ body. body ≡ body_of_product (scope_of scope.now) product.now) }
{
    match product {
        Product::Number(_) => Ok(Body::One),
        Product::Times(_, reading) => amount_of(alloc, scope, reading),
        Product::Reading(reading) => amount_of(alloc, scope, reading),
    }
}

fn summand_of(
    alloc: Global,
    scope: &Scope<'_, '_>,
    minus: bool,
    product: &Product,
) -> Result<Summand, AllocError>
    ensures { IfOk result (λ summand. summand
        ≡ summand_of_product (scope_of scope.now) minus product.now) }
{
    let body = body_of(alloc, scope, product)?;
    Ok(Summand {
        coef: coef_of(minus, product),
        body,
    })
}

fn is_minus(sign: Sign) -> bool
    ensures { result ≡ is_minus_sign sign }
{
    match sign {
        Sign::Plus => false,
        Sign::Minus => true,
    }
}

/// Appends the summands behind the first.
fn add_signeds(
    alloc: Global,
    scope: &Scope<'_, '_>,
    more: &[Signed],
    summands: &mut Items<Summand>,
) -> Result<(), AllocError>
    ensures { OnOk result (summands.new ≡ summands.old
        ++ map (signed_of_tree (scope_of scope.now)) more.now) }
{
    for signed in more {
        let minus = is_minus(signed.sign);
        let summand = summand_of(alloc, scope, minus, &signed.summand.product)?;
        summands.push(summand)?;
    }
    Ok(())
}

/// The term that a term of a tree is.
pub fn term_of(alloc: Global, scope: &Scope<'_, '_>, term: &tree::Term) -> Result<Term, AllocError>
    ensures { IfOk result (λ made. made ≡ term_of_tree (scope_of scope.now) term.now) }
{
    let first = summand_of(alloc, scope, term.minus, &term.first.product)?;
    let mut summands = Items::new(alloc);
    or_drop!(summands.push(first); summands);
    or_drop!(add_signeds(alloc, scope, term.more.as_slice(), &mut summands); summands);
    Ok(Term { summands })
}

// ---- formulas

fn cmp_of(comparison: Comparison) -> Cmp
    ensures { result ≡ cmp_of_comparison comparison }
{
    match comparison {
        Comparison::Equal => Cmp::Equal,
        Comparison::Unequal => Cmp::Unequal,
        Comparison::Less => Cmp::Less,
        Comparison::AtMost => Cmp::AtMost,
        Comparison::Greater => Cmp::Greater,
        Comparison::AtLeast => Cmp::AtLeast,
    }
}

fn is_unequal(comparison: Comparison) -> bool
    ensures { result ≡ is_unequal_of comparison }
{
    match comparison {
        Comparison::Equal => false,
        Comparison::Unequal => true,
        Comparison::Less => false,
        Comparison::AtMost => false,
        Comparison::Greater => false,
        Comparison::AtLeast => false,
    }
}

fn elements_of(comparison: Comparison, left: Elem, right: Elem) -> spec_core::Formula
    ensures { core_form_of result ≡ elements_of_sides comparison left right }
{
    if is_unequal(comparison) {
        spec_core::Formula::Differ(left, right)
    } else {
        spec_core::Formula::Same(left, right)
    }
}

fn terms_of(
    alloc: Global,
    scope: &Scope<'_, '_>,
    left: &tree::Term,
    comparison: Comparison,
    right: &tree::Term,
) -> Result<spec_core::Formula, AllocError>
    ensures { IfOk result
        (λ made. core_form_of made
        ≡ core_compare_form (term_of_tree (scope_of scope.now) left.now)
        (cmp_of_comparison comparison) (term_of_tree (scope_of scope.now) right.now)) }
{
    let left = term_of(alloc, scope, left)?;
    let right = or_drop!(term_of(alloc, scope, right); left);
    Ok(spec_core::Formula::Compare(left, cmp_of(comparison), right))
}

fn compare_of(
    alloc: Global,
    scope: &Scope<'_, '_>,
    left: &tree::Term,
    comparison: Comparison,
    right: &tree::Term,
) -> Result<spec_core::Formula, AllocError>
    ensures { IfOk result
        (λ made. core_form_of made
        ≡ formula_of_form (scope_of scope.now) (compare_form 0 left.now comparison right.now)) }
{
    match side_element(scope, comparison, left) {
        Some(one) => match side_element(scope, comparison, right) {
            Some(other) => {
                let (one, other) = (elem_of(scope, one), elem_of(scope, other));
                Ok(elements_of(comparison, one, other))
            }
            None => terms_of(alloc, scope, left, comparison, right),
        },
        None => terms_of(alloc, scope, left, comparison, right),
    }
}

fn atom_of(
    alloc: Global,
    scope: &Scope<'_, '_>,
    reading: &Reading,
) -> Result<spec_core::Formula, AllocError>
    ensures { IfOk result (λ made. core_form_of made
        ≡ atom_of_reading (scope_of scope.now) reading.now) }
{
    let elems = elems_of(alloc, scope, reading.args.as_slice())?;
    let relation = scope.names.relation(reading.name.text.bytes());
    Ok(spec_core::Formula::Has(relation.unwrap_or(0), elems))
}

fn connected(
    alloc: Global,
    left: spec_core::Formula,
    connective: Connective,
    right: spec_core::Formula,
) -> Result<spec_core::Formula, AllocError>
    ensures { IfOk result (λ made. core_form_of made
        ≡ connected_of connective (core_form_of left) (core_form_of right)) }
{
    let left = Box::new(alloc, left)?;
    let right = Box::new(alloc, right)?;
    Ok(match connective {
        Connective::And => spec_core::Formula::And(left, right),
        Connective::Or => spec_core::Formula::Or(left, right),
        Connective::Implies => spec_core::Formula::Implies(left, right),
    })
}

/// The formula that a formula of a tree is.
pub fn formula_of(
    alloc: Global,
    scope: &Scope<'_, '_>,
    formula: &tree::Formula,
) -> Result<spec_core::Formula, AllocError>
    ensures { IfOk result (λ made. core_form_of made
        ≡ formula_of_form (scope_of scope.now) (form_of formula.now)) }
{
    match formula {
        tree::Formula::True(_) => Ok(spec_core::Formula::True),
        tree::Formula::False(_) => Ok(spec_core::Formula::False),
        tree::Formula::Not(_, inner) => {
            let inner = formula_of(alloc, scope, inner)?;
            Ok(spec_core::Formula::Not(Box::new(alloc, inner)?))
        }
        tree::Formula::Connect(_, left, connective, right) => {
            let left = formula_of(alloc, scope, left)?;
            let right = or_drop!(formula_of(alloc, scope, right); left);
            connected(alloc, left, *connective, right)
        }
        tree::Formula::Has(_, reading) => atom_of(alloc, scope, reading),
        tree::Formula::Compare(_, left, comparison, right) => {
            compare_of(alloc, scope, left, *comparison, right)
        }
    }
}

// ---- formulas with variables

fn var_sorts(alloc: Global, names: &Names, vars: &[Variable]) -> Result<Items<u8>, AllocError>
    ensures { IfOk result (λ sorts. sorts ≡ var_sorts_of (meaning_in names.now) vars.now) }
{
    let mut sorts = Items::new(alloc);
    for var in vars {
        sorts.push(sort_number(names, &var.sort))?;
    }
    Ok(sorts)
}

fn quantified(quantifier: Quantifier) -> Prefix
    ensures { result ≡ quantified_of quantifier }
{
    match quantifier {
        Quantifier::Forall => Prefix::Forall,
        Quantifier::Exists => Prefix::Exists,
    }
}

fn prefix_of(prefix: &Option<tree::Prefix>) -> Prefix
    ensures { result ≡ prefix_of_tree prefix.now }
{
    match prefix {
        Some(found) => quantified(found.quantifier),
        None => Prefix::Plain,
    }
}

/// The line that a formula with its variables is.
pub fn sentence_of(
    alloc: Global,
    scope: &Scope<'_, '_>,
    sentence: &tree::Prefixed,
) -> Result<Prefixed, AllocError>
    ensures { IfOk result (λ line. line ≡ line_of_sentence (scope_of scope.now)
        (sentence_of sentence.now)) }
{
    let bound = vars_of(&sentence.prefix);
    let vars = var_sorts(alloc, scope.names, bound)?;
    let body = or_drop!(formula_of(alloc, &with_vars(scope, bound), &sentence.body); vars);
    Ok(Prefixed {
        prefix: prefix_of(&sentence.prefix),
        vars,
        body,
    })
}

/// The formula of a guard; a missing one is true.
pub fn guard_of(
    alloc: Global,
    scope: &Scope<'_, '_>,
    guard: &Option<tree::Formula>,
) -> Result<spec_core::Formula, AllocError>
    ensures { IfOk result (λ made. core_form_of made
        ≡ guard_formula (scope_of scope.now) (guard_of guard.now)) }
{
    match guard {
        Some(formula) => formula_of(alloc, scope, formula),
        None => Ok(spec_core::Formula::True),
    }
}
