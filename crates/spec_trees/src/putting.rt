// The words of a tree, one after the other.

#![tactic(auto, using(crate::proofs::Written::putting))]

ghost use Rattle.std.specs.Prelude.{◌≡◌, ◌++◌, [], ◌∷◌, OnOk};
ghost use Rattle.parser_combinators.specs.declared.token.Symbol.TheVariants as symbol;
ghost use Rattle.parser_combinators.specs.declared.token.Key.TheVariants as keys;
ghost use Rattle.parser_combinators.specs.Words.{plain, sign as sign_words, listed, group, each};
ghost use Rattle.parser_combinators.specs.Words.{exclusive_text, observes_text};
ghost use Rattle.spec_trees.specs.Form.{form_of, sentence_of, guard_of, line_of, item_of, tree_of};
ghost use Rattle.spec_trees.specs.Spelling.{mark as mark_words, one, reading as reading_words};
ghost use Rattle.spec_trees.specs.Spelling.{product as product_words, summand as summand_words};
ghost use Rattle.spec_trees.specs.Spelling.{signed as signed_words, minus as minus_words};
ghost use Rattle.spec_trees.specs.Spelling.{term as term_words, form as form_words, sign_key};
ghost use Rattle.spec_trees.specs.Spelling.{comparison_key, connective_key, quantifier_key};
ghost use Rattle.spec_trees.specs.Spelling.{variable as variable_words, prefix as prefix_words};
ghost use Rattle.spec_trees.specs.Spelling.{sentence as sentence_words, value as value_words};
ghost use Rattle.spec_trees.specs.Spelling.{param_kind as kind_words, param as param_words};
ghost use Rattle.spec_trees.specs.Spelling.{spot as spot_words, mode as mode_words};
ghost use Rattle.spec_trees.specs.Spelling.{guard as guard_words, line as line_words};
ghost use Rattle.spec_trees.specs.Spelling.{item as item_words, version_number, tree as tree_words};

use crate::tree::{
    Comparison, Connective, Formula, Item, Line, Mark, Mode, Param, ParamKind, Prefix, Prefixed,
    Product, Quantifier, Reading, Sign, Signed, Spot, Summand, Term, Tree, Value, Variable,
};
use items::Items;
use parser_combinators::{Key, Symbol, Version};
use std::alloc::{AllocError, Global};

fn put_key(out: &mut Items<Symbol>, key: Key) -> Result<(), AllocError>
    ensures { OnOk result (out.new ≡ out.old ++ symbol.Key key ∷ []) }
{
    out.push(Symbol::Key(key))
}

fn put_number(out: &mut Items<Symbol>, number: u128) -> Result<(), AllocError>
    ensures { OnOk result (out.new ≡ out.old ++ symbol.Number number ∷ []) }
{
    out.push(Symbol::Number(number))
}

fn put_text(alloc: Global, out: &mut Items<Symbol>, text: &[u8]) -> Result<(), AllocError>
    ensures { OnOk result (out.new ≡ out.old ++ symbol.Name text.now ∷ []) }
{
    let copy = Items::from_slice(alloc, text)?;
    out.push(Symbol::Name(copy))
}

fn put_mark(alloc: Global, out: &mut Items<Symbol>, mark: &Mark) -> Result<(), AllocError>
    ensures { OnOk result (out.new ≡ out.old ++ symbol.Name mark.now.text ∷ []) }
{
    put_text(alloc, out, mark.text.bytes())
}

fn put_names(alloc: Global, out: &mut Items<Symbol>, marks: &[Mark]) -> Result<(), AllocError>
    ensures { OnOk result (out.new ≡ out.old ++ plain (listed one marks.now)) }
{
    match marks {
        [] => Ok(()),
        [first, rest @ ..] => {
            put_mark(alloc, out, first)?;
            put_more_names(alloc, out, rest)
        }
    }
}

fn put_more_names(alloc: Global, out: &mut Items<Symbol>, marks: &[Mark]) -> Result<(), AllocError>
    ensures { OnOk result
        (out.new ≡ out.old ++ plain (each (λ m. sign_words keys.Comma ∷ one m) marks.now)) }
{
    'names: for mark in marks {
        put_key(out, Key::Comma)?;
        put_mark(alloc, out, mark)?;
    }
    Ok(())
}

fn put_args(alloc: Global, out: &mut Items<Symbol>, marks: &[Mark]) -> Result<(), AllocError>
    ensures { OnOk result (out.new ≡ out.old ++ plain (group one marks.now)) }
{
    if marks.is_empty() {
        return Ok(());
    }
    put_key(out, Key::Open)?;
    put_names(alloc, out, marks)?;
    put_key(out, Key::Close)
}

fn put_reading(alloc: Global, out: &mut Items<Symbol>, reading: &Reading) -> Result<(), AllocError>
    ensures { OnOk result (out.new ≡ out.old ++ plain (reading_words reading.now)) }
{
    put_mark(alloc, out, &reading.name)?;
    put_args(alloc, out, reading.args.as_slice())
}

fn put_product(alloc: Global, out: &mut Items<Symbol>, product: &Product) -> Result<(), AllocError>
    ensures { OnOk result (out.new ≡ out.old ++ plain (product_words product.now)) }
{
    match product {
        Product::Number(figure) => put_number(out, figure.value),
        Product::Times(figure, reading) => {
            put_number(out, figure.value)?;
            put_key(out, Key::Star)?;
            put_reading(alloc, out, reading)
        }
        Product::Reading(reading) => put_reading(alloc, out, reading),
    }
}

fn key_of_sign(sign: Sign) -> Key
    ensures { result ≡ sign_key sign }
{
    match sign {
        Sign::Plus => Key::Plus,
        Sign::Minus => Key::Minus,
    }
}

fn put_signed(alloc: Global, out: &mut Items<Symbol>, signed: &Signed) -> Result<(), AllocError>
    ensures { OnOk result (out.new ≡ out.old ++ plain (signed_words signed.now)) }
{
    put_key(out, key_of_sign(signed.sign))?;
    put_product(alloc, out, &signed.summand.product)
}

fn put_more(alloc: Global, out: &mut Items<Symbol>, more: &[Signed]) -> Result<(), AllocError>
    ensures { OnOk result (out.new ≡ out.old ++ plain (each signed_words more.now)) }
{
    'more: for signed in more {
        put_signed(alloc, out, signed)?;
    }
    Ok(())
}

fn put_minus(out: &mut Items<Symbol>, minus: bool) -> Result<(), AllocError>
    ensures { OnOk result (out.new ≡ out.old ++ plain (minus_words minus)) }
{
    if minus {
        return put_key(out, Key::Minus);
    }
    Ok(())
}

fn put_term(alloc: Global, out: &mut Items<Symbol>, term: &Term) -> Result<(), AllocError>
    ensures { OnOk result (out.new ≡ out.old ++ plain (term_words term.now)) }
{
    put_minus(out, term.minus)?;
    put_product(alloc, out, &term.first.product)?;
    put_more(alloc, out, term.more.as_slice())
}

fn key_of_comparison(comparison: Comparison) -> Key
    ensures { result ≡ comparison_key comparison }
{
    match comparison {
        Comparison::Equal => Key::Equal,
        Comparison::Unequal => Key::Unequal,
        Comparison::Less => Key::Less,
        Comparison::AtMost => Key::AtMost,
        Comparison::Greater => Key::Greater,
        Comparison::AtLeast => Key::AtLeast,
    }
}

fn key_of_connective(connective: Connective) -> Key
    ensures { result ≡ connective_key connective }
{
    match connective {
        Connective::And => Key::And,
        Connective::Or => Key::Or,
        Connective::Implies => Key::Implies,
    }
}

fn put_formula(alloc: Global, out: &mut Items<Symbol>, formula: &Formula) -> Result<(), AllocError>
    ensures { OnOk result (out.new ≡ out.old ++ plain (form_words (form_of formula.now))) }
{
    match formula {
        Formula::True(_) => put_key(out, Key::True),
        Formula::False(_) => put_key(out, Key::False),
        Formula::Not(_, inner) => {
            put_key(out, Key::Not)?;
            put_formula(alloc, out, inner)
        }
        Formula::Connect(_, left, connective, right) => {
            put_key(out, Key::Open)?;
            put_formula(alloc, out, left)?;
            put_key(out, key_of_connective(*connective))?;
            put_formula(alloc, out, right)?;
            put_key(out, Key::Close)
        }
        Formula::Has(_, reading) => put_reading(alloc, out, reading),
        Formula::Compare(_, left, comparison, right) => {
            put_key(out, Key::Open)?;
            put_term(alloc, out, left)?;
            put_key(out, key_of_comparison(*comparison))?;
            put_term(alloc, out, right)?;
            put_key(out, Key::Close)
        }
    }
}

fn put_variable(
    alloc: Global,
    out: &mut Items<Symbol>,
    variable: &Variable,
) -> Result<(), AllocError>
    ensures { OnOk result (out.new ≡ out.old ++ plain (variable_words variable.now)) }
{
    put_mark(alloc, out, &variable.name)?;
    put_key(out, Key::Colon)?;
    put_mark(alloc, out, &variable.sort)
}

fn put_variables(
    alloc: Global,
    out: &mut Items<Symbol>,
    vars: &[Variable],
) -> Result<(), AllocError>
    ensures { OnOk result (out.new ≡ out.old ++ plain (listed variable_words vars.now)) }
{
    match vars {
        [] => Ok(()),
        [first, rest @ ..] => {
            put_variable(alloc, out, first)?;
            put_more_variables(alloc, out, rest)
        }
    }
}

fn put_more_variables(
    alloc: Global,
    out: &mut Items<Symbol>,
    vars: &[Variable],
) -> Result<(), AllocError>
    ensures { OnOk result
        (out.new
        ≡ out.old ++ plain (each (λ v. sign_words keys.Comma ∷ variable_words v) vars.now)) }
{
    'vars: for var in vars {
        put_key(out, Key::Comma)?;
        put_variable(alloc, out, var)?;
    }
    Ok(())
}

fn key_of_quantifier(quantifier: Quantifier) -> Key
    ensures { result ≡ quantifier_key quantifier }
{
    match quantifier {
        Quantifier::Forall => Key::Forall,
        Quantifier::Exists => Key::Exists,
    }
}

fn put_prefix(
    alloc: Global,
    out: &mut Items<Symbol>,
    prefix: &Option<Prefix>,
) -> Result<(), AllocError>
    ensures { OnOk result (out.new ≡ out.old ++ plain (prefix_words prefix.now)) }
{
    match prefix {
        None => Ok(()),
        Some(prefix) => {
            put_key(out, key_of_quantifier(prefix.quantifier))?;
            put_variables(alloc, out, prefix.vars.as_slice())?;
            put_key(out, Key::Dot)
        }
    }
}

fn put_sentence(
    alloc: Global,
    out: &mut Items<Symbol>,
    sentence: &Prefixed,
) -> Result<(), AllocError>
    ensures { OnOk result (out.new ≡ out.old ++ plain (sentence_words (sentence_of sentence.now))) }
{
    put_prefix(alloc, out, &sentence.prefix)?;
    put_formula(alloc, out, &sentence.body)
}

fn put_value(out: &mut Items<Symbol>, value: &Value) -> Result<(), AllocError>
    ensures { OnOk result (out.new ≡ out.old ++ plain (value_words value.now)) }
{
    match value {
        Value::True => put_key(out, Key::True),
        Value::False => put_key(out, Key::False),
        Value::Number(minus, figure) => {
            put_minus(out, *minus)?;
            put_number(out, figure.value)
        }
    }
}

fn put_param(alloc: Global, out: &mut Items<Symbol>, param: &Param) -> Result<(), AllocError>
    ensures { OnOk result (out.new ≡ out.old ++ plain (param_words param.now)) }
{
    put_mark(alloc, out, &param.name)?;
    put_key(out, Key::Colon)?;
    match &param.kind {
        ParamKind::Sort(sort) => put_mark(alloc, out, sort),
        ParamKind::Int => put_key(out, Key::Int),
    }
}

fn put_param_list(
    alloc: Global,
    out: &mut Items<Symbol>,
    params: &[Param],
) -> Result<(), AllocError>
    ensures { OnOk result (out.new ≡ out.old ++ plain (listed param_words params.now)) }
{
    match params {
        [] => Ok(()),
        [first, rest @ ..] => {
            put_param(alloc, out, first)?;
            put_more_params(alloc, out, rest)
        }
    }
}

fn put_more_params(
    alloc: Global,
    out: &mut Items<Symbol>,
    params: &[Param],
) -> Result<(), AllocError>
    ensures { OnOk result
        (out.new
        ≡ out.old ++ plain (each (λ p. sign_words keys.Comma ∷ param_words p) params.now)) }
{
    'params: for param in params {
        put_key(out, Key::Comma)?;
        put_param(alloc, out, param)?;
    }
    Ok(())
}

fn put_params(alloc: Global, out: &mut Items<Symbol>, params: &[Param]) -> Result<(), AllocError>
    ensures { OnOk result (out.new ≡ out.old ++ plain (group param_words params.now)) }
{
    if params.is_empty() {
        return Ok(());
    }
    put_key(out, Key::Open)?;
    put_param_list(alloc, out, params)?;
    put_key(out, Key::Close)
}

fn put_spot(alloc: Global, out: &mut Items<Symbol>, spot: &Spot) -> Result<(), AllocError>
    ensures { OnOk result (out.new ≡ out.old ++ plain (spot_words spot.now)) }
{
    match spot {
        Spot::One(mark) => put_mark(alloc, out, mark),
        Spot::Every => put_key(out, Key::Star),
    }
}

fn put_spot_list(alloc: Global, out: &mut Items<Symbol>, spots: &[Spot]) -> Result<(), AllocError>
    ensures { OnOk result (out.new ≡ out.old ++ plain (listed spot_words spots.now)) }
{
    match spots {
        [] => Ok(()),
        [first, rest @ ..] => {
            put_spot(alloc, out, first)?;
            put_more_spots(alloc, out, rest)
        }
    }
}

fn put_more_spots(alloc: Global, out: &mut Items<Symbol>, spots: &[Spot]) -> Result<(), AllocError>
    ensures { OnOk result
        (out.new ≡ out.old ++ plain (each (λ s. sign_words keys.Comma ∷ spot_words s) spots.now)) }
{
    'spots: for spot in spots {
        put_key(out, Key::Comma)?;
        put_spot(alloc, out, spot)?;
    }
    Ok(())
}

fn put_spots(alloc: Global, out: &mut Items<Symbol>, spots: &[Spot]) -> Result<(), AllocError>
    ensures { OnOk result (out.new ≡ out.old ++ plain (group spot_words spots.now)) }
{
    if spots.is_empty() {
        return Ok(());
    }
    put_key(out, Key::Open)?;
    put_spot_list(alloc, out, spots)?;
    put_key(out, Key::Close)
}

fn put_exclusive(alloc: Global, out: &mut Items<Symbol>) -> Result<(), AllocError>
    ensures { OnOk result (out.new ≡ out.old ++ symbol.Name exclusive_text ∷ []) }
{
    put_text(alloc, out, b"exclusive".as_slice())
}

fn put_observes(alloc: Global, out: &mut Items<Symbol>) -> Result<(), AllocError>
    ensures { OnOk result (out.new ≡ out.old ++ symbol.Name observes_text ∷ []) }
{
    put_text(alloc, out, b"observes".as_slice())
}

fn put_mode(alloc: Global, out: &mut Items<Symbol>, mode: Mode) -> Result<(), AllocError>
    ensures { OnOk result (out.new ≡ out.old ++ plain (mode_words mode)) }
{
    match mode {
        Mode::Missing => Ok(()),
        Mode::Shared => put_text(alloc, out, b"shared".as_slice()),
        Mode::Exclusive => put_exclusive(alloc, out),
    }
}

fn put_guard(
    alloc: Global,
    out: &mut Items<Symbol>,
    guard: &Option<Formula>,
) -> Result<(), AllocError>
    ensures { OnOk result (out.new ≡ out.old ++ plain (guard_words (guard_of guard.now))) }
{
    match guard {
        None => Ok(()),
        Some(formula) => {
            put_key(out, Key::When)?;
            put_formula(alloc, out, formula)
        }
    }
}

fn put_change(
    alloc: Global,
    out: &mut Items<Symbol>,
    name: &Mark,
    spots: &[Spot],
    guard: &Option<Formula>,
) -> Result<(), AllocError>
    ensures { OnOk result
        (out.new
        ≡ out.old
        ++ plain (mark_words name.now
        ∷ (group spot_words spots.now ++ guard_words (guard_of guard.now)))) }
{
    put_mark(alloc, out, name)?;
    put_spots(alloc, out, spots)?;
    put_guard(alloc, out, guard)
}

fn put_amount(
    alloc: Global,
    out: &mut Items<Symbol>,
    name: &Mark,
    spots: &[Spot],
    amount: &Term,
    guard: &Option<Formula>,
) -> Result<(), AllocError>
    ensures { OnOk result
        (out.new
        ≡ out.old
        ++ plain (mark_words name.now
        ∷ (group spot_words spots.now
        ++ (term_words amount.now ++ guard_words (guard_of guard.now))))) }
{
    put_mark(alloc, out, name)?;
    put_spots(alloc, out, spots)?;
    put_term(alloc, out, amount)?;
    put_guard(alloc, out, guard)
}

fn put_line(alloc: Global, out: &mut Items<Symbol>, line: &Line) -> Result<(), AllocError>
    ensures { OnOk result (out.new ≡ out.old ++ plain (line_words (line_of line.now))) }
{
    match line {
        Line::Requires(_, sentence) => {
            put_key(out, Key::Requires)?;
            put_sentence(alloc, out, sentence)
        }
        Line::Insert(_, name, spots, guard) => {
            put_key(out, Key::Insert)?;
            put_change(alloc, out, name, spots.as_slice(), guard)
        }
        Line::Remove(_, name, spots, guard) => {
            put_key(out, Key::Remove)?;
            put_change(alloc, out, name, spots.as_slice(), guard)
        }
        Line::Add(_, name, spots, amount, guard) => {
            put_key(out, Key::Add)?;
            put_amount(alloc, out, name, spots.as_slice(), amount, guard)
        }
        Line::Set(_, name, spots, amount, guard) => {
            put_key(out, Key::Set)?;
            put_amount(alloc, out, name, spots.as_slice(), amount, guard)
        }
        Line::Takes(_, reading, mode) => {
            put_key(out, Key::Takes)?;
            put_reading(alloc, out, reading)?;
            put_mode(alloc, out, *mode)
        }
        Line::Observes(_, sentence) => {
            put_observes(alloc, out)?;
            put_sentence(alloc, out, sentence)
        }
    }
}

fn put_lines(alloc: Global, out: &mut Items<Symbol>, lines: &[Line]) -> Result<(), AllocError>
    ensures { OnOk result
        (out.new ≡ out.old ++ plain (each (λ l. line_words (line_of l)) lines.now)) }
{
    'lines: for line in lines {
        put_line(alloc, out, line)?;
    }
    Ok(())
}

fn put_places(
    alloc: Global,
    out: &mut Items<Symbol>,
    key: Key,
    name: &Mark,
    places: &[Mark],
) -> Result<(), AllocError>
    ensures { OnOk result
        (out.new ≡ out.old ++ symbol.Key key ∷ plain (mark_words name.now ∷ group one places.now)) }
{
    put_key(out, key)?;
    put_mark(alloc, out, name)?;
    put_args(alloc, out, places)
}

fn put_operation(
    alloc: Global,
    out: &mut Items<Symbol>,
    name: &Mark,
    params: &[Param],
    lines: &[Line],
) -> Result<(), AllocError>
    ensures { OnOk result
        (out.new
        ≡ out.old
        ++ plain (mark_words name.now
        ∷ (group param_words params.now
        ++ (each (λ l. line_words (line_of l)) lines.now ++ sign_words keys.End ∷ [])))) }
{
    put_mark(alloc, out, name)?;
    put_params(alloc, out, params)?;
    put_lines(alloc, out, lines)?;
    put_key(out, Key::End)
}

fn put_item(alloc: Global, out: &mut Items<Symbol>, item: &Item) -> Result<(), AllocError>
    ensures { OnOk result (out.new ≡ out.old ++ plain (item_words (item_of item.now))) }
{
    match item {
        Item::Sort(_, name) => {
            put_key(out, Key::Sort)?;
            put_mark(alloc, out, name)
        }
        Item::Const(_, name, sort) => {
            put_key(out, Key::Const)?;
            put_mark(alloc, out, name)?;
            put_key(out, Key::Colon)?;
            put_mark(alloc, out, sort)
        }
        Item::Relation(_, name, places) => {
            put_places(alloc, out, Key::Relation, name, places.as_slice())
        }
        Item::Counter(_, name, keys) => {
            put_places(alloc, out, Key::Counter, name, keys.as_slice())
        }
        Item::Initially(_, name, value) => {
            put_key(out, Key::Initially)?;
            put_mark(alloc, out, name)?;
            put_value(out, value)
        }
        Item::Token(_, name, places) => {
            put_places(alloc, out, Key::Token, name, places.as_slice())
        }
        Item::Conflict(_, left, right) => {
            put_key(out, Key::Conflict)?;
            put_reading(alloc, out, left)?;
            put_reading(alloc, out, right)
        }
        Item::Invariant(_, name, sentence) => {
            put_key(out, Key::Invariant)?;
            put_mark(alloc, out, name)?;
            put_sentence(alloc, out, sentence)
        }
        Item::Operation(_, name, params, lines) => {
            put_key(out, Key::Operation)?;
            put_operation(alloc, out, name, params.as_slice(), lines.as_slice())
        }
    }
}

fn put_items(alloc: Global, out: &mut Items<Symbol>, items: &[Item]) -> Result<(), AllocError>
    ensures { OnOk result
        (out.new ≡ out.old ++ plain (each (λ i. item_words (item_of i)) items.now)) }
{
    'items: for item in items {
        put_item(alloc, out, item)?;
    }
    Ok(())
}

/// Puts the words of a tree at the end.
pub fn put_tree(alloc: Global, out: &mut Items<Symbol>, tree: &Tree) -> Result<(), AllocError>
    ensures { OnOk result (out.new ≡ out.old ++ plain (tree_words (tree_of tree.now))) }
{
    put_key(out, Key::Cise)?;
    match tree.version {
        Version::First => put_number(out, 1)?,
        Version::Second => put_number(out, 2)?,
    }
    put_items(alloc, out, tree.items.as_slice())
}
