// Reading formulas with their variables.

ghost use Rattle.std.specs.Prelude.{◌≡◌, length};
ghost use Rattle.parser_combinators.specs.{Gives.{Gives}, Read.{one_more}};
ghost use Rattle.spec_trees.specs.Form.{sentence_of};
ghost use Rattle.spec_reader.specs.Reading.{variable_at, variables_at, prefix_at, sentence_at};

use crate::formulas::formula;
use crate::words::{is_quantifier, name, quantifier};
use items::{Items, or_drop};
use parser_combinators::{Key, ReadError, Token, Version, is_key, next_kind, sign};
use spec_trees::{Prefix, Prefixed, Variable};
use std::alloc::Global;

#[tactic(auto, unfolding(crate::specs::Reading::variable_at))]
fn variable(
    alloc: Global,
    version: Version,
    tokens: &[Token],
) -> Result<(Variable, &[Token]), ReadError>
    ensures { Gives (λ x. (x.0, x.1.now)) result (variable_at version tokens.now) }
{
    let (name_mark, rest) = name(alloc, version, tokens)?;
    let rest = or_drop!(sign(rest, Key::Colon); name_mark);
    let (sort, rest) = or_drop!(name(alloc, version, rest); name_mark);
    Ok((
        Variable {
            name: name_mark,
            sort,
        },
        rest,
    ))
}

fn next_variable(
    alloc: Global,
    version: Version,
    tokens: &[Token],
) -> Result<(Variable, &[Token]), ReadError>
    ensures { Gives (λ x. (x.0, x.1.now)) result (one_more (variable_at version) tokens.now) }
{
    let rest = sign(tokens, Key::Comma)?;
    let (variable, rest) = variable(alloc, version, rest)?;
    Ok((variable, rest))
}

#[tactic(auto, unfolding(crate::specs::Reading::variables_at))]
fn variables(
    alloc: Global,
    version: Version,
    tokens: &[Token],
) -> Result<(Items<Variable>, &[Token]), ReadError>
    ensures { Gives (λ x. (x.0, x.1.now)) result (variables_at version tokens.now) }
{
    let (first, after_first) = variable(alloc, version, tokens)?;
    let mut vars = Items::new(alloc);
    vars.push(first)?;
    let mut rest = after_first;
    'vars: while is_key(next_kind(rest), Key::Comma) {
        let (var, after) = next_variable(alloc, version, rest)?;
        vars.push(var)?;
        rest = after;
    }
    Ok((vars, rest))
}

#[tactic(auto, unfolding(crate::specs::Reading::prefix_at))]
fn prefix(
    alloc: Global,
    version: Version,
    tokens: &[Token],
) -> Result<(Prefix, &[Token]), ReadError>
    ensures { Gives (λ x. (x.0, x.1.now)) result (prefix_at version tokens.now) }
{
    let (quantifier, word, rest) = quantifier(tokens)?;
    let (vars, rest) = variables(alloc, version, rest)?;
    let rest = or_drop!(sign(rest, Key::Dot); vars);
    Ok((
        Prefix {
            word,
            quantifier,
            vars,
        },
        rest,
    ))
}

/// A formula with its variables. It nests at most `depth` deep below its uppermost level.
#[tactic(auto, unfolding(crate::specs::Reading::sentence_at))]
pub fn sentence(
    alloc: Global,
    version: Version,
    depth: u32,
    tokens: &[Token],
) -> Result<(Prefixed, &[Token]), ReadError>
    ensures { Gives (λ x. (sentence_of x.0, x.1.now)) result
        (sentence_at version depth tokens.now) }
{
    if !is_quantifier(next_kind(tokens)) {
        let (body, rest) = formula(alloc, version, depth, tokens)?;
        return Ok((Prefixed { prefix: None, body }, rest));
    }
    let (prefix, rest) = prefix(alloc, version, tokens)?;
    let (body, rest) = or_drop!(formula(alloc, version, depth, rest); prefix);
    Ok((
        Prefixed {
            prefix: Some(prefix),
            body,
        },
        rest,
    ))
}
