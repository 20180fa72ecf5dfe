// Reading the lines of an operation.

ghost use Rattle.std.specs.Prelude.{◌≡◌, length, map};
ghost use Rattle.parser_combinators.specs.{Gives.{Gives}, Read.{one_more, listed_at}};
ghost use Rattle.spec_trees.specs.Form.{guard_of, sentence_of, line_of};
ghost use Rattle.spec_reader.specs.Reading.{spot_at, spots_at, guard_at, mode_at, change_at};
ghost use Rattle.spec_reader.specs.Reading.{amount_at, old_line_at, insert_at, remove_at, add_at};
ghost use Rattle.spec_reader.specs.Reading.{set_at, takes_line_at, requires_line_at};
ghost use Rattle.spec_reader.specs.Reading.{is_observes as observes_test, observes_at, line_at};
ghost use Rattle.spec_reader.specs.Reading.{starts_old_line as old_line_test};
ghost use Rattle.spec_reader.specs.Reading.{starts_line as line_test, lines_at};

use crate::formulas::formula;
use crate::sentences::sentence;
use crate::terms::{reading, term};
use crate::words::name;
use items::{Items, or_drop};
use parser_combinators::{
    Key, Kind, ReadError, Token, Version, is_key, key, kind_of_symbol, next_kind, sign,
};
use spec_trees::{Formula, Line, Mark, Mode, Prefixed, Reading, Spot, Term};
use std::alloc::Global;

#[tactic(auto, unfolding(crate::specs::Reading::spot_at))]
fn spot(alloc: Global, version: Version, tokens: &[Token]) -> Result<(Spot, &[Token]), ReadError>
    ensures { Gives (λ x. (x.0, x.1.now)) result (spot_at version tokens.now) }
{
    if is_key(next_kind(tokens), Key::Star) {
        let rest = sign(tokens, Key::Star)?;
        return Ok((Spot::Every, rest));
    }
    let (mark, rest) = name(alloc, version, tokens)?;
    Ok((Spot::One(mark), rest))
}

fn next_spot(
    alloc: Global,
    version: Version,
    tokens: &[Token],
) -> Result<(Spot, &[Token]), ReadError>
    ensures { Gives (λ x. (x.0, x.1.now)) result (one_more (spot_at version) tokens.now) }
{
    let rest = sign(tokens, Key::Comma)?;
    let (spot, rest) = spot(alloc, version, rest)?;
    Ok((spot, rest))
}

fn spot_list(
    alloc: Global,
    version: Version,
    tokens: &[Token],
) -> Result<(Items<Spot>, &[Token]), ReadError>
    ensures { Gives (λ x. (x.0, x.1.now)) result (listed_at (spot_at version) tokens.now) }
{
    let (first, after_first) = spot(alloc, version, tokens)?;
    let mut list = Items::new(alloc);
    list.push(first)?;
    let mut rest = after_first;
    'spots: while is_key(next_kind(rest), Key::Comma) {
        let (spot, after) = next_spot(alloc, version, rest)?;
        list.push(spot)?;
        rest = after;
    }
    Ok((list, rest))
}

/// Spots in brackets, or none.
#[tactic(auto, unfolding(crate::specs::Reading::spots_at))]
fn spots(
    alloc: Global,
    version: Version,
    tokens: &[Token],
) -> Result<(Items<Spot>, &[Token]), ReadError>
    ensures { Gives (λ x. (x.0, x.1.now)) result (spots_at version tokens.now) }
{
    if !is_key(next_kind(tokens), Key::Open) {
        return Ok((Items::new(alloc), tokens));
    }
    let rest = sign(tokens, Key::Open)?;
    let (list, rest) = spot_list(alloc, version, rest)?;
    let rest = or_drop!(sign(rest, Key::Close); list);
    Ok((list, rest))
}

/// What `when` says, or nothing.
#[tactic(auto, unfolding(crate::specs::Reading::guard_at))]
fn guard(
    alloc: Global,
    version: Version,
    depth: u32,
    tokens: &[Token],
) -> Result<(Option<Formula>, &[Token]), ReadError>
    ensures { Gives (λ x. (guard_of x.0, x.1.now)) result (guard_at version depth tokens.now) }
{
    if !is_key(next_kind(tokens), Key::When) {
        return Ok((None, tokens));
    }
    let rest = sign(tokens, Key::When)?;
    let (formula, rest) = formula(alloc, version, depth, rest)?;
    Ok((Some(formula), rest))
}

#[tactic(auto, unfolding(crate::specs::Reading::mode_at))]
fn mode(version: Version, tokens: &[Token]) -> Result<(Mode, &[Token]), ReadError>
    ensures { Gives (λ x. (x.0, x.1.now)) result (mode_at version tokens.now) }
{
    match (version, tokens) {
        (Version::Second, [token, rest @ ..]) => match kind_of_symbol(&token.symbol) {
            Kind::Shared => Ok((Mode::Shared, rest)),
            Kind::Exclusive => Ok((Mode::Exclusive, rest)),
            _ => Ok((Mode::Missing, tokens)),
        },
        _ => Ok((Mode::Missing, tokens)),
    }
}

/// What `insert` and `remove` say.
#[derive(Drop)]
struct Change {
    word: u32,
    name: Mark,
    spots: Items<Spot>,
    guard: Option<Formula>,
}

#[tactic(auto, unfolding(crate::specs::Reading::change_at))]
fn change_line(
    alloc: Global,
    kind: Key,
    version: Version,
    depth: u32,
    tokens: &[Token],
) -> Result<(Change, &[Token]), ReadError>
    ensures { Gives (λ x. ((x.0.word, (x.0.name, (x.0.spots, guard_of x.0.guard))), x.1.now)) result
        (change_at kind version depth tokens.now) }
{
    let (word, rest) = key(tokens, kind)?;
    let (name, rest) = name(alloc, version, rest)?;
    let (spots, rest) = or_drop!(spots(alloc, version, rest); name);
    let (guard, rest) = or_drop!(guard(alloc, version, depth, rest); name, spots);
    Ok((
        Change {
            word,
            name,
            spots,
            guard,
        },
        rest,
    ))
}

fn insertion(
    alloc: Global,
    version: Version,
    depth: u32,
    tokens: &[Token],
) -> Result<(Line, &[Token]), ReadError>
    ensures { Gives (λ x. (line_of x.0, x.1.now)) result (insert_at version depth tokens.now) }
{
    let (c, rest) = change_line(alloc, Key::Insert, version, depth, tokens)?;
    Ok((Line::Insert(c.word, c.name, c.spots, c.guard), rest))
}

fn removal(
    alloc: Global,
    version: Version,
    depth: u32,
    tokens: &[Token],
) -> Result<(Line, &[Token]), ReadError>
    ensures { Gives (λ x. (line_of x.0, x.1.now)) result (remove_at version depth tokens.now) }
{
    let (c, rest) = change_line(alloc, Key::Remove, version, depth, tokens)?;
    Ok((Line::Remove(c.word, c.name, c.spots, c.guard), rest))
}

/// What `add` and `set` say.
#[derive(Drop)]
struct Amount {
    word: u32,
    name: Mark,
    spots: Items<Spot>,
    amount: Term,
    guard: Option<Formula>,
}

#[tactic(auto, unfolding(crate::specs::Reading::amount_at))]
fn amount_line(
    alloc: Global,
    kind: Key,
    version: Version,
    depth: u32,
    tokens: &[Token],
) -> Result<(Amount, &[Token]), ReadError>
    ensures { Gives
        (λ x. ((x.0.word, (x.0.name, (x.0.spots, (x.0.amount, guard_of x.0.guard)))), x.1.now))
        result (amount_at kind version depth tokens.now) }
{
    let (word, rest) = key(tokens, kind)?;
    let (name, rest) = name(alloc, version, rest)?;
    let (spots, rest) = or_drop!(spots(alloc, version, rest); name);
    let (amount, rest) = or_drop!(term(alloc, version, rest); name, spots);
    let (guard, rest) = or_drop!(guard(alloc, version, depth, rest); name, spots, amount);
    Ok((
        Amount {
            word,
            name,
            spots,
            amount,
            guard,
        },
        rest,
    ))
}

fn addition(
    alloc: Global,
    version: Version,
    depth: u32,
    tokens: &[Token],
) -> Result<(Line, &[Token]), ReadError>
    ensures { Gives (λ x. (line_of x.0, x.1.now)) result (add_at version depth tokens.now) }
{
    let (a, rest) = amount_line(alloc, Key::Add, version, depth, tokens)?;
    Ok((Line::Add(a.word, a.name, a.spots, a.amount, a.guard), rest))
}

fn setting(
    alloc: Global,
    version: Version,
    depth: u32,
    tokens: &[Token],
) -> Result<(Line, &[Token]), ReadError>
    ensures { Gives (λ x. (line_of x.0, x.1.now)) result (set_at version depth tokens.now) }
{
    let (a, rest) = amount_line(alloc, Key::Set, version, depth, tokens)?;
    Ok((Line::Set(a.word, a.name, a.spots, a.amount, a.guard), rest))
}

#[tactic(auto, unfolding(crate::specs::Reading::takes_at))]
fn takes(alloc: Global, version: Version, tokens: &[Token]) -> Result<(Line, &[Token]), ReadError>
    ensures { Gives (λ x. (line_of x.0, x.1.now)) result (takes_line_at version tokens.now) }
{
    let (word, rest) = key(tokens, Key::Takes)?;
    let (reading, rest) = reading(alloc, version, rest)?;
    let (mode, rest) = or_drop!(mode(version, rest); reading);
    Ok((Line::Takes(word, reading, mode), rest))
}

#[tactic(auto, unfolding(crate::specs::Reading::requires_at))]
fn precondition(
    alloc: Global,
    version: Version,
    depth: u32,
    tokens: &[Token],
) -> Result<(Line, &[Token]), ReadError>
    ensures { Gives (λ x. (line_of x.0, x.1.now)) result
        (requires_line_at version depth tokens.now) }
{
    let (word, rest) = key(tokens, Key::Requires)?;
    let (sentence, rest) = sentence(alloc, version, depth, rest)?;
    Ok((Line::Requires(word, sentence), rest))
}

/// A line that both versions have.
#[tactic(auto, unfolding(crate::specs::Reading::old_line_at))]
fn old_line(
    alloc: Global,
    version: Version,
    depth: u32,
    tokens: &[Token],
) -> Result<(Line, &[Token]), ReadError>
    ensures { Gives (λ x. (line_of x.0, x.1.now)) result (old_line_at version depth tokens.now) }
{
    let kind = next_kind(tokens);
    if is_key(kind, Key::Requires) {
        return precondition(alloc, version, depth, tokens);
    }
    if is_key(kind, Key::Insert) {
        return insertion(alloc, version, depth, tokens);
    }
    if is_key(kind, Key::Remove) {
        return removal(alloc, version, depth, tokens);
    }
    if is_key(kind, Key::Add) {
        return addition(alloc, version, depth, tokens);
    }
    if is_key(kind, Key::Set) {
        return setting(alloc, version, depth, tokens);
    }
    takes(alloc, version, tokens)
}

fn is_observes(kind: Kind) -> bool
    ensures { result ≡ observes_test kind }
{
    match kind {
        Kind::Observes => true,
        _ => false,
    }
}

#[tactic(auto, unfolding(crate::specs::Reading::observes_at))]
fn observation(
    alloc: Global,
    version: Version,
    depth: u32,
    tokens: &[Token],
) -> Result<(u32, Prefixed, &[Token]), ReadError>
    ensures { Gives (λ x. ((x.0, sentence_of x.1), x.2.now)) result
        (observes_at version depth tokens.now) }
{
    match tokens {
        [] => Err(ReadError::Syntax(0)),
        [token, rest @ ..] => {
            if !is_observes(kind_of_symbol(&token.symbol)) {
                return Err(ReadError::Syntax(tokens.len()));
            }
            let (sentence, rest) = sentence(alloc, version, depth, rest)?;
            Ok((token.word, sentence, rest))
        }
    }
}

/// A line of an operation.
#[tactic(auto, unfolding(crate::specs::Reading::line_at))]
fn line(
    alloc: Global,
    version: Version,
    depth: u32,
    tokens: &[Token],
) -> Result<(Line, &[Token]), ReadError>
    ensures { Gives (λ x. (line_of x.0, x.1.now)) result (line_at version depth tokens.now) }
{
    match version {
        Version::First => old_line(alloc, Version::First, depth, tokens),
        Version::Second => {
            if is_observes(next_kind(tokens)) {
                let (word, sentence, rest) = observation(alloc, Version::Second, depth, tokens)?;
                return Ok((Line::Observes(word, sentence), rest));
            }
            let (line, rest) = old_line(alloc, Version::Second, depth, tokens)?;
            Ok((line, rest))
        }
    }
}

fn starts_old_line(kind: Kind) -> bool
    ensures { result ≡ old_line_test kind }
{
    is_key(kind, Key::Requires)
        || is_key(kind, Key::Insert)
        || is_key(kind, Key::Remove)
        || is_key(kind, Key::Add)
        || is_key(kind, Key::Set)
        || is_key(kind, Key::Takes)
}

fn starts_line(version: Version, kind: Kind) -> bool
    ensures { result ≡ line_test version kind }
{
    match version {
        Version::First => starts_old_line(kind),
        Version::Second => is_observes(kind) || starts_old_line(kind),
    }
}

/// The lines of an operation.
pub fn lines(
    alloc: Global,
    version: Version,
    depth: u32,
    tokens: &[Token],
) -> Result<(Items<Line>, &[Token]), ReadError>
    ensures { Gives (λ x. (map line_of x.0, x.1.now)) result (lines_at version depth tokens.now) }
{
    let mut lines = Items::new(alloc);
    let mut rest = tokens;
    'lines: while starts_line(version, next_kind(rest)) {
        let (line, after) = line(alloc, version, depth, rest)?;
        lines.push(line)?;
        rest = after;
    }
    Ok((lines, rest))
}
