// The lines of a witness: what they say, and reading them.

ghost use Rattle.std.specs.{Prelude.{◌≡◌, ◌∷◌, ◌++◌, [], length, codes, OnOk}, Fmt.{decimal}};
ghost use Rattle.std.specs.List.{flat_map};
ghost use Rattle.report_lines.specs.{Fields.{count_format, value_format}, Formats.{only, mapped}};
ghost use Rattle.report_lines.specs.Witnesses.{to_shown, is_other, size_format, const_format};
ghost use Rattle.report_lines.specs.Witnesses.{tuple_words, fact_format, reading_format};
ghost use Rattle.report_lines.specs.Witnesses.{argument_format, arguments_words, call_format};
ghost use Rattle.report_lines.specs.Witnesses.{at_format, shown_format};
ghost use Rattle.report_lines.specs.Words.{left, spaced, line_text, Gives};
ghost use Rattle.std.proofs.Common.{inl, inr};
ghost use Rattle.spec_core.specs.Specification.{op_of};

use crate::fields::{count, element, number, value};
use crate::list::times;
use crate::names::name_among;
use crate::verdict::operation_name;
use crate::words::{ReadError, Words, next, these};
use crate::writing::{put_entries, put_integer, put_number, put_word, write_words};
use items::{Items, or_drop};
use itoa::Buffer;
use spec_core::{Call, Kind, Param, Spec, World};
use std::alloc::{AllocError, Global};

/// A tuple that a relation holds.
#[derive(Drop)]
pub struct Fact {
    pub relation: u8,
    pub tuple: Items<u32>,
}

/// The value of a counter at a key.
#[derive(Drop)]
pub struct Reading {
    pub counter: u8,
    pub key: Items<u32>,
    pub value: i64,
}

/// A line of a witness behind those of its world.
#[derive(Drop)]
pub enum Shown {
    Fact(Fact),
    Reading(Reading),
    Call(Call),
    /// The elements at which the conclusion fails.
    At(Items<u32>),
}

/// Which lines may come behind those of the world: the first relation and the first counter that are still due, and how many
/// elements stand at the end.
#[derive(Clone, Copy)]
pub struct Due {
    pub relation: u8,
    pub counter: u8,
    pub elements: u32,
}

/// `size SORT N`, for the sort of this name.
pub fn read_size<'a>(words: Words<'a>, sort: &[u8]) -> Result<(u32, Words<'a>), ReadError>
    ensures { Gives (λ x. (x.0, left x.1)) result ((size_format sort.now).get (left words.entry)) }
{
    let rest = these(words, &[b"size", sort])?;
    number(rest, 100)
}

/// `const NAME E`, for the constant of this name, of a sort of this size.
pub fn read_const<'a>(
    words: Words<'a>,
    name: &[u8],
    size: u32,
) -> Result<(u32, Words<'a>), ReadError>
    ensures { Gives (λ x. (x.0, left x.1)) result
        ((const_format name.now size).get (left words.entry)) }
{
    let rest = these(words, &[b"const", name])?;
    element(rest, size)
}

// An element of each of these sorts.
fn tuple<'a>(
    alloc: Global,
    world: &World,
    sorts: &[u8],
    words: Words<'a>,
) -> Result<(Items<u32>, Words<'a>), ReadError>
    ensures { Gives (λ x. (x.0, left x.1)) result
        ((tuple_words world.now sorts.now).get (left words.entry)) }
{
    let mut tuple = Items::new(alloc);
    let mut rest = words;
    'sorts: for sort in sorts {
        let (element, after) = element(rest, world.size(*sort))?;
        tuple.push(element)?;
        rest = after;
    }
    Ok((tuple, rest))
}

// Behind `true`: a relation that is due, and a tuple of it.
fn read_fact<'a>(
    alloc: Global,
    spec: &Spec,
    world: &World,
    from: u8,
    words: Words<'a>,
) -> Result<(Shown, Words<'a>), ReadError>
    ensures { Gives (λ x. (x.0, left x.1)) result
        (mapped (λ x. to_shown (inl x)) ((fact_format spec.now world.now from).get
        (left words.entry))) }
{
    spec.well_formed();
    let (relation, rest) = name_among(words, spec.relations.as_slice(), from)?;
    let (tuple, rest) = tuple(alloc, world, spec.relation_places(relation), rest)?;
    Ok((Shown::Fact(Fact { relation, tuple }), rest))
}

// A value that isn't 0.
fn other(words: Words<'_>) -> Result<(i64, Words<'_>), ReadError>
    ensures { Gives (λ x. (x.0, left x.1)) result
        ((only is_other value_format).get (left words.entry)) }
{
    let (value, rest) = value(words)?;
    if value == 0 {
        return Err(ReadError::Form);
    }
    Ok((value, rest))
}

// Behind `count`: a counter that is due, a key of it, and the value there, which isn't 0.
fn read_reading<'a>(
    alloc: Global,
    spec: &Spec,
    world: &World,
    from: u8,
    words: Words<'a>,
) -> Result<(Shown, Words<'a>), ReadError>
    ensures { Gives (λ x. (x.0, left x.1)) result
        (mapped (λ x. to_shown (inr (inl x)))
        ((reading_format spec.now world.now from).get (left words.entry))) }
{
    spec.well_formed();
    let (counter, rest) = name_among(words, spec.counters.as_slice(), from)?;
    let (key, rest) = tuple(alloc, world, spec.counter_keys(counter), rest)?;
    let (value, rest) = or_drop!(other(rest); key);
    let reading = Reading {
        counter,
        key,
        value,
    };
    Ok((Shown::Reading(reading), rest))
}

fn argument(words: Words<'_>, kind: Kind) -> Result<(i64, Words<'_>), ReadError>
    ensures { Gives (λ x. (x.0, left x.1)) result ((argument_format kind).get (left words.entry)) }
{
    match kind {
        Kind::Sort(_) => {
            let (element, rest) = count(words)?;
            Ok((element as i64, rest))
        }
        Kind::Int => value(words),
    }
}

// An argument for each parameter.
fn arguments<'a>(
    alloc: Global,
    params: &[Param],
    words: Words<'a>,
) -> Result<(Items<i64>, Words<'a>), ReadError>
    ensures { Gives (λ x. (x.0, left x.1)) result
        ((arguments_words params.now).get (left words.entry)) }
{
    let mut args = Items::new(alloc);
    let mut rest = words;
    'params: for param in params {
        let (argument, after) = argument(rest, param.kind)?;
        args.push(argument)?;
        rest = after;
    }
    Ok((args, rest))
}

fn params_of(spec: &Spec, op: u8) -> &[Param]
    ensures { result.now ≡ (op_of spec.now op).params }
{
    match spec.operations.as_slice().get(op as usize) {
        Some(operation) => operation.params.as_slice(),
        None => &[],
    }
}

// Behind `call`: an operation and its arguments.
fn read_call<'a>(
    alloc: Global,
    spec: &Spec,
    words: Words<'a>,
) -> Result<(Shown, Words<'a>), ReadError>
    ensures { Gives (λ x. (x.0, left x.1)) result
        (mapped (λ x. to_shown (inr (inr (inl x))))
        ((call_format spec.now).get (left words.entry))) }
{
    spec.well_formed();
    let (op, rest) = name_among(words, spec.operations.as_slice(), 0)?;
    let (args, rest) = arguments(alloc, params_of(spec, op), rest)?;
    Ok((Shown::Call(Call { op, args }), rest))
}

// Behind `at`: so many elements.
fn read_at<'a>(alloc: Global, count: u32, words: Words<'a>) -> Result<(Shown, Words<'a>), ReadError>
    ensures { Gives (λ x. (x.0, left x.1)) result
        (mapped (λ x. to_shown (inr (inr (inr x)))) ((at_format count).get (left words.entry))) }
{
    let (elements, rest) = times(alloc, count, words)?;
    Ok((Shown::At(elements), rest))
}

/// A line behind those of the world.
pub fn read_shown<'a>(
    alloc: Global,
    spec: &Spec,
    world: &World,
    due: Due,
    words: Words<'a>,
) -> Result<(Shown, Words<'a>), ReadError>
    ensures { Gives (λ x. (x.0, left x.1)) result
        ((shown_format spec.now world.now due).get (left words.entry)) }
{
    let (word, rest) = next(words)?;
    if word == b"true".as_slice() {
        return read_fact(alloc, spec, world, due.relation, rest);
    }
    if word == b"count".as_slice() {
        return read_reading(alloc, spec, world, due.counter, rest);
    }
    if word == b"call".as_slice() {
        return read_call(alloc, spec, rest);
    }
    if word == b"at".as_slice() {
        return read_at(alloc, due.elements, rest);
    }
    Err(ReadError::Form)
}

/// Appends the line of a sort's size.
pub fn write_size(out: &mut Vec<u8>, sort: &[u8], size: u32) -> Result<(), AllocError>
    ensures { OnOk result (out.new.items ≡ out.old.items
        ++ line_text ((size_format sort.now).put size)) }
{
    let mut buffer = Buffer::new();
    let size = buffer.format(size).as_bytes();
    write_words(out, b"size", &[sort, size])
}

/// Appends the line of a constant's element.
pub fn write_const(out: &mut Vec<u8>, name: &[u8], element: u32) -> Result<(), AllocError>
    ensures { OnOk result (out.new.items ≡ out.old.items
        ++ line_text (codes "const" ∷ name.now ∷ decimal element ∷ [])) }
{
    let mut buffer = Buffer::new();
    let element = buffer.format(element).as_bytes();
    write_words(out, b"const", &[name, element])
}

fn put_elements(out: &mut Vec<u8>, elements: &[u32]) -> Result<(), AllocError>
    ensures { OnOk result (out.new.items ≡ out.old.items
        ++ spaced (flat_map count_format.put elements.now)) }
{
    put_entries(out, elements)
}

/// Appends the line of the elements.
pub fn write_at(out: &mut Vec<u8>, elements: &[u32]) -> Result<(), AllocError>
    ensures { OnOk result (out.new.items ≡ out.old.items
        ++ line_text (codes "at" ∷ (at_format (length elements.now)).put elements.now)) }
{
    out.extend_from_slice(b"at")?;
    put_elements(out, elements)?;
    out.push(b'\n')?;
    Ok(())
}

fn put_argument(out: &mut Vec<u8>, kind: Kind, argument: i64) -> Result<(), AllocError>
    ensures { OnOk result (out.new.items ≡ out.old.items
        ++ spaced ((argument_format kind).put argument)) }
{
    match kind {
        Kind::Sort(_) => {
            if argument < 0 {
                return Ok(());
            }
            put_number(out, argument as u64)
        }
        Kind::Int => put_integer(out, argument as i128),
    }
}

fn put_arguments(out: &mut Vec<u8>, params: &[Param], args: &[i64]) -> Result<(), AllocError>
    ensures { OnOk result (out.new.items ≡ out.old.items
        ++ spaced ((arguments_words params.now).put args.now)) }
{
    match params {
        [] => Ok(()),
        [param, params @ ..] => match args {
            [] => Ok(()),
            [argument, args @ ..] => {
                put_argument(out, param.kind, *argument)?;
                put_arguments(out, params, args)
            }
        },
    }
}

fn put_call(out: &mut Vec<u8>, spec: &Spec, call: &Call) -> Result<(), AllocError>
    ensures { OnOk result (out.new.items ≡ out.old.items
        ++ spaced ((call_format spec.now).put call.now)) }
{
    put_word(out, operation_name(spec, call.op))?;
    put_arguments(out, params_of(spec, call.op), call.args.as_slice())?;
    Ok(())
}

/// Appends the line of a call. An argument that is no element is left out, and so is one too many.
pub fn write_call(out: &mut Vec<u8>, spec: &Spec, call: &Call) -> Result<(), AllocError>
    ensures { OnOk result (out.new.items ≡ out.old.items
        ++ line_text (codes "call" ∷ (call_format spec.now).put call.now)) }
{
    out.extend_from_slice(b"call")?;
    put_call(out, spec, call)?;
    out.push(b'\n')?;
    Ok(())
}
