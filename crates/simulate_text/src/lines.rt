// The lines of a simulation's text.

ghost use Rattle.std.specs.Prelude.{◌≡◌, ◌++◌, OnOk};
ghost use Rattle.simulate_text.specs.Lines.{void_words, said_words, said_line, said_lines};
ghost use Rattle.simulate_text.specs.Lines.{refusal_words, stop_line};

use crate::said::{Said, SimulateRefused, Stop};
use replay_text::{invariant_name, push, push_number, push_range};
use spec_core::Spec;
use std::alloc::{AllocError, Global};
use token_protocol::WhyVoid;

fn push_void(
    alloc: Global,
    text: &mut Vec<u8>,
    spec: &Spec,
    why: &WhyVoid,
) -> Result<(), AllocError>
    ensures { OnOk result (text.new.items ≡ text.old.items ++ void_words spec.now why.now) }
{
    match why {
        WhyVoid::Precondition { line } => {
            push_number(alloc, text, b"precondition ", *line as usize)
        }
        WhyVoid::Observation { line } => push_number(alloc, text, b"observation ", *line as usize),
        WhyVoid::Range {
            counter,
            key,
            value,
        } => push_range(alloc, text, spec, *counter, key.as_slice(), *value),
    }
}

fn push_said_words(
    alloc: Global,
    text: &mut Vec<u8>,
    spec: &Spec,
    said: &Said,
) -> Result<(), AllocError>
    ensures { OnOk result (text.new.items ≡ text.old.items ++ said_words spec.now said.now) }
{
    match said {
        Said::Call(event) => push_number(alloc, text, b"call ", *event as usize),
        Said::Take(event) => push_number(alloc, text, b"take ", *event as usize),
        Said::Old(event) => push_number(alloc, text, b"old ", *event as usize),
        Said::Early(event) => push_number(alloc, text, b"early ", *event),
        Said::Awaits(id) => {
            push_number(alloc, text, b"awaits ", id.replica as usize)?;
            push_number(alloc, text, b" ", id.turn as usize)
        }
        Said::Void(why) => {
            push(text, b"void ")?;
            push_void(alloc, text, spec, why)
        }
    }
}

/// Adds a line of a step at a replica.
fn push_line(
    alloc: Global,
    text: &mut Vec<u8>,
    spec: &Spec,
    number: usize,
    replica: u32,
    said: &Said,
) -> Result<(), AllocError>
    ensures { OnOk result
        (text.new.items ≡ text.old.items ++ said_line spec.now number replica said.now) }
{
    push_number(alloc, text, b"step ", number)?;
    push_number(alloc, text, b" replica ", replica as usize)?;
    push(text, b" ")?;
    push_said_words(alloc, text, spec, said)?;
    push(text, b"\n")
}

/// Adds the lines of a step at a replica.
pub fn push_lines(
    alloc: Global,
    text: &mut Vec<u8>,
    spec: &Spec,
    number: usize,
    replica: u32,
    said: &[Said],
) -> Result<(), AllocError>
    ensures { OnOk result
        (text.new.items ≡ text.old.items ++ said_lines spec.now number replica said.now) }
{
    for what in said {
        push_line(alloc, text, spec, number, replica, what)?;
    }
    Ok(())
}

fn push_refusal(
    alloc: Global,
    text: &mut Vec<u8>,
    spec: &Spec,
    why: &SimulateRefused,
) -> Result<(), AllocError>
    ensures { OnOk result (text.new.items ≡ text.old.items ++ refusal_words spec.now why.now) }
{
    match why {
        SimulateRefused::Replica => push(text, b"replica"),
        SimulateRefused::Operation => push(text, b"operation"),
        SimulateRefused::Arguments => push(text, b"arguments"),
        SimulateRefused::Waiting => push(text, b"waiting"),
        SimulateRefused::NoEvent => push(text, b"noevent"),
        SimulateRefused::Range {
            counter,
            key,
            value,
        } => push_range(alloc, text, spec, *counter, key.as_slice(), *value),
    }
}

/// Adds the line that says how a simulation stops, at the step of this number.
pub fn push_stop(
    alloc: Global,
    text: &mut Vec<u8>,
    spec: &Spec,
    at: usize,
    stop: &Stop,
) -> Result<(), AllocError>
    ensures { OnOk result (text.new.items ≡ text.old.items ++ stop_line spec.now at stop.now) }
{
    match stop {
        Stop::Done => push_number(alloc, text, b"done ", at)?,
        Stop::BrokenFirst(place) => {
            push(text, b"broken start ")?;
            push(text, invariant_name(spec, *place))?;
        }
        Stop::Broken(place) => {
            push_number(alloc, text, b"broken ", at)?;
            push(text, b" ")?;
            push(text, invariant_name(spec, *place))?;
        }
        Stop::Refused(why) => {
            push_number(alloc, text, b"refused ", at)?;
            push(text, b" ")?;
            push_refusal(alloc, text, spec, why)?;
        }
    }
    push(text, b"\n")
}
