// Runs of the program on words and on the bytes of two inputs. What lacks memory ends the test.
use byte_ports::{MemSink, MemSource, Source};
use cise_program::run::run;
use std::alloc::Global;
use std::process::Abort;

/// How a run ended: with this status, and with this text written.
#[derive(Drop)]
pub struct Ended {
    pub status: u8,
    pub text: Vec<u8>,
}

/// What may fail: the source of the specification, the second source, the sink.
#[derive(Clone, Copy, PartialEq)]
pub enum Port {
    Spec,
    Extra,
    Out,
}

/// A call of a port, by its number.
#[derive(Clone, Copy)]
pub struct Call {
    pub port: Port,
    pub number: u32,
}

/// The most bytes that the sources give, and the sink takes, at a call.
#[derive(Clone, Copy)]
pub struct Pieces {
    pub given: usize,
    pub taken: usize,
}

/// Those of a run of which nothing else is said.
const PIECES: Pieces = Pieces {
    given: 100,
    taken: 100,
};

/// The most bytes of a text that a run writes here.
const ROOM: usize = 600_000;

/// Words as the program is given them.
pub fn words_from(rt: &impl Abort, alloc: Global, words: &[&str]) -> Vec<String> {
    let mut copies = Vec::new(alloc);
    for word in words {
        let copy = String::from_str(alloc, word).expect(rt, "memory");
        copies.push(copy).expect(rt, "memory");
    }
    copies
}

/// The bytes of a text.
pub fn bytes_of(rt: &impl Abort, alloc: Global, text: &[u8]) -> Vec<u8> {
    Vec::from_slice(alloc, text).expect(rt, "memory")
}

/// Writes bytes behind a text.
pub fn add(rt: &impl Abort, text: &mut Vec<u8>, bytes: &[u8]) {
    text.extend_from_slice(bytes).expect(rt, "memory");
}

/// The calls of a port that fail: one or none.
fn failing_calls(rt: &impl Abort, alloc: Global, failing: Option<Call>, port: Port) -> Vec<u32> {
    let mut calls = Vec::new(alloc);
    if let Some(call) = failing {
        if call.port == port {
            calls.push(call.number).expect(rt, "memory");
        }
    }
    calls
}

/// A source of bytes, which gives so many at a call and fails at these calls.
pub fn source(
    rt: &impl Abort,
    alloc: Global,
    bytes: &[u8],
    piece: usize,
    fail_at: Vec<u32>,
) -> MemSource {
    MemSource::new(bytes_of(rt, alloc, bytes), piece.max(1), fail_at)
}

/// A sink with so much room, which takes so many bytes at a call and fails at these calls.
pub fn sink(
    rt: &impl Abort,
    alloc: Global,
    room: usize,
    piece: usize,
    fail_at: Vec<u32>,
) -> MemSink {
    MemSink::new(alloc, room, piece.max(1), fail_at).expect(rt, "memory")
}

/// The status of a run with these ports.
pub fn status_of<S: Source, E: Source>(
    rt: &impl Abort,
    alloc: Global,
    words: &[&str],
    spec: &mut S,
    extra: &mut E,
    out: &mut MemSink,
) -> u8 {
    let words = words_from(rt, alloc, words);
    let status = run(alloc, &words, spec, extra, out);
    drop(words);
    status
}

/// Runs the program on words and bytes in such pieces, where a call fails.
pub fn run_failing(
    rt: &impl Abort,
    alloc: Global,
    words: &[&str],
    spec: &[u8],
    extra: &[u8],
    pieces: Pieces,
    failing: Option<Call>,
) -> Ended {
    let calls = failing_calls(rt, alloc, failing, Port::Spec);
    let mut spec = source(rt, alloc, spec, pieces.given, calls);
    let calls = failing_calls(rt, alloc, failing, Port::Extra);
    let mut extra = source(rt, alloc, extra, pieces.given, calls);
    let calls = failing_calls(rt, alloc, failing, Port::Out);
    let mut out = sink(rt, alloc, ROOM, pieces.taken, calls);
    let status = status_of(rt, alloc, words, &mut spec, &mut extra, &mut out);
    drop(spec);
    drop(extra);
    let text = bytes_of(rt, alloc, out.held());
    drop(out);
    Ended { status, text }
}

/// Runs the program on words and bytes.
pub fn run_on(rt: &impl Abort, alloc: Global, words: &[&str], spec: &[u8], extra: &[u8]) -> Ended {
    run_failing(rt, alloc, words, spec, extra, PIECES, None)
}

/// Whether a run ends with this status and this text.
pub fn ends_with(
    rt: &impl Abort,
    alloc: Global,
    words: &[&str],
    spec: &[u8],
    extra: &[u8],
    status: u8,
    text: &[u8],
) -> bool {
    let ended = run_on(rt, alloc, words, spec, extra);
    let same = ended.status == status && ended.text.as_slice() == text;
    drop(ended);
    same
}

/// Whether a run ends with this status and this text for what two sources give.
pub fn ends_from<S: Source, E: Source>(
    rt: &impl Abort,
    alloc: Global,
    words: &[&str],
    spec: &mut S,
    extra: &mut E,
    status: u8,
    text: &[u8],
) -> bool {
    let mut out = sink(rt, alloc, 4000, 100, Vec::new(alloc));
    let ended = status_of(rt, alloc, words, spec, extra, &mut out);
    let same = ended == status && out.held() == text;
    drop(out);
    same
}

/// What stands in a text before and behind the first place of a part.
fn around<'a>(text: &'a [u8], part: &[u8]) -> Option<(&'a [u8], &'a [u8])> {
    for place in 0..text.len() {
        let from = &text[place..];
        if from.starts_with(part) {
            let end = part.len().min(from.len());
            return Some((&text[..place], &from[end..]));
        }
    }
    None
}

/// A text in which the first place of one text is another.
pub fn replaced(rt: &impl Abort, alloc: Global, text: &[u8], old: &[u8], new: &[u8]) -> Vec<u8> {
    let Some((before, behind)) = around(text, old) else {
        return bytes_of(rt, alloc, text);
    };
    let mut changed = bytes_of(rt, alloc, before);
    add(rt, &mut changed, new);
    add(rt, &mut changed, behind);
    changed
}

/// Whether some lines of a text begin so, in this order.
pub fn has_lines(text: &[u8], lines: &[&[u8]]) -> bool {
    let mut found = 0;
    for line in text.split(|byte| *byte == b'\n') {
        if found < lines.len() && line.starts_with(lines[found]) {
            found += 1;
        }
    }
    found == lines.len()
}

/// Whether a run in such pieces ends as another did.
pub fn is_alike(
    rt: &impl Abort,
    alloc: Global,
    words: &[&str],
    spec: &[u8],
    extra: &[u8],
    pieces: Pieces,
    whole: &Ended,
) -> bool {
    let ended = run_failing(rt, alloc, words, spec, extra, pieces, None);
    let same = is_same(&ended, whole);
    drop(ended);
    same
}

fn is_same(ended: &Ended, whole: &Ended) -> bool {
    ended.status == whole.status && ended.text.as_slice() == whole.text.as_slice()
}

/// Whether a run ended as a failing call of a port ends it: a source leaves nothing written, a sink a front of the text.
fn is_stopped(ended: &Ended, whole: &Ended, port: Port) -> bool {
    match port {
        Port::Out => ended.status == 7 && whole.text.starts_with(ended.text.as_slice()),
        _ => ended.status == 6 && ended.text.is_empty(),
    }
}

/// What a run with one failing call came to.
#[derive(Clone, Copy)]
enum Stop {
    AsWhole,
    Stopped,
    Otherwise,
}

fn stop_at(
    rt: &impl Abort,
    alloc: Global,
    words: &[&str],
    spec: &[u8],
    extra: &[u8],
    pieces: Pieces,
    call: Call,
    whole: &Ended,
) -> Stop {
    let ended = run_failing(rt, alloc, words, spec, extra, pieces, Some(call));
    let (same, stopped) = (is_same(&ended, whole), is_stopped(&ended, whole, call.port));
    drop(ended);
    if same {
        Stop::AsWhole
    } else if stopped {
        Stop::Stopped
    } else {
        Stop::Otherwise
    }
}

/// How many runs a failing call stops, where the calls of one port fail one after the other up to the first run that ends as one without
/// failing calls.
pub fn stopped_runs(
    rt: &impl Abort,
    alloc: Global,
    words: &[&str],
    spec: &[u8],
    extra: &[u8],
    pieces: Pieces,
    port: Port,
) -> Option<u32> {
    let whole = run_on(rt, alloc, words, spec, extra);
    let mut stopped = None;
    for number in 0..100 {
        let call = Call { port, number };
        match stop_at(rt, alloc, words, spec, extra, pieces, call, &whole) {
            Stop::AsWhole => {
                stopped = Some(number);
                break;
            }
            Stop::Stopped => {}
            Stop::Otherwise => break,
        }
    }
    drop(whole);
    stopped
}
