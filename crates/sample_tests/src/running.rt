// Runs of the bank's program on words and on the bytes of a schedule.
use bank_host::run_bank;
use byte_ports::{MemSink, MemSource};
use std::alloc::Global;
use std::process::Abort;

/// The most bytes that the source gives, and the sink takes, at a call.
const PIECE: usize = 100;

/// The most bytes of a text that a run writes here.
const ROOM: usize = 4000;

/// What may fail: the source of the schedule, the sink.
#[derive(Clone, Copy, PartialEq)]
pub enum Port {
    Source,
    Sink,
}

/// The words as the program is given them.
fn words_from(rt: &impl Abort, alloc: Global, words: &[&str]) -> Vec<String> {
    let mut copies = Vec::new(alloc);
    for word in words {
        let copy = String::from_str(alloc, word).expect(rt, "memory");
        copies.push(copy).expect(rt, "memory");
    }
    copies
}

/// The calls that fail: the first one, or none.
fn failing(rt: &impl Abort, alloc: Global, first: bool) -> Vec<u32> {
    let mut calls = Vec::new(alloc);
    if first {
        calls.push(0).expect(rt, "memory");
    }
    calls
}

/// Whether a run ends with this status and this text, where the first call of a port fails.
pub fn ends_with(
    rt: &impl Abort,
    alloc: Global,
    words: &[&str],
    schedule: &[u8],
    fails: Option<Port>,
    status: u8,
    text: &[u8],
) -> bool {
    let reads = failing(rt, alloc, fails == Some(Port::Source));
    let writes = failing(rt, alloc, fails == Some(Port::Sink));
    let bytes = Vec::from_slice(alloc, schedule).expect(rt, "memory");
    let mut schedule = MemSource::new(bytes, PIECE, reads);
    let mut out = MemSink::new(alloc, ROOM, PIECE, writes).expect(rt, "memory");
    let given = words_from(rt, alloc, words);
    let ended = run_bank(alloc, &given, &mut schedule, &mut out);
    drop(given);
    drop(schedule);
    let same = ended == status && out.held() == text;
    drop(out);
    same
}
