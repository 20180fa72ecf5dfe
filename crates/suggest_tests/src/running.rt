// What is done with a specification in the tests. What isn't one, and what lacks memory, ends the test.
use byte_ports::MemSink;
use spec_core::Spec;
use spec_from_bytes::{Reading, SPECIFICATION_LIMIT, read_bytes};
use std::alloc::{AllocError, Global};
use std::process::Abort;
use suggest::{SuggestTally, suggest_all};

/// What a text is read as. It stays whole, and is let go as a whole.
pub fn reading_of(rt: &impl Abort, alloc: Global, text: &[u8]) -> Reading {
    assert!(rt; text.len() <= SPECIFICATION_LIMIT);
    read_bytes(alloc, text).expect(rt, "memory")
}

/// The specification that was read.
pub fn spec_of<'a>(rt: &impl Abort, reading: &'a Reading) -> &'a Spec {
    match reading {
        Reading::Specified(_, spec) => spec,
        Reading::Refused(_) => panic!(rt; "no specification"),
    }
}

/// The text of a suggestion, and its tally. A sink takes a hundred bytes at a call.
pub fn suggested(
    rt: &impl Abort,
    alloc: Global,
    spec: &Spec,
    budget: u32,
) -> (Vec<u8>, SuggestTally) {
    assert!(rt; 1 <= budget && budget <= 1_000_000);
    let mut out = MemSink::new(alloc, 400_000, 100, Vec::new(alloc)).expect(rt, "memory");
    let Ok(tally) = suggest_all(alloc, spec, budget, &mut out) else {
        panic!(rt; "stopped");
    };
    let text = Vec::from_slice(alloc, out.held()).expect(rt, "memory");
    drop(out);
    (text, tally)
}
