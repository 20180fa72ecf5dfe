// Specifications that texts are.

use spec_core::Spec;
use spec_from_bytes::{Reading, SPECIFICATION_LIMIT, read_bytes};
use std::alloc::Global;
use std::process::Abort;

/// What a text is read as. It stays whole, and is let go as a whole.
pub fn reading_of(rt: &impl Abort, alloc: Global, text: &[u8]) -> Reading {
    assert!(rt; text.len() <= SPECIFICATION_LIMIT);
    read_bytes(alloc, text).expect(rt, "memory")
}

/// The specification that was read.
pub fn spec_of<'a>(rt: &impl Abort, reading: &'a Reading) -> &'a Spec {
    match reading {
        Reading::Specified(_, spec) => spec,
        Reading::Refused(_) => panic!(rt; "no specification"),
    }
}
